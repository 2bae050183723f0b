ghost use Rattle.std.specs.Prelude.{◌≡◌, ◌≤◌, ℤ, ◌∷◌, [], length, map, IfOk, option_and_then, option_map, unwrap_or, codes};
ghost use Rattle.serde_json.specs.Find.{get};
ghost use Rattle.serde_json.specs.View.{view};
ghost use Rattle.project_model.specs.Constant.{constant_key};
ghost use Rattle.project_json.specs.Reads.{key_in, keys_in, time_in, source_in, no_solid};
ghost use Rattle.project_json.specs.PlainData.{count_of, text_of, depth_of, time_of, keys_of, mode_of, matte_of, items_of, plain_fx_of, plain_clip_of, plain_layer_of, plain_comp_of, plain_of_data};

use crate::parts::{byte_in, count_in, items_in, items_of, whole_in};
use crate::plain_fx::each_fx;
use crate::reads::{
    NO_INDEX, NO_SOLID, ZERO_TIME, constant_key, key_in, matte_in, mode_in, source_in, time_in,
};
use host_io::Memory;
use param_stream::Keyframe;
use project_model::{
    ClipUse, Collection, EffectSchema, FULL_OPACITY, Item, PlainComp, PlainFx, PlainLayer,
    PlainProject, Text,
};
use rational_time::Time;
use serde_json::Value;
use std::alloc::Global;
use track_matte::Matte;
use transfer_mode::Mode;

/// The count in the member of that name.
fn count_of(value: &Value, name: &str, other: u32) -> u32
    ensures { result ≡ count_of other name.now (view value.now) }
{
    match value.get(name) {
        Some(count) => count_in(count).unwrap_or(other),
        None => other,
    }
}

/// The text in the member of that name, empty where there is none.
fn text_of(alloc: Global, value: &Value, name: &str) -> Result<Text, Memory>
    ensures { IfOk result (λ text. text ≡ text_of name.now (view value.now)) }
{
    let text = match value.get(name) {
        Some(text) => text.as_str().unwrap_or(""),
        None => "",
    };
    Ok(Text::from_string(String::from_str(alloc, text)?))
}

/// The depth of a clip, 0 where there is none from 0 to 255.
fn depth_of(clip: &Value) -> u8
    ensures { result ≡ depth_of (view clip.now) }
{
    match clip.get("depth") {
        Some(depth) => byte_in(depth).unwrap_or(0),
        None => 0,
    }
}

fn time_of(value: &Value, name: &str) -> Time
    ensures { result ≡ time_of name.now (view value.now) }
{
    match value.get(name) {
        Some(time) => time_in(time).unwrap_or(ZERO_TIME),
        None => ZERO_TIME,
    }
}

/// The time in the member of that name, where it is there.
fn end_of(value: &Value, name: &str) -> Option<Time>
    ensures { result ≡ option_and_then time_in (get name.now (view value.now)) }
{
    match value.get(name) {
        Some(time) => time_in(time),
        None => None,
    }
}

fn each_key(alloc: Global, items: &[Value]) -> Result<Vec<Keyframe>, Memory>
    ensures { IfOk result (λ keys. keys.items ≡ map (λ item. key_in (view item)) items.now) }
{
    let mut keys = Vec::new(alloc);
    for item in items {
        keys.push(key_in(item))?;
    }
    Ok(keys)
}

/// A number is a constant stream, and an array is its keyframes.
pub(crate) fn keys_in(alloc: Global, value: &Value) -> Result<Collection<Keyframe>, Memory>
    ensures { IfOk result (λ keys. keys ≡ keys_in (view value.now)) }
{
    if value.is_number() {
        one_key(alloc, whole_in(value).unwrap_or(0))
    } else {
        Ok(Collection::from_vec(each_key(alloc, items_in(value))?))
    }
}

fn one_key(alloc: Global, value: i64) -> Result<Collection<Keyframe>, Memory>
    ensures { IfOk result (λ keys. keys ≡ constant_key value ∷ []) }
{
    let mut keys = Vec::new(alloc);
    keys.push(constant_key(value))?;
    Ok(Collection::from_vec(keys))
}

/// The stream in the member of that name, where it is constant if it is absent.
fn keys_of(
    alloc: Global,
    value: &Value,
    name: &str,
    other: i64,
) -> Result<Collection<Keyframe>, Memory>
    ensures { IfOk result (λ keys. keys ≡ keys_of other name.now (view value.now)) }
{
    match value.get(name) {
        Some(stream) => keys_in(alloc, stream),
        None => one_key(alloc, other),
    }
}

fn source_of(layer: &Value) -> Item
    ensures { result ≡ unwrap_or (option_map source_in (get (codes "source") (view layer.now))) no_solid }
{
    match layer.get("source") {
        Some(source) => source_in(source),
        None => NO_SOLID,
    }
}

/// The mode that `mode` names, Normal where it is not there.
fn mode_of(layer: &Value) -> Option<Mode>
    ensures { result ≡ mode_of (view layer.now) }
{
    match layer.get("mode") {
        Some(name) => mode_in(name),
        None => Some(Mode::Normal),
    }
}

/// The matte that `matte` names, none where it is not there.
fn matte_of(layer: &Value) -> Option<Matte>
    ensures { result ≡ matte_of (view layer.now) }
{
    match layer.get("matte") {
        Some(name) => matte_in(name),
        None => Some(Matte::None),
    }
}

/// The effects of a layer.
fn effects_of(
    alloc: Global,
    layer: &Value,
    schemas: &[EffectSchema],
) -> Result<Collection<PlainFx>, Memory>
    requires { length schemas.now ≤ 65536 }
    ensures { IfOk result (λ plain. plain ≡ map (plain_fx_of schemas.now) (items_of (codes "effects") (view layer.now))) }
{
    let effects = each_fx(alloc, items_of(layer, "effects"), schemas)?;
    Ok(Collection::from_vec(effects))
}

fn plain_layer(alloc: Global, layer: &Value, schemas: &[EffectSchema]) -> Result<PlainLayer, Memory>
    requires { length schemas.now ≤ 65536 }
    ensures { IfOk result (λ plain. plain ≡ plain_layer_of schemas.now (view layer.now)) }
{
    Ok(PlainLayer {
        source: source_of(layer),
        start: time_of(layer, "start"),
        in_point: time_of(layer, "in"),
        out_point: end_of(layer, "out"),
        mode: mode_of(layer),
        matte: matte_of(layer),
        opacity: keys_of(alloc, layer, "opacity", FULL_OPACITY)?,
        x: keys_of(alloc, layer, "x", 0)?,
        y: keys_of(alloc, layer, "y", 0)?,
        effects: effects_of(alloc, layer, schemas)?,
    })
}

fn each_layer(
    alloc: Global,
    layers: &[Value],
    schemas: &[EffectSchema],
) -> Result<Vec<PlainLayer>, Memory>
    requires { length schemas.now ≤ 65536 }
    ensures { IfOk result (λ plain. plain.items ≡ map (λ layer. plain_layer_of schemas.now (view layer)) layers.now) }
{
    let mut plain = Vec::new(alloc);
    for layer in layers {
        plain.push(plain_layer(alloc, layer, schemas)?)?;
    }
    Ok(plain)
}

fn plain_clip(alloc: Global, clip: &Value) -> Result<ClipUse, Memory>
    ensures { IfOk result (λ plain. plain ≡ plain_clip_of (view clip.now)) }
{
    Ok(ClipUse {
        name: text_of(alloc, clip, "name")?,
        width: count_of(clip, "width", 0),
        height: count_of(clip, "height", 0),
        depth: depth_of(clip),
        frame: time_of(clip, "frame"),
        frames: count_of(clip, "frames", 0),
    })
}

fn each_clip(alloc: Global, clips: &[Value]) -> Result<Vec<ClipUse>, Memory>
    ensures { IfOk result (λ plain. plain.items ≡ map (λ clip. plain_clip_of (view clip)) clips.now) }
{
    let mut plain = Vec::new(alloc);
    for clip in clips {
        plain.push(plain_clip(alloc, clip)?)?;
    }
    Ok(plain)
}

fn plain_comp(alloc: Global, comp: &Value, schemas: &[EffectSchema]) -> Result<PlainComp, Memory>
    requires { length schemas.now ≤ 65536 }
    ensures { IfOk result (λ plain. plain ≡ plain_comp_of schemas.now (view comp.now)) }
{
    let layers = each_layer(alloc, items_of(comp, "layers"), schemas)?;
    Ok(PlainComp {
        width: count_of(comp, "width", 0),
        height: count_of(comp, "height", 0),
        frame: time_of(comp, "frame"),
        frames: count_of(comp, "frames", 0),
        layers: Collection::from_vec(layers),
    })
}

fn each_comp(
    alloc: Global,
    comps: &[Value],
    schemas: &[EffectSchema],
) -> Result<Vec<PlainComp>, Memory>
    requires { length schemas.now ≤ 65536 }
    ensures { IfOk result (λ plain. plain.items ≡ map (λ comp. plain_comp_of schemas.now (view comp)) comps.now) }
{
    let mut plain = Vec::new(alloc);
    for comp in comps {
        plain.push(plain_comp(alloc, comp, schemas)?)?;
    }
    Ok(plain)
}

/// The plain parts of a project, whatever the value is, where its effects are those of a set with these schemas: a part that is
/// absent or out of form counts as one that no rule accepts, or as its default.
pub(crate) fn plain_project(
    alloc: Global,
    top: &Value,
    schemas: &[EffectSchema],
) -> Result<PlainProject, Memory>
    requires { length schemas.now ≤ 65536 }
    ensures { IfOk result (λ plain. plain ≡ plain_of_data schemas.now (view top.now)) }
{
    let clips = each_clip(alloc, items_of(top, "clips"))?;
    let comps = each_comp(alloc, items_of(top, "comps"), schemas)?;
    Ok(PlainProject {
        depth: count_of(top, "depth", 0),
        root: count_of(top, "root", NO_INDEX),
        clips: Collection::from_vec(clips),
        comps: Collection::from_vec(comps),
    })
}
