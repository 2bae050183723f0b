ghost use Rattle.std.specs.Prelude.{◌≡◌, ◌<◌, Some, length, unwrap_or, IfSome};
ghost use Rattle.serde_json.specs.View.{view};
ghost use Rattle.project_model.specs.Constant.{constant_key, zero_time};
ghost use Rattle.project_json.specs.Reads.{time_from, time_in, kind_named, kind_in, mode_in, matte_in, key_in, solid_from_items, solid_in, index_in, source_in, no_solid, fx_named, fx_kind_in};
ghost use Rattle.project_json.specs.Parts.{items_in};
ghost use Rattle.project_json.specs.PlainData.{fx_kind_of};

use crate::parts::{count_in, items_in, whole_in};
use param_stream::{Ease, Keyframe};
use project_model::{EffectSchema, Item};
use rational_time::Time;
use serde_json::Value;
use track_matte::{Matte, matte_of_name};
use transfer_mode::{Mode, mode_of_name};

/// Zero seconds.
pub(crate) const ZERO_TIME: Time = Time { value: 0, scale: 1 };

/// A solid that no rule accepts.
pub(crate) const NO_SOLID: Item = Item::Solid {
    width: 0,
    height: 0,
    a: 0,
    r: 0,
    g: 0,
    b: 0,
};

/// An index that names nothing: no project has so many clips or compositions.
pub(crate) const NO_INDEX: u32 = 4_294_967_295;

/// The greatest kind, for what names no effect of the set.
pub(crate) const NO_KIND: u16 = 65_535;

fn time_from(value: i64, scale: u32) -> Option<Time>
    ensures { result ≡ time_from (Some value) (Some scale) }
{
    match i32::try_from(value) {
        Ok(value) if 1 <= scale => Some(Time { value, scale }),
        _ => None,
    }
}

/// `[value, scale]`
pub(crate) fn time_in(value: &Value) -> Option<Time>
    ensures { result ≡ time_in (view value.now) }
{
    let [value, scale] = items_in(value) else {
        return None;
    };
    time_from(whole_in(value)?, count_in(scale)?)
}

fn kind_named(name: &str) -> Option<Ease>
    ensures { result ≡ kind_named name.now }
{
    if name == "hold" {
        Some(Ease::Hold)
    } else if name == "linear" {
        Some(Ease::Linear)
    } else if name == "ease" {
        Some(Ease::Smooth)
    } else {
        None
    }
}

/// `"hold"`, `"linear"` or `"ease"`
pub(crate) fn kind_in(value: &Value) -> Option<Ease>
    ensures { result ≡ kind_in (view value.now) }
{
    kind_named(value.as_str()?)
}

/// The name of a mode.
pub(crate) fn mode_in(value: &Value) -> Option<Mode>
    ensures { result ≡ mode_in (view value.now) }
{
    mode_of_name(value.as_str()?)
}

/// The name of a matte.
pub(crate) fn matte_in(value: &Value) -> Option<Matte>
    ensures { result ≡ matte_in (view value.now) }
{
    matte_of_name(value.as_str()?)
}

/// The value at every tick.
pub(crate) fn constant_key(value: i64) -> Keyframe
    ensures { result ≡ constant_key value }
{
    Keyframe {
        time: ZERO_TIME,
        value,
        kind: Ease::Hold,
    }
}

/// `[value, time, kind]`; a part that is not of its kind counts as 0, as zero seconds or as hold.
pub(crate) fn key_in(value: &Value) -> Keyframe
    ensures { result ≡ key_in (view value.now) }
{
    let [value, time, kind] = items_in(value) else {
        return constant_key(0);
    };
    Keyframe {
        time: time_in(time).unwrap_or(ZERO_TIME),
        value: whole_in(value).unwrap_or(0),
        kind: kind_in(kind).unwrap_or(Ease::Hold),
    }
}

fn solid_from(value: &Value) -> Option<Item>
    ensures { result ≡ solid_from_items (items_in (view value.now)) }
{
    let [width, height, a, r, g, b] = items_in(value) else {
        return None;
    };
    Some(Item::Solid {
        width: count_in(width)?,
        height: count_in(height)?,
        a: count_in(a)?,
        r: count_in(r)?,
        g: count_in(g)?,
        b: count_in(b)?,
    })
}

/// `[width, height, alpha, red, green, blue]`, or a solid that no rule accepts.
fn solid_in(value: &Value) -> Item
    ensures { result ≡ solid_in (view value.now) }
{
    solid_from(value).unwrap_or(NO_SOLID)
}

/// A whole number from 0 to 2^32-1, or an index that names nothing.
pub(crate) fn index_in(value: &Value) -> u32
    ensures { result ≡ index_in (view value.now) }
{
    count_in(value).unwrap_or(NO_INDEX)
}

/// `{"solid": ..}`, `{"clip": index}` or `{"comp": index}`
pub(crate) fn source_in(value: &Value) -> Item
    ensures { result ≡ source_in (view value.now) }
{
    if let Some(solid) = value.get("solid") {
        solid_in(solid)
    } else if let Some(clip) = value.get("clip") {
        Item::Clip(index_in(clip))
    } else if let Some(comp) = value.get("comp") {
        Item::Comp(index_in(comp))
    } else {
        NO_SOLID
    }
}

/// The kind of this name, which is its place in the set.
fn fx_named(name: &str, schemas: &[EffectSchema]) -> Option<usize>
    ensures named { result ≡ fx_named schemas.now name.now }
    ensures known { IfSome result (λ kind. kind < length schemas.now) }
{
    schemas
        .iter()
        .position(|schema| name == schema.name.as_str())
}

/// The name of an effect of the set.
fn fx_kind_in(value: &Value, schemas: &[EffectSchema]) -> Option<usize>
    ensures named { result ≡ fx_kind_in schemas.now (view value.now) }
    ensures known { IfSome result (λ kind. kind < length schemas.now) }
{
    fx_named(value.as_str()?, schemas)
}

/// The kind of the effect that `effect` names.
pub(crate) fn fx_kind_of(fx: &Value, schemas: &[EffectSchema]) -> Option<usize>
    ensures named { result ≡ fx_kind_of schemas.now (view fx.now) }
    ensures known { IfSome result (λ kind. kind < length schemas.now) }
{
    fx_kind_in(fx.get("effect")?, schemas)
}
