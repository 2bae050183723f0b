ghost use Rattle.std.specs.Prelude.{◌≡◌, ◌&&◌, [], ◌∷◌, codes, nat_lt, sum_by, length, map, IsTrue};
ghost use Rattle.std.specs.List.{list_all, list_any};
ghost use Rattle.serde_json.specs.Find.{get};
ghost use Rattle.serde_json.specs.View.{view};
ghost use Rattle.project_model.specs.Bounds.{most_layers_in_all};
ghost use Rattle.project_json.specs.Parts.{has_only, has_each, has_exactly, is_there, where_there, is_list_of_objects, is_the_number};
ghost use Rattle.project_json.specs.PlainData.{items_of};
ghost use Rattle.project_json.specs.Counts.{is_in_comps, is_in_layers};
ghost use Rattle.project_json.specs.Shapes.{has_frame, is_stream, is_time, key_has_time, is_source};
ghost use Rattle.project_json.specs.FormRules.{number_of, breaks_project, breaks_comp, breaks_layer_itself, breaks_effect, breaks_layer, layer_names, stream_names, time_names, clip_names, are_clips};

use crate::anywhere::is_anywhere_not_whole;
use crate::effects::{self, has_counts, has_known_kind, is_threaded, may_have_effects};
use crate::parts::{
    has_each, has_exactly, has_only, is_list_of_objects, is_the_number, items_in, items_of,
};
use crate::shapes::{has_frame, is_source, keys_have_times, may_be_stream, may_be_time};
use project_model::EffectSchema;
use serde_json::Value;

/// The most clips of a project.
const MOST_CLIPS: usize = project_model::MOST_CLIPS as usize;

/// The most compositions of a project.
const MOST_COMPS: usize = project_model::MOST_COMPS as usize;

/// The most layers of a composition.
const MOST_LAYERS: usize = project_model::MOST_LAYERS as usize;

/// The most layers of a project.
const MOST_LAYERS_IN_ALL: usize = project_model::MOST_LAYERS_IN_ALL as usize;

/// The rules on a project's form, by their numbers, before any on its numbers. They are this project's own.
#[derive(Clone, Copy, Debug, PartialEq, Eq)]
pub(crate) enum FormRule {
    /// 1: every number, at any depth, is a whole number from -2^63 to 2^63-1, written without fraction or exponent.
    Whole,
    /// 2: the value is an object with no names but `version`, `depth`, `root`, `clips` and `comps`.
    Names,
    /// 3: `version` is 1.
    Version,
    /// 4: `depth` is 8 or 16.
    Depth,
    /// 5: `clips`, where it is there, is an array of at most 64 objects, each with exactly the six names of a clip.
    Clips,
    /// 6: `comps` is an array of 1 to 64 objects, each with exactly its five names.
    Comps,
    /// 7: `layers` of each composition is an array of at most 128 objects, each with `source` and no names but a layer's.
    Layers,
    /// 8: there are at most 1,024 layers in all.
    LayerCount,
    /// 9: `source` is an object with exactly one name: `solid`, `clip` or `comp`.
    Source,
    /// 10: `effects`, where it is there, is an array of at most 8 objects, each with `effect` and no names but an effect's.
    Effects,
    /// 11: `effect` is the name of an effect of the set.
    EffectName,
    /// 12: that effect may be drawn by several threads.
    Threaded,
    /// 13: `params` and an effect's `layers`, where they are there, are arrays of as many members as the schema says, and the
    /// members of `layers` are numbers.
    EffectCounts,
    /// 14: every stream is a number, or an array of 1 to 4,096 keyframes `[number, time, kind]`.
    Streams,
    /// 15: every time is `[value, scale]`, the value from -2147483648 to 2147483647, the scale from 1 to 4294967295.
    Times,
}

impl FormRule {
    /// The rule's number.
    pub(crate) fn number(self) -> u8
        ensures { result ≡ number_of self }
    {
        match self {
            FormRule::Whole => 1,
            FormRule::Names => 2,
            FormRule::Version => 3,
            FormRule::Depth => 4,
            FormRule::Clips => 5,
            FormRule::Comps => 6,
            FormRule::Layers => 7,
            FormRule::LayerCount => 8,
            FormRule::Source => 9,
            FormRule::Effects => 10,
            FormRule::EffectName => 11,
            FormRule::Threaded => 12,
            FormRule::EffectCounts => 13,
            FormRule::Streams => 14,
            FormRule::Times => 15,
        }
    }

    /// What breaks it in the project outside its compositions, its clips included.
    pub(crate) fn is_broken_in_project(self, top: &Value) -> bool
        ensures { result ≡ breaks_project (view top.now) self }
    {
        match self {
            FormRule::Whole => is_anywhere_not_whole(top),
            FormRule::Names => !has_only(top, &["version", "depth", "root", "clips", "comps"]),
            FormRule::Version => !is_number_of(top, "version", 1),
            FormRule::Depth => !is_number_of(top, "depth", 8) && !is_number_of(top, "depth", 16),
            FormRule::Clips => !may_have_clips(top),
            FormRule::Comps => !has_objects(top, "comps", 1, MOST_COMPS),
            FormRule::LayerCount => has_too_many_layers(items_of(top, "comps")),
            FormRule::Times => !clips_have_frames(top),
            _ => false,
        }
    }

    /// What breaks it in a composition outside its layers.
    pub(crate) fn is_broken_in_comp(self, comp: &Value) -> bool
        ensures broken { result ≡ breaks_comp self (view comp.now) }
        ensures looked { IsTrue result → IsTrue (is_in_comps self) }
    {
        match self {
            FormRule::Comps => !has_exactly(
                comp,
                &["width", "height", "frame", "frames", "layers"],
            ),
            FormRule::Layers => !has_objects(comp, "layers", 0, MOST_LAYERS),
            FormRule::Times => !has_frame(comp),
            _ => false,
        }
    }

    /// What breaks it in a layer outside its effects.
    fn is_broken_in_layer_itself(self, layer: &Value) -> bool
        ensures { result ≡ breaks_layer_itself self (view layer.now) }
    {
        match self {
            FormRule::Layers => !has_layer_names(layer),
            FormRule::Source => !has_source(layer),
            FormRule::Effects => !may_have_effects(layer),
            FormRule::Streams => !has_streams(layer),
            FormRule::Times => !has_times(layer),
            _ => false,
        }
    }

    /// What breaks it in an effect of a layer.
    fn is_broken_in_effect(self, fx: &Value, schemas: &[EffectSchema]) -> bool
        ensures { result ≡ breaks_effect schemas.now self (view fx.now) }
    {
        match self {
            FormRule::EffectName => !has_known_kind(fx, schemas),
            FormRule::Threaded => !is_threaded(fx, schemas),
            FormRule::EffectCounts => !has_counts(fx, schemas),
            FormRule::Streams => !effects::has_streams(fx),
            FormRule::Times => !effects::has_key_times(fx),
            _ => false,
        }
    }

    fn is_broken_in_effects(self, effects: &[Value], schemas: &[EffectSchema]) -> bool
        ensures { result ≡ list_any (λ fx. breaks_effect schemas.now self (view fx)) effects.now }
    {
        effects
            .iter()
            .any(|fx| self.is_broken_in_effect(fx, schemas))
    }

    /// What breaks it in a layer.
    pub(crate) fn is_broken_in_layer(self, layer: &Value, schemas: &[EffectSchema]) -> bool
        ensures broken { result ≡ breaks_layer schemas.now self (view layer.now) }
        ensures looked { IsTrue result → IsTrue (is_in_layers self) }
    {
        self.is_broken_in_layer_itself(layer)
            || self.is_broken_in_effects(items_of(layer, "effects"), schemas)
    }
}

/// The member of that name is there, and is this number.
fn is_number_of(value: &Value, name: &str, n: u64) -> bool
    ensures { result ≡ is_there (is_the_number n) (get name.now (view value.now)) }
{
    match value.get(name) {
        Some(number) => is_the_number(number, n),
        None => false,
    }
}

/// The member of that name is there, and is an array of at least and at most so many objects.
fn has_objects(value: &Value, name: &str, least: usize, most: usize) -> bool
    ensures { result ≡ is_there (is_list_of_objects least most) (get name.now (view value.now)) }
{
    match value.get(name) {
        Some(list) => is_list_of_objects(list, least, most),
        None => false,
    }
}

/// An object with exactly the six names of a clip.
fn is_clip(value: &Value) -> bool
    ensures { result ≡ has_exactly clip_names (view value.now) }
{
    let names = ["name", "width", "height", "depth", "frame", "frames"];
    has_exactly(value, &names)
}

fn each_is_clip(items: &[Value]) -> bool
    ensures { result ≡ list_all (λ item. has_exactly clip_names (view item)) items.now }
{
    items.iter().all(|item| is_clip(item))
}

/// An array of at most 64 objects, each with exactly the six names of a clip.
fn are_clips(value: &Value) -> bool
    ensures { result ≡ are_clips (view value.now) }
{
    is_list_of_objects(value, 0, MOST_CLIPS) && each_is_clip(items_in(value))
}

fn may_have_clips(top: &Value) -> bool
    ensures { result ≡ where_there are_clips (get (codes "clips") (view top.now)) }
{
    match top.get("clips") {
        Some(clips) => are_clips(clips),
        None => true,
    }
}

fn have_frames(clips: &[Value]) -> bool
    ensures { result ≡ list_all (λ clip. has_frame (view clip)) clips.now }
{
    clips.iter().all(|clip| has_frame(clip))
}

fn clips_have_frames(top: &Value) -> bool
    ensures { result ≡ list_all has_frame (items_of (codes "clips") (view top.now)) }
{
    have_frames(items_of(top, "clips"))
}

fn has_layer_names(layer: &Value) -> bool
    ensures { result ≡ (has_each (codes "source" ∷ []) (view layer.now) && has_only layer_names (view layer.now)) }
{
    let names = [
        "source", "start", "in", "out", "mode", "matte", "opacity", "x", "y", "effects",
    ];
    has_each(layer, &["source"]) && has_only(layer, &names)
}

fn has_source(layer: &Value) -> bool
    ensures { result ≡ is_there is_source (get (codes "source") (view layer.now)) }
{
    match layer.get("source") {
        Some(source) => is_source(source),
        None => false,
    }
}

fn has_streams(layer: &Value) -> bool
    ensures { result ≡ list_all (λ name. where_there is_stream (get name (view layer.now))) stream_names }
{
    may_be_stream(layer, "opacity") && may_be_stream(layer, "x") && may_be_stream(layer, "y")
}

fn has_times(layer: &Value) -> bool
    ensures { result
        ≡ (list_all (λ name. where_there is_time (get name (view layer.now))) time_names
        && list_all (λ name. list_all key_has_time (items_of name (view layer.now))) stream_names) }
{
    may_be_time(layer, "start")
        && may_be_time(layer, "in")
        && may_be_time(layer, "out")
        && keys_have_times(layer, "opacity")
        && keys_have_times(layer, "x")
        && keys_have_times(layer, "y")
}

/// More than 1,024 layers in all.
fn has_too_many_layers(comps: &[Value]) -> bool
    ensures { result ≡ nat_lt most_layers_in_all (sum_by (λ comp. length (items_of (codes "layers") comp)) (map view comps.now)) }
{
    let mut count = 0;
    for comp in comps {
        count += items_of(comp, "layers").len();
        if count > MOST_LAYERS_IN_ALL {
            return true;
        }
    }
    false
}
