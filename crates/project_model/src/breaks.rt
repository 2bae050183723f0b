//! What breaks a rule, at each kind of place.

ghost use Rattle.std.specs.Prelude.{◌≡◌, ◌≤◌, ◌*◌, length, pos, ◌*ℤ◌, int_lt, option_to_list};
ghost use Rattle.std.specs.List.{list_all, flat_map};
ghost use Rattle.rational_time.specs.Times.{is_near};
ghost use Rattle.project_model.specs.Bounds.{most_effects};
ghost use Rattle.project_model.specs.Times.{key_times, fx_times, layer_times};
ghost use Rattle.project_model.specs.Rules.{breaks_comp, breaks_layer, is_solid, is_clip_of, is_comp_of, has_matte, has_matte_layer, is_within_length, begins_in_time, is_too_long};
ghost use Rattle.project_model.specs.Form.{IsFormed};
ghost use Rattle.project_model.specs.Known.{IsKnown};

use crate::bounds::{
    FULL_OPACITY, GREATEST_POSITION, GREATEST_RANK, LEAST_POSITION, MOST_FRAMES, all_between,
    is_among, is_colour, is_size, most_of,
};
use crate::effect_rules::{are_rising, have_layers, have_params, have_sequences};
use crate::graph::Nesting;
use crate::{EffectSchema, Item, PlainComp, PlainFx, PlainLayer, PlainProject, Rule};
use param_stream::{Keyframe, rises};
use rational_time::{MOST_SECONDS, Time, comes_before, is_near};
use track_matte::Matte;

/// Whether the rule is broken in the composition outside its layers, which has this index.
pub fn breaks_comp(
    project: &PlainProject,
    nesting: &Nesting,
    rule: Rule,
    index: usize,
    comp: &PlainComp,
) -> bool
    requires { IsKnown project.now nesting.now.loops.items nesting.now.ranks.items }
    ensures { result ≡ breaks_comp project.now rule index comp.now }
{
    match rule {
        Rule::Size => !is_size(comp.width, comp.height),
        Rule::Frames => !is_among(1, MOST_FRAMES, comp.frames),
        Rule::FrameValue => comp.frame.value < 1,
        Rule::Near => !is_near(comp.frame),
        Rule::Length => is_too_long(comp),
        Rule::Nesting => nesting.is_loop(index),
        _ => false,
    }
}

/// Whether the rule is broken in the layer of the composition, which has this index in it.
pub fn breaks_layer(
    schemas: &[EffectSchema],
    project: &PlainProject,
    nesting: &Nesting,
    rule: Rule,
    comp: &PlainComp,
    index: usize,
    layer: &PlainLayer,
) -> bool
    requires known { IsKnown project.now nesting.now.loops.items nesting.now.ranks.items }
    requires formed { IsFormed project.now }
    requires few_effects { length layer.now.effects ≤ most_effects }
    ensures { result ≡ breaks_layer schemas.now project.now rule comp.now index layer.now }
{
    match rule {
        Rule::Near => !is_near_layer(layer),
        Rule::Solid => !is_solid(most_of(project.depth), layer.source),
        Rule::ClipSource => !is_clip_of(project.clips.as_slice().len(), layer.source),
        Rule::CompSource => !is_comp_of(project.comps.as_slice().len(), layer.source),
        Rule::Mode => layer.mode.is_none(),
        Rule::Matte => layer.matte.is_none(),
        Rule::MatteLayer => has_matte(layer) && !has_matte_layer(comp, index),
        Rule::Span => !begins_in_time(comp, layer.in_point, layer.out_point),
        Rule::Rising => {
            !(rises(layer.opacity.as_slice())
                && rises(layer.x.as_slice())
                && rises(layer.y.as_slice())
                && are_rising(layer.effects.as_slice()))
        }
        Rule::Range => {
            !(all_between(0, FULL_OPACITY, layer.opacity.as_slice())
                && all_between(LEAST_POSITION, GREATEST_POSITION, layer.x.as_slice())
                && all_between(LEAST_POSITION, GREATEST_POSITION, layer.y.as_slice()))
        }
        Rule::Params => !have_params(schemas, layer.effects.as_slice()),
        Rule::EffectLayers => {
            !have_layers(
                schemas,
                comp.layers.as_slice().len(),
                layer.effects.as_slice(),
            )
        }
        Rule::Sequence => !have_sequences(schemas, layer.effects.as_slice()),
        Rule::Rank => nesting.last_rank(comp.layers.as_slice(), layer) > GREATEST_RANK,
        _ => false,
    }
}

// Whether all frames of the composition together last longer than a time may be from zero.
fn is_too_long(comp: &PlainComp) -> bool
    ensures { result ≡ is_too_long comp.now }
{
    lasts_too_long(comp.frame, comp.frames)
}

/// Whether so many frames of this length last longer than a time may be from zero.
pub fn lasts_too_long(frame: Time, frames: u32) -> bool
    ensures { result ≡ int_lt (pos (MOST_SECONDS * frame.scale)) (frame.value *ℤ pos frames) }
{
    i64::from(MOST_SECONDS) * i64::from(frame.scale) < product(frame.value, frames)
}

// The product of the two.
fn product(value: i32, count: u32) -> i64
    ensures { result ≡ (value *ℤ pos count) }
{
    i64::from(value) * i64::from(count)
}

// Whether each time of the layer is near enough to zero.
fn is_near_layer(layer: &PlainLayer) -> bool
    ensures { result ≡ list_all is_near (layer_times layer.now) }
{
    is_near(layer.start)
        && is_near(layer.in_point)
        && is_near_end(layer.out_point)
        && are_near(layer.opacity.as_slice())
        && are_near(layer.x.as_slice())
        && are_near(layer.y.as_slice())
        && are_near_effects(layer.effects.as_slice())
}

// Whether each time of the effects is.
fn are_near_effects(effects: &[PlainFx]) -> bool
    ensures { result ≡ list_all is_near (flat_map fx_times effects.now) }
{
    effects.iter().all(|fx| is_near_fx(fx))
}

// Whether each time of the effect is.
fn is_near_fx(fx: &PlainFx) -> bool
    ensures { result ≡ list_all is_near (fx_times fx.now) }
{
    let params = fx.params.as_slice();
    params.iter().all(|keys| are_near(keys.as_slice()))
}

// Whether the end is near enough to zero, where there is one.
fn is_near_end(out_point: Option<Time>) -> bool
    ensures { result ≡ list_all is_near (option_to_list out_point) }
{
    match out_point {
        Some(time) => is_near(time),
        None => true,
    }
}

// Whether each keyframe's time is.
fn are_near(keys: &[Keyframe]) -> bool
    ensures { result ≡ list_all is_near (key_times keys.now) }
{
    keys.iter().all(|key| is_near(key.time))
}

// Whether it is a solid that may be.
fn is_solid(most: u32, source: Item) -> bool
    ensures { result ≡ is_solid most source }
{
    match source {
        Item::Solid {
            width,
            height,
            a,
            r,
            g,
            b,
        } => { is_size(width, height) && is_colour(most, a, r, g, b) }
        _ => true,
    }
}

// Whether a clip is one of so many, by its index.
fn is_clip_of(count: usize, source: Item) -> bool
    ensures { result ≡ is_clip_of count source }
{
    match source {
        Item::Clip(index) => (index as usize) < count,
        _ => true,
    }
}

// Whether a nested composition is.
fn is_comp_of(count: usize, source: Item) -> bool
    ensures { result ≡ is_comp_of count source }
{
    match source {
        Item::Comp(index) => (index as usize) < count,
        _ => true,
    }
}

// Whether a layer has a matte other than none.
fn has_matte(layer: &PlainLayer) -> bool
    ensures { result ≡ has_matte layer.now }
{
    match layer.matte {
        Some(matte) => matte != Matte::None,
        None => false,
    }
}

// Whether there is a layer above the one of this index that may serve as its matte.
fn has_matte_layer(comp: &PlainComp, index: usize) -> bool
    ensures { result ≡ has_matte_layer comp.now index }
{
    if index == 0 {
        return false;
    }
    match comp.layers.as_slice().get(index - 1) {
        Some(above) => !has_matte(above),
        None => false,
    }
}

// Whether a layer begins no later than it ends.
fn begins_in_time(comp: &PlainComp, begin: Time, end: Option<Time>) -> bool
    ensures { result ≡ begins_in_time comp.now begin end }
{
    match end {
        Some(end) => !comes_before(end, begin),
        None => is_within_length(begin, comp),
    }
}

// Whether a time is no later than all frames of the composition together last.
fn is_within_length(time: Time, comp: &PlainComp) -> bool
    ensures { result ≡ is_within_length time comp.now }
{
    let begin = i128::from(product(time.value, comp.frame.scale));
    begin <= i128::from(product(comp.frame.value, comp.frames)) * i128::from(time.scale)
}
