//! Whether a project in plain parts has the form that it must have before any rule on its numbers.

ghost use Rattle.std.specs.Prelude.{◌≡◌, ◌↔◌, IsTrue, nat_le, length, map, option_to_list};
ghost use Rattle.std.specs.List.{list_all, flat_map};
ghost use Rattle.project_model.specs.Bounds.{is_among, most_clips, most_comps, most_layers_in_all};
ghost use Rattle.project_model.specs.Form.{IsFormed, is_formed, is_key_count, is_formed_fx, is_formed_layer, is_formed_comp, is_scaled, plain_layer_count};
ghost use Rattle.project_model.specs.Times.{key_times, fx_times, layer_times, comp_times, times_of};

use crate::bounds::{
    MOST_CLIPS, MOST_COMPS, MOST_EFFECTS, MOST_KEYS, MOST_LAYERS, MOST_LAYERS_IN_ALL, is_bit_depth,
};
use crate::{ClipUse, PlainComp, PlainFx, PlainLayer, PlainProject};
use param_stream::Keyframe;
use rational_time::Time;

impl PlainProject {
    /// Whether the depth is 8 or 16, each count is one that a project may have, and no scale is 0: what
    /// [`crate::Project::of_plain`] asks for.
    pub fn is_formed(&self) -> bool
        ensures { IsTrue result ↔ IsFormed self.now }
    {
        has_form(self)
    }
}

// The same, as a test of the parts.
fn has_form(project: &PlainProject) -> bool
    ensures { result ≡ is_formed project.now }
{
    let comps = project.comps.as_slice();
    is_bit_depth(project.depth)
        && are_few_clips(project.clips.as_slice())
        && is_comp_count(comps)
        && are_few_layers(comps)
        && are_formed_comps(comps)
        && is_scaled_project(project)
}

// Whether there may be so many clips.
fn are_few_clips(clips: &[ClipUse]) -> bool
    ensures { result ≡ nat_le (length clips.now) most_clips }
{
    clips.len() <= MOST_CLIPS as usize
}

// Whether there may be so many compositions.
fn is_comp_count(comps: &[PlainComp]) -> bool
    ensures { result ≡ is_among 1 most_comps (length comps.now) }
{
    1 <= comps.len() && comps.len() <= MOST_COMPS as usize
}

// Whether there are few enough layers in all.
fn are_few_layers(comps: &[PlainComp]) -> bool
    ensures { result ≡ nat_le (plain_layer_count comps.now) most_layers_in_all }
{
    let mut left = MOST_LAYERS_IN_ALL as usize;
    for comp in comps {
        let count = comp.layers.as_slice().len();
        if count > left {
            return false;
        }
        left -= count;
    }
    true
}

// Whether each composition has counts that it may have.
fn are_formed_comps(comps: &[PlainComp]) -> bool
    ensures { result ≡ list_all is_formed_comp comps.now }
{
    comps.iter().all(|comp| is_formed_comp(comp))
}

// Whether it has.
fn is_formed_comp(comp: &PlainComp) -> bool
    ensures { result ≡ is_formed_comp comp.now }
{
    let layers = comp.layers.as_slice();
    layers.len() <= MOST_LAYERS as usize && are_formed_layers(layers)
}

// Whether each of the layers has.
fn are_formed_layers(layers: &[PlainLayer]) -> bool
    ensures { result ≡ list_all is_formed_layer layers.now }
{
    layers.iter().all(|layer| is_formed_layer(layer))
}

// Whether each stream has as many keyframes as it may.
fn is_formed_layer(layer: &PlainLayer) -> bool
    ensures { result ≡ is_formed_layer layer.now }
{
    is_key_count(layer.opacity.as_slice())
        && is_key_count(layer.x.as_slice())
        && is_key_count(layer.y.as_slice())
        && layer.effects.as_slice().len() <= MOST_EFFECTS as usize
        && are_formed_effects(layer.effects.as_slice())
}

// Whether each parameter of the effects has.
fn are_formed_effects(effects: &[PlainFx]) -> bool
    ensures { result ≡ list_all is_formed_fx effects.now }
{
    effects.iter().all(|fx| is_formed_fx(fx))
}

// Whether each parameter of the effect has.
fn is_formed_fx(fx: &PlainFx) -> bool
    ensures { result ≡ is_formed_fx fx.now }
{
    let params = fx.params.as_slice();
    params.iter().all(|keys| is_key_count(keys.as_slice()))
}

// Whether a stream may have so many keyframes.
fn is_key_count(keys: &[Keyframe]) -> bool
    ensures { result ≡ is_key_count keys.now }
{
    1 <= keys.len() && keys.len() <= MOST_KEYS as usize
}

// Whether no scale of the project's times is 0.
fn is_scaled_project(project: &PlainProject) -> bool
    ensures { result ≡ list_all is_scaled (times_of project.now) }
{
    are_scaled_clips(project.clips.as_slice()) && are_scaled_comps(project.comps.as_slice())
}

// Whether none of the clips' times is.
fn are_scaled_clips(clips: &[ClipUse]) -> bool
    ensures { result ≡ list_all is_scaled (map (λ clip. clip.frame) clips.now) }
{
    clips.iter().all(|clip| 1 <= clip.frame.scale)
}

// Whether none of the compositions' times is.
fn are_scaled_comps(comps: &[PlainComp]) -> bool
    ensures { result ≡ list_all is_scaled (flat_map comp_times comps.now) }
{
    comps.iter().all(|comp| is_scaled_comp(comp))
}

// Whether none of the composition's times is.
fn is_scaled_comp(comp: &PlainComp) -> bool
    ensures { result ≡ list_all is_scaled (comp_times comp.now) }
{
    let layers = comp.layers.as_slice();
    1 <= comp.frame.scale && are_scaled_layers(layers)
}

// Whether none of the layers' times is.
fn are_scaled_layers(layers: &[PlainLayer]) -> bool
    ensures { result ≡ list_all is_scaled (flat_map layer_times layers.now) }
{
    layers.iter().all(|layer| is_scaled_layer(layer))
}

// Whether none of the layer's times is.
fn is_scaled_layer(layer: &PlainLayer) -> bool
    ensures { result ≡ list_all is_scaled (layer_times layer.now) }
{
    1 <= layer.start.scale
        && 1 <= layer.in_point.scale
        && is_scaled_end(layer.out_point)
        && are_scaled(layer.opacity.as_slice())
        && are_scaled(layer.x.as_slice())
        && are_scaled(layer.y.as_slice())
        && are_scaled_effects(layer.effects.as_slice())
}

// Whether none of the effects' times is.
fn are_scaled_effects(effects: &[PlainFx]) -> bool
    ensures { result ≡ list_all is_scaled (flat_map fx_times effects.now) }
{
    effects.iter().all(|fx| is_scaled_fx(fx))
}

// Whether none of the effect's times is.
fn is_scaled_fx(fx: &PlainFx) -> bool
    ensures { result ≡ list_all is_scaled (fx_times fx.now) }
{
    let params = fx.params.as_slice();
    params.iter().all(|keys| are_scaled(keys.as_slice()))
}

// Whether that of the end isn't, where there is one.
fn is_scaled_end(out_point: Option<Time>) -> bool
    ensures { result ≡ list_all is_scaled (option_to_list out_point) }
{
    match out_point {
        Some(time) => 1 <= time.scale,
        None => true,
    }
}

// Whether none of the keyframes' times is.
fn are_scaled(keys: &[Keyframe]) -> bool
    ensures { result ≡ list_all is_scaled (key_times keys.now) }
{
    keys.iter().all(|key| 1 <= key.time.scale)
}
