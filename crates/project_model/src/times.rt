//! All times that a project writes, in order.

ghost use Rattle.std.specs.Prelude.{◌≡◌, ◌++◌, map, flat_map, IfOk, OnOk};
ghost use Rattle.project_model.specs.Times.{key_times, fx_times, layer_times, comp_times, times_of};

use crate::{ClipUse, Collection, PlainComp, PlainFx, PlainLayer, PlainProject};
use param_stream::Keyframe;
use rational_time::Time;
use std::alloc::{AllocError, Global};

/// All times of the project, in order.
pub fn times_of(alloc: Global, project: &PlainProject) -> Result<Vec<Time>, AllocError>
    ensures { IfOk result (λ times. times.items ≡ times_of project.now) }
{
    let mut times = Vec::new(alloc);
    push_clips(&mut times, project.clips.as_slice())?;
    push_comps(&mut times, project.comps.as_slice())?;
    Ok(times)
}

// Those of the clips behind the others.
fn push_clips(times: &mut Vec<Time>, clips: &[ClipUse]) -> Result<(), AllocError>
    ensures { OnOk result (times.new.items ≡ times.old.items ++ map (λ clip. clip.frame) clips.now) }
{
    for clip in clips {
        times.push(clip.frame)?;
    }
    Ok(())
}

// Those of the compositions.
fn push_comps(times: &mut Vec<Time>, comps: &[PlainComp]) -> Result<(), AllocError>
    ensures { OnOk result (times.new.items ≡ times.old.items ++ flat_map comp_times comps.now) }
{
    for comp in comps {
        push_comp(times, comp)?;
    }
    Ok(())
}

// Those of the composition.
fn push_comp(times: &mut Vec<Time>, comp: &PlainComp) -> Result<(), AllocError>
    ensures { OnOk result (times.new.items ≡ times.old.items ++ comp_times comp.now) }
{
    times.push(comp.frame)?;
    for layer in comp.layers.as_slice() {
        push_layer(times, layer)?;
    }
    Ok(())
}

// Those of the layer.
fn push_layer(times: &mut Vec<Time>, layer: &PlainLayer) -> Result<(), AllocError>
    ensures { OnOk result (times.new.items ≡ times.old.items ++ layer_times layer.now) }
{
    times.push(layer.start)?;
    times.push(layer.in_point)?;
    if let Some(out_point) = layer.out_point {
        times.push(out_point)?;
    }
    push_keys(times, layer.opacity.as_slice())?;
    push_keys(times, layer.x.as_slice())?;
    push_keys(times, layer.y.as_slice())?;
    push_effects(times, layer.effects.as_slice())
}

// Those of the effects.
fn push_effects(times: &mut Vec<Time>, effects: &[PlainFx]) -> Result<(), AllocError>
    ensures { OnOk result (times.new.items ≡ times.old.items ++ flat_map fx_times effects.now) }
{
    for fx in effects {
        push_params(times, fx.params.as_slice())?;
    }
    Ok(())
}

// Those of an effect's parameters.
fn push_params(times: &mut Vec<Time>, params: &[Collection<Keyframe>]) -> Result<(), AllocError>
    ensures { OnOk result (times.new.items ≡ times.old.items ++ flat_map key_times params.now) }
{
    for keys in params {
        push_keys(times, keys.as_slice())?;
    }
    Ok(())
}

// Those of the keyframes.
fn push_keys(times: &mut Vec<Time>, keys: &[Keyframe]) -> Result<(), AllocError>
    ensures { OnOk result (times.new.items ≡ times.old.items ++ key_times keys.now) }
{
    for key in keys {
        times.push(key.time)?;
    }
    Ok(())
}
