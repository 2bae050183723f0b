//! The values of clips and compositions.

ghost use Rattle.std.specs.Prelude.{◌≡◌, ◌≤◌, IfOk};
ghost use Rattle.std.specs.List.{All};
ghost use Rattle.serde_json.specs.View.{view};
ghost use Rattle.project_model.specs.Effects.{AreSchemas};
ghost use Rattle.project_write.specs.Kinds.{HaveKinds};
ghost use Rattle.project_write.specs.Parts.{IsArrayOf, IsClip, IsComp};

use crate::layers::each_layer;
use crate::parts::{byte_value, count_value, time_value};
use host_io::Memory;
use project_model::{ClipUse, Comp, EffectSchema};
use serde_json::{Map, Value, put};
use std::alloc::Global;

fn clip_value(alloc: Global, clip: &ClipUse) -> Result<Value, Memory>
    requires { 1 ≤ clip.now.frame.scale }
    ensures { IfOk result (λ v. IsClip clip.now (view v)) }
{
    let mut members = Map::new(alloc);
    let name = Value::try_from_str(alloc, clip.name.as_str())?;
    put(&mut members, alloc, "name", name)?;
    put(&mut members, alloc, "width", count_value(clip.width))?;
    put(&mut members, alloc, "height", count_value(clip.height))?;
    put(&mut members, alloc, "depth", byte_value(clip.depth))?;
    let frame = time_value(alloc, clip.frame)?;
    put(&mut members, alloc, "frame", frame)?;
    put(&mut members, alloc, "frames", count_value(clip.frames))?;
    Ok(Value::from(members))
}

/// The array of these clips.
pub(crate) fn each_clip(alloc: Global, clips: &[ClipUse]) -> Result<Value, Memory>
    requires { All (λ clip. 1 ≤ clip.frame.scale) clips.now }
    ensures { IfOk result (λ v. IsArrayOf IsClip clips.now (view v)) }
{
    let mut values = Vec::new(alloc);
    for clip in clips {
        values.push(clip_value(alloc, clip)?)?;
    }
    Ok(Value::from(values))
}

fn comp_value(alloc: Global, comp: &Comp, schemas: &[EffectSchema]) -> Result<Value, Memory>
    requires schemas { AreSchemas schemas.now }
    requires kinds { HaveKinds schemas.now comp.now.layers }
    ensures { IfOk result (λ v. IsComp schemas.now comp.now (view v)) }
{
    let mut members = Map::new(alloc);
    put(&mut members, alloc, "width", count_value(comp.width))?;
    put(&mut members, alloc, "height", count_value(comp.height))?;
    let frame = time_value(alloc, comp.frame)?;
    put(&mut members, alloc, "frame", frame)?;
    put(&mut members, alloc, "frames", count_value(comp.frames))?;
    let layers = each_layer(alloc, comp.layers.as_slice(), schemas)?;
    put(&mut members, alloc, "layers", layers)?;
    Ok(Value::from(members))
}

/// The array of these compositions.
pub(crate) fn each_comp(
    alloc: Global,
    comps: &[Comp],
    schemas: &[EffectSchema],
) -> Result<Value, Memory>
    requires schemas { AreSchemas schemas.now }
    requires kinds { All (λ comp. HaveKinds schemas.now comp.layers) comps.now }
    ensures { IfOk result (λ v. IsArrayOf (IsComp schemas.now) comps.now (view v)) }
{
    let mut values = Vec::new(alloc);
    for comp in comps {
        values.push(comp_value(alloc, comp, schemas)?)?;
    }
    Ok(Value::from(values))
}
