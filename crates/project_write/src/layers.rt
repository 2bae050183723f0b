//! The values of layers.

ghost use Rattle.std.specs.Prelude.{◌≡◌, ◌≤◌, [], ◌∷◌, IfOk, OnOk};
ghost use Rattle.std.specs.List.{All};
ghost use Rattle.serde_json.specs.View.{view, members_view};
ghost use Rattle.project_model.specs.Bounds.{scale_of};
ghost use Rattle.project_model.specs.Effects.{AreSchemas};
ghost use Rattle.project_write.specs.Kinds.{HasKind, HaveKinds};
ghost use Rattle.project_write.specs.Parts.{IsArrayOf, IsItem, IsLayer, WithEnd, object_of};

use crate::effects::each_effect;
use crate::parts::{count_value, counts_value, matte_value, mode_value, time_value};
use crate::streams::stream_value;
use host_io::Memory;
use project_model::{EffectSchema, Item, Layer};
use rational_time::Time;
use serde_json::{Map, Value, put};
use std::alloc::Global;

/// An object of one member.
fn single(alloc: Global, name: &str, value: Value) -> Result<Value, Memory>
    ensures { IfOk result (λ v. view v ≡ object_of ((name.now, view value) ∷ [])) }
{
    let mut members = Map::new(alloc);
    put(&mut members, alloc, name, value)?;
    Ok(Value::from(members))
}

/// What a layer shows.
fn item_value(alloc: Global, item: Item) -> Result<Value, Memory>
    ensures { IfOk result (λ v. IsItem item (view v)) }
{
    match item {
        Item::Solid {
            width,
            height,
            a,
            r,
            g,
            b,
        } => {
            let numbers = counts_value(alloc, &[width, height, a, r, g, b])?;
            single(alloc, "solid", numbers)
        }
        Item::Clip(index) => single(alloc, "clip", count_value(index)),
        Item::Comp(index) => single(alloc, "comp", count_value(index)),
    }
}

/// Adds a layer's end, where it has one.
fn put_end(members: &mut Map<String, Value>, alloc: Global, end: Option<Time>) -> Result<(), Memory>
    requires { 1 ≤ scale_of end }
    ensures { OnOk result (WithEnd end (members_view members.old.entries) (members_view members.new.entries)) }
{
    match end {
        Some(time) => {
            let value = time_value(alloc, time)?;
            Ok(put(members, alloc, "out", value)?)
        }
        None => Ok(()),
    }
}

fn layer_value(alloc: Global, layer: &Layer, schemas: &[EffectSchema]) -> Result<Value, Memory>
    requires schemas { AreSchemas schemas.now }
    requires kinds { All (HasKind schemas.now) layer.now.effects }
    ensures { IfOk result (λ v. IsLayer schemas.now layer.now (view v)) }
{
    let mut members = Map::new(alloc);
    let source = item_value(alloc, layer.source)?;
    put(&mut members, alloc, "source", source)?;
    let start = time_value(alloc, layer.start)?;
    put(&mut members, alloc, "start", start)?;
    let begin = time_value(alloc, layer.in_point)?;
    put(&mut members, alloc, "in", begin)?;
    let mode = mode_value(alloc, layer.mode)?;
    put(&mut members, alloc, "mode", mode)?;
    let matte = matte_value(alloc, layer.matte)?;
    put(&mut members, alloc, "matte", matte)?;
    let opacity = stream_value(alloc, &layer.opacity)?;
    put(&mut members, alloc, "opacity", opacity)?;
    let x = stream_value(alloc, &layer.x)?;
    put(&mut members, alloc, "x", x)?;
    let y = stream_value(alloc, &layer.y)?;
    put(&mut members, alloc, "y", y)?;
    let effects = each_effect(alloc, layer.effects.as_slice(), schemas)?;
    put(&mut members, alloc, "effects", effects)?;
    put_end(&mut members, alloc, layer.out_point)?;
    Ok(Value::from(members))
}

/// The array of these layers.
pub(crate) fn each_layer(
    alloc: Global,
    layers: &[Layer],
    schemas: &[EffectSchema],
) -> Result<Value, Memory>
    requires schemas { AreSchemas schemas.now }
    requires kinds { HaveKinds schemas.now layers.now }
    ensures { IfOk result (λ v. IsArrayOf (IsLayer schemas.now) layers.now (view v)) }
{
    let mut values = Vec::new(alloc);
    for layer in layers {
        values.push(layer_value(alloc, layer, schemas)?)?;
    }
    Ok(Value::from(values))
}
