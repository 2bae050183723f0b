//! The values of uses of effects.

ghost use Rattle.std.specs.Prelude.{◌≡◌, ◌≤◌, length, IfOk};
ghost use Rattle.std.specs.List.{All};
ghost use Rattle.serde_json.specs.View.{view};
ghost use Rattle.project_model.specs.Bounds.{most_keys};
ghost use Rattle.project_model.specs.Effects.{AreSchemas};
ghost use Rattle.project_write.specs.Kinds.{HasKind};
ghost use Rattle.project_write.specs.Parts.{IsArrayOf, IsCount, IsFx};

use crate::names::effect_name;
use crate::parts::{counts_value, hex_value};
use crate::streams::each_stream;
use host_io::Memory;
use project_model::{EffectSchema, FxUse};
use serde_json::{Map, Value, put};
use std::alloc::Global;

fn effect_value(alloc: Global, fx: &FxUse, schemas: &[EffectSchema]) -> Result<Value, Memory>
    requires schemas { AreSchemas schemas.now }
    requires kind { HasKind schemas.now fx.now }
    requires few { All (λ curve. length curve.keys ≤ most_keys) fx.now.params }
    ensures { IfOk result (λ v. IsFx schemas.now fx.now (view v)) }
{
    let name = Value::try_from_str(alloc, effect_name(schemas, fx.kind))?;
    let mut members = Map::new(alloc);
    put(&mut members, alloc, "effect", name)?;
    let params = each_stream(alloc, fx.params.as_slice())?;
    put(&mut members, alloc, "params", params)?;
    let layers = counts_value(alloc, fx.layers.as_slice())?;
    put(&mut members, alloc, "layers", layers)?;
    let sequence = hex_value(alloc, fx.sequence.as_slice())?;
    put(&mut members, alloc, "sequence", sequence)?;
    Ok(Value::from(members))
}

/// The array of these effects.
pub(crate) fn each_effect(
    alloc: Global,
    effects: &[FxUse],
    schemas: &[EffectSchema],
) -> Result<Value, Memory>
    requires schemas { AreSchemas schemas.now }
    requires kinds { All (HasKind schemas.now) effects.now }
    requires few { All (λ fx. All (λ curve. length curve.keys ≤ most_keys) fx.params) effects.now }
    ensures { IfOk result (λ v. IsArrayOf (IsFx schemas.now) effects.now (view v)) }
{
    let mut values = Vec::new(alloc);
    for fx in effects {
        values.push(effect_value(alloc, fx, schemas)?)?;
    }
    Ok(Value::from(values))
}
