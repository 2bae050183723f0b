ghost use Rattle.std.specs.Prelude.{◌≡◌, ◌<◌, IfOk};
ghost use Rattle.project_model.specs.Effects.{schema_of};
ghost use Rattle.fx_color.specs.Color.{color_schemas, invert_schema, threshold_schema, shift_schema, scale_schema, tint_schema, palette_schema};

use effect_api::{NO_SEQUENCE, data_schema, param_schema, plain_schema};
use host_io::Memory;
use project_model::EffectSchema;
use sequence_data::SeqRule;
use std::alloc::Global;

// From 1 to 256 entries of red, green and blue.
const PALETTE: SeqRule = SeqRule {
    unit: 3,
    least: 1,
    most: 256,
};

fn invert_schema(alloc: Global) -> Result<EffectSchema, Memory>
    ensures { IfOk result (λ schema. schema ≡ invert_schema) }
{
    let params = vec![in alloc; param_schema(alloc, "channel", 0, 3)?]?;
    plain_schema(alloc, "Invert", params)
}

fn threshold_schema(alloc: Global) -> Result<EffectSchema, Memory>
    ensures { IfOk result (λ schema. schema ≡ threshold_schema) }
{
    let params = vec![in alloc; param_schema(alloc, "level", 0, 10000)?]?;
    plain_schema(alloc, "Threshold", params)
}

fn shift_schema(alloc: Global) -> Result<EffectSchema, Memory>
    ensures { IfOk result (λ schema. schema ≡ shift_schema) }
{
    let mut params = Vec::new(alloc);
    params.push(param_schema(alloc, "red", 0, 4)?)?;
    params.push(param_schema(alloc, "green", 0, 4)?)?;
    params.push(param_schema(alloc, "blue", 0, 4)?)?;
    plain_schema(alloc, "ChannelShift", params)
}

fn scale_schema(alloc: Global) -> Result<EffectSchema, Memory>
    ensures { IfOk result (λ schema. schema ≡ scale_schema) }
{
    let mut params = Vec::new(alloc);
    params.push(param_schema(alloc, "scale", 0, 40000)?)?;
    params.push(param_schema(alloc, "offset", -10000, 10000)?)?;
    plain_schema(alloc, "ScaleOffset", params)
}

fn tint_schema(alloc: Global) -> Result<EffectSchema, Memory>
    ensures { IfOk result (λ schema. schema ≡ tint_schema) }
{
    let mut params = Vec::new(alloc);
    params.push(param_schema(alloc, "black red", 0, 10000)?)?;
    params.push(param_schema(alloc, "black green", 0, 10000)?)?;
    params.push(param_schema(alloc, "black blue", 0, 10000)?)?;
    params.push(param_schema(alloc, "white red", 0, 10000)?)?;
    params.push(param_schema(alloc, "white green", 0, 10000)?)?;
    params.push(param_schema(alloc, "white blue", 0, 10000)?)?;
    params.push(param_schema(alloc, "amount", 0, 10000)?)?;
    plain_schema(alloc, "Tint", params)
}

fn palette_schema(alloc: Global) -> Result<EffectSchema, Memory>
    ensures { IfOk result (λ schema. schema ≡ palette_schema) }
{
    data_schema(alloc, "PaletteMap", PALETTE)
}

/// The schemas of the colour effects, in the order of their kinds: their names, parameters with ranges, and sequence rules.
pub fn color_schemas(alloc: Global) -> Result<Vec<EffectSchema>, Memory>
    ensures { IfOk result (λ list. list.items ≡ color_schemas) }
{
    let mut schemas = Vec::new(alloc);
    schemas.push(invert_schema(alloc)?)?;
    schemas.push(threshold_schema(alloc)?)?;
    schemas.push(shift_schema(alloc)?)?;
    schemas.push(scale_schema(alloc)?)?;
    schemas.push(tint_schema(alloc)?)?;
    schemas.push(palette_schema(alloc)?)?;
    Ok(schemas)
}

/// Which bytes a kind has: its sequence rule. The kind is a colour effect.
pub fn color_sequence(kind: u16) -> SeqRule
    requires { kind < 6 }
    ensures { result ≡ (schema_of color_schemas kind).sequence }
{
    if kind == 5 { PALETTE } else { NO_SEQUENCE }
}
