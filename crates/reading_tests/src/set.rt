//! An effect set to read projects with.
ghost use Rattle.std.specs.Prelude.{◌≡◌, IfOk};
ghost use Rattle.project_model.specs.Effects.{AreSchemas};
ghost use Rattle.reading_tests.specs.Set.{param, effect, offset, displace, palette, alone, same, effect_set};

use host_io::Memory;
use project_model::{Collection, EffectSchema, ParamSchema, Text};
use sequence_data::SeqRule;
use std::alloc::Global;

// No sequence data.
const NO_SEQUENCE: SeqRule = SeqRule {
    unit: 0,
    least: 0,
    most: 0,
};

// From 1 to 256 entries of three bytes.
const ENTRIES: SeqRule = SeqRule {
    unit: 3,
    least: 1,
    most: 256,
};

fn text(alloc: Global, name: &str) -> Result<Text, Memory>
    ensures { IfOk result (λ text. text ≡ name.now) }
{
    Ok(Text::from_string(String::from_str(alloc, name)?))
}

fn param(alloc: Global, name: &str, least: i64, most: i64) -> Result<ParamSchema, Memory>
    ensures { IfOk result (λ schema. schema ≡ param name.now least most) }
{
    Ok(ParamSchema {
        name: text(alloc, name)?,
        least,
        most,
    })
}

// An effect without sequence data.
fn effect(
    alloc: Global,
    name: &str,
    threaded: bool,
    params: Vec<ParamSchema>,
    layers: u32,
) -> Result<EffectSchema, Memory>
    ensures { IfOk result (λ schema. schema ≡ effect name.now threaded params.items layers) }
{
    Ok(EffectSchema {
        name: text(alloc, name)?,
        threaded,
        params: Collection::from_vec(params),
        layers,
        sequence: NO_SEQUENCE,
    })
}

fn offset(alloc: Global) -> Result<EffectSchema, Memory>
    ensures { IfOk result (λ schema. schema ≡ offset) }
{
    let params = vec![in alloc;
        param(alloc, "dx", -32768, 32767)?,
        param(alloc, "dy", -32768, 32767)?,
    ]?;
    effect(alloc, "Offset", true, params, 0)
}

fn displace(alloc: Global) -> Result<EffectSchema, Memory>
    ensures { IfOk result (λ schema. schema ≡ displace) }
{
    let params = vec![in alloc;
        param(alloc, "max x", -1024, 1024)?,
        param(alloc, "max y", -1024, 1024)?,
    ]?;
    effect(alloc, "Displace", true, params, 1)
}

fn palette(alloc: Global) -> Result<EffectSchema, Memory>
    ensures { IfOk result (λ schema. schema ≡ palette) }
{
    Ok(EffectSchema {
        name: text(alloc, "Palette")?,
        threaded: true,
        params: Collection::from_vec(Vec::new(alloc)),
        layers: 0,
        sequence: ENTRIES,
    })
}

fn alone(alloc: Global) -> Result<EffectSchema, Memory>
    ensures { IfOk result (λ schema. schema ≡ alone) }
{
    effect(alloc, "Alone", false, Vec::new(alloc), 0)
}

fn same(alloc: Global) -> Result<EffectSchema, Memory>
    ensures { IfOk result (λ schema. schema ≡ same) }
{
    effect(alloc, "Same", true, Vec::new(alloc), 0)
}

fn schemas(alloc: Global) -> Result<Vec<EffectSchema>, Memory>
    ensures { IfOk result (λ list. list.items ≡ effect_set) }
{
    let mut schemas = Vec::new(alloc);
    schemas.push(offset(alloc)?)?;
    schemas.push(displace(alloc)?)?;
    schemas.push(palette(alloc)?)?;
    schemas.push(alone(alloc)?)?;
    schemas.push(same(alloc)?)?;
    Ok(schemas)
}

/// An effect of two parameters, one with a layer parameter, one with sequence data, one that only one thread may draw, and one
/// that has no parameters.
pub fn effect_set(alloc: Global) -> Result<Vec<EffectSchema>, Memory>
    ensures set { IfOk result (λ list. list.items ≡ effect_set) }
    ensures schemas { IfOk result (λ list. AreSchemas list.items) }
{
    let set = schemas(alloc)?;
    Ok(set)
}
