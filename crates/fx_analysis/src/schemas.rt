ghost use Rattle.std.specs.Prelude.{◌≡◌, ◌<◌, map, string_bytes, IfOk};
ghost use Rattle.fx_analysis.specs.Analysis.{analysis_schemas, analysis_class_names, kind_of, levels_schema, equalize_schema, deflicker_schema};

use crate::kind::AnalysisKind;
use effect_api::{param_schema, plain_schema};
use host_io::Memory;
use project_model::EffectSchema;
use std::alloc::Global;

fn levels_schema(alloc: Global) -> Result<EffectSchema, Memory>
    ensures { IfOk result (λ schema. schema ≡ levels_schema) }
{
    let params = vec![in alloc; param_schema(alloc, "clip", 0, 4999)?]?;
    plain_schema(alloc, "AutoLevels", params)
}

fn equalize_schema(alloc: Global) -> Result<EffectSchema, Memory>
    ensures { IfOk result (λ schema. schema ≡ equalize_schema) }
{
    plain_schema(alloc, "Equalize", Vec::new(alloc))
}

fn deflicker_schema(alloc: Global) -> Result<EffectSchema, Memory>
    ensures { IfOk result (λ schema. schema ≡ deflicker_schema) }
{
    let params = vec![in alloc; param_schema(alloc, "radius", 0, 4)?]?;
    plain_schema(alloc, "Deflicker", params)
}

/// The schemas of the effects that draw from an analysis, in the order of their kinds.
pub fn analysis_schemas(alloc: Global) -> Result<Vec<EffectSchema>, Memory>
    ensures { IfOk result (λ list. list.items ≡ analysis_schemas) }
{
    let mut schemas = Vec::new(alloc);
    schemas.push(levels_schema(alloc)?)?;
    schemas.push(equalize_schema(alloc)?)?;
    schemas.push(deflicker_schema(alloc)?)?;
    Ok(schemas)
}

/// The names of the classes: `histogram` is class 1 and `light` class 2.
pub fn analysis_class_names(alloc: Global) -> Result<Vec<String>, Memory>
    ensures { IfOk result (λ names. map string_bytes names.items ≡ analysis_class_names) }
{
    let mut names = Vec::new(alloc);
    names.push(String::from_str(alloc, "histogram")?)?;
    names.push(String::from_str(alloc, "light")?)?;
    Ok(names)
}

/// The kind with a number, from 0 to 2.
pub fn analysis_kind(number: u16) -> AnalysisKind
    requires { number < 3 }
    ensures { result ≡ kind_of number }
{
    match number {
        0 => AnalysisKind::AutoLevels,
        1 => AnalysisKind::Equalize,
        2 => AnalysisKind::Deflicker,
        _ => unreachable!(),
    }
}
