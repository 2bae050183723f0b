ghost use Rattle.std.specs.Prelude.{◌≡◌, ◌<◌, IfOk};
ghost use Rattle.fx_time.specs.Time.{time_schemas, kind_of, echo_schema, posterize_schema, difference_schema, mean_schema};

use crate::kind::TimeKind;
use effect_api::{param_schema, plain_schema};
use host_io::Memory;
use project_model::EffectSchema;
use std::alloc::Global;

fn echo_schema(alloc: Global) -> Result<EffectSchema, Memory>
    ensures { IfOk result (λ schema. schema ≡ echo_schema) }
{
    let mut params = Vec::new(alloc);
    params.push(param_schema(alloc, "count", 1, 8)?)?;
    params.push(param_schema(alloc, "delay", 1, 100)?)?;
    params.push(param_schema(alloc, "strength", 0, 10000)?)?;
    plain_schema(alloc, "Echo", params)
}

fn posterize_schema(alloc: Global) -> Result<EffectSchema, Memory>
    ensures { IfOk result (λ schema. schema ≡ posterize_schema) }
{
    let params = vec![in alloc; param_schema(alloc, "step", 1, 1000)?]?;
    plain_schema(alloc, "PosterizeTime", params)
}

fn difference_schema(alloc: Global) -> Result<EffectSchema, Memory>
    ensures { IfOk result (λ schema. schema ≡ difference_schema) }
{
    let params = vec![in alloc; param_schema(alloc, "gap", 1, 100)?]?;
    plain_schema(alloc, "FrameDifference", params)
}

fn mean_schema(alloc: Global) -> Result<EffectSchema, Memory>
    ensures { IfOk result (λ schema. schema ≡ mean_schema) }
{
    let params = vec![in alloc; param_schema(alloc, "radius", 0, 4)?]?;
    plain_schema(alloc, "TimeMean", params)
}

/// The schemas of the effects of time, in the order of their kinds: their names, and parameters with ranges. Delay, step, gap
/// and radius count frames of the composition; strength is in 1/10000.
pub fn time_schemas(alloc: Global) -> Result<Vec<EffectSchema>, Memory>
    ensures { IfOk result (λ list. list.items ≡ time_schemas) }
{
    let mut schemas = Vec::new(alloc);
    schemas.push(echo_schema(alloc)?)?;
    schemas.push(posterize_schema(alloc)?)?;
    schemas.push(difference_schema(alloc)?)?;
    schemas.push(mean_schema(alloc)?)?;
    Ok(schemas)
}

/// The kind with a number, from 0 to 3.
pub fn time_kind(number: u16) -> TimeKind
    requires { number < 4 }
    ensures { result ≡ kind_of number }
{
    match number {
        0 => TimeKind::Echo,
        1 => TimeKind::PosterizeTime,
        2 => TimeKind::FrameDifference,
        3 => TimeKind::TimeMean,
        _ => unreachable!(),
    }
}
