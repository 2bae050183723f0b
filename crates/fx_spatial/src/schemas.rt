ghost use Rattle.std.specs.Prelude.{◌≡◌, ◌<◌, IfOk};
ghost use Rattle.fx_spatial.specs.Spatial.{spatial_schemas, kind_of, offset_schema, blur_schema, mosaic_schema, shadow_schema, displace_schema};

use crate::kind::SpatialKind;
use effect_api::{param_schema, plain_schema};
use host_io::Memory;
use project_model::EffectSchema;
use std::alloc::Global;

fn offset_schema(alloc: Global) -> Result<EffectSchema, Memory>
    ensures { IfOk result (λ schema. schema ≡ offset_schema) }
{
    let mut params = Vec::new(alloc);
    params.push(param_schema(alloc, "dx", -32768, 32767)?)?;
    params.push(param_schema(alloc, "dy", -32768, 32767)?)?;
    plain_schema(alloc, "Offset", params)
}

fn blur_schema(alloc: Global) -> Result<EffectSchema, Memory>
    ensures { IfOk result (λ schema. schema ≡ blur_schema) }
{
    let params = vec![in alloc; param_schema(alloc, "radius", 0, 128)?]?;
    plain_schema(alloc, "BoxBlur", params)
}

fn mosaic_schema(alloc: Global) -> Result<EffectSchema, Memory>
    ensures { IfOk result (λ schema. schema ≡ mosaic_schema) }
{
    let params = vec![in alloc; param_schema(alloc, "size", 1, 1024)?]?;
    plain_schema(alloc, "Mosaic", params)
}

fn shadow_schema(alloc: Global) -> Result<EffectSchema, Memory>
    ensures { IfOk result (λ schema. schema ≡ shadow_schema) }
{
    let mut params = Vec::new(alloc);
    params.push(param_schema(alloc, "dx", -1024, 1024)?)?;
    params.push(param_schema(alloc, "dy", -1024, 1024)?)?;
    params.push(param_schema(alloc, "opacity", 0, 10000)?)?;
    params.push(param_schema(alloc, "red", 0, 10000)?)?;
    params.push(param_schema(alloc, "green", 0, 10000)?)?;
    params.push(param_schema(alloc, "blue", 0, 10000)?)?;
    plain_schema(alloc, "DropShadow", params)
}

fn displace_schema(alloc: Global) -> Result<EffectSchema, Memory>
    ensures { IfOk result (λ schema. schema ≡ displace_schema) }
{
    let mut params = Vec::new(alloc);
    params.push(param_schema(alloc, "max x", -1024, 1024)?)?;
    params.push(param_schema(alloc, "max y", -1024, 1024)?)?;
    let mut schema = plain_schema(alloc, "Displace", params)?;
    schema.layers = 1;
    Ok(schema)
}

/// The schemas of the spatial effects, in the order of their kinds. Displace has one layer parameter, the map.
pub fn spatial_schemas(alloc: Global) -> Result<Vec<EffectSchema>, Memory>
    ensures { IfOk result (λ list. list.items ≡ spatial_schemas) }
{
    let mut schemas = Vec::new(alloc);
    schemas.push(offset_schema(alloc)?)?;
    schemas.push(blur_schema(alloc)?)?;
    schemas.push(mosaic_schema(alloc)?)?;
    schemas.push(shadow_schema(alloc)?)?;
    schemas.push(displace_schema(alloc)?)?;
    Ok(schemas)
}

/// The kind with a number, from 0 to 4.
pub fn spatial_kind(number: u16) -> SpatialKind
    requires { number < 5 }
    ensures { result ≡ kind_of number }
{
    match number {
        0 => SpatialKind::Offset,
        1 => SpatialKind::BoxBlur,
        2 => SpatialKind::Mosaic,
        3 => SpatialKind::DropShadow,
        4 => SpatialKind::Displace,
        _ => unreachable!(),
    }
}
