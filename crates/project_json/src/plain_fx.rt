ghost use Rattle.std.specs.Prelude.{◌≡◌, ◌≤◌, length, map, codes, IfOk, unwrap_or};
ghost use Rattle.std.specs.Result.{result_ok};
ghost use Rattle.hex.specs.Hex.{decode_of};
ghost use Rattle.serde_json.specs.View.{view};
ghost use Rattle.project_json.specs.Reads.{keys_in, index_in, no_kind, bytes_in};
ghost use Rattle.project_json.specs.PlainData.{items_of, fx_kind_of, sequence_of, plain_fx_of};

use crate::parts::items_of;
use crate::plain::keys_in;
use crate::reads::{NO_KIND, fx_kind_of, index_in};
use hex::FromHexError;
use host_io::Memory;
use param_stream::Keyframe;
use project_model::{Collection, EffectSchema, PlainFx};
use serde_json::Value;
use std::alloc::Global;

/// The kind of the effect that `effect` names, the greatest where it names none.
fn kind_of(fx: &Value, schemas: &[EffectSchema]) -> u16
    requires { length schemas.now ≤ 65536 }
    ensures { result ≡ unwrap_or (fx_kind_of schemas.now (view fx.now)) no_kind }
{
    match fx_kind_of(fx, schemas) {
        Some(kind) => kind as u16,
        None => NO_KIND,
    }
}

fn each_param(alloc: Global, params: &[Value]) -> Result<Vec<Collection<Keyframe>>, Memory>
    ensures { IfOk result (λ plain. plain.items ≡ map (λ param. keys_in (view param)) params.now) }
{
    let mut plain = Vec::new(alloc);
    for param in params {
        plain.push(keys_in(alloc, param)?)?;
    }
    Ok(plain)
}

fn each_index(alloc: Global, layers: &[Value]) -> Result<Vec<u32>, Memory>
    ensures { IfOk result (λ plain. plain.items ≡ map (λ layer. index_in (view layer)) layers.now) }
{
    let mut plain = Vec::new(alloc);
    for layer in layers {
        plain.push(index_in(layer))?;
    }
    Ok(plain)
}

/// The bytes of hex text, none where it is not that.
fn decoded(alloc: Global, text: &str) -> Result<Option<Collection<u8>>, Memory>
    ensures { IfOk result (λ bytes. bytes ≡ result_ok (decode_of text.now)) }
{
    match hex::decode(alloc, text) {
        Ok(bytes) => Ok(Some(Collection::from_vec(bytes))),
        Err(FromHexError::OutOfMemory) => Err(Memory),
        Err(_) => Ok(None),
    }
}

fn bytes_in(alloc: Global, value: &Value) -> Result<Option<Collection<u8>>, Memory>
    ensures { IfOk result (λ bytes. bytes ≡ bytes_in (view value.now)) }
{
    match value.as_str() {
        Some(text) => decoded(alloc, text),
        None => Ok(None),
    }
}

/// The bytes of `sequence`, none of them where it is not there.
fn sequence_of(alloc: Global, fx: &Value) -> Result<Option<Collection<u8>>, Memory>
    ensures { IfOk result (λ bytes. bytes ≡ sequence_of (view fx.now)) }
{
    match fx.get("sequence") {
        Some(text) => bytes_in(alloc, text),
        None => Ok(Some(Collection::from_vec(Vec::new(alloc)))),
    }
}

/// The streams of its parameters.
fn params_of(alloc: Global, fx: &Value) -> Result<Collection<Collection<Keyframe>>, Memory>
    ensures { IfOk result (λ params. params ≡ map keys_in (items_of (codes "params") (view fx.now))) }
{
    let params = each_param(alloc, items_of(fx, "params"))?;
    Ok(Collection::from_vec(params))
}

/// The indices of the layers that it names.
fn layers_of(alloc: Global, fx: &Value) -> Result<Collection<u32>, Memory>
    ensures { IfOk result (λ layers. layers ≡ map index_in (items_of (codes "layers") (view fx.now))) }
{
    let layers = each_index(alloc, items_of(fx, "layers"))?;
    Ok(Collection::from_vec(layers))
}

fn plain_fx(alloc: Global, fx: &Value, schemas: &[EffectSchema]) -> Result<PlainFx, Memory>
    requires { length schemas.now ≤ 65536 }
    ensures { IfOk result (λ plain. plain ≡ plain_fx_of schemas.now (view fx.now)) }
{
    Ok(PlainFx {
        kind: kind_of(fx, schemas),
        params: params_of(alloc, fx)?,
        layers: layers_of(alloc, fx)?,
        sequence: sequence_of(alloc, fx)?,
    })
}

/// The plain parts of each of these effects.
pub(crate) fn each_fx(
    alloc: Global,
    effects: &[Value],
    schemas: &[EffectSchema],
) -> Result<Vec<PlainFx>, Memory>
    requires { length schemas.now ≤ 65536 }
    ensures { IfOk result (λ plain. plain.items ≡ map (λ fx. plain_fx_of schemas.now (view fx)) effects.now) }
{
    let mut plain = Vec::new(alloc);
    for fx in effects {
        plain.push(plain_fx(alloc, fx, schemas)?)?;
    }
    Ok(plain)
}
