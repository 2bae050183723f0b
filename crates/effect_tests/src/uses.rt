//! Uses of the stock's effects, whose parameters do not change.
ghost use Rattle.std.specs.Prelude.{◌≡◌, ◌<◌, ◌∷◌, [], pos, length, IfOk};
ghost use Rattle.param_stream.specs.declared.key.Ease.TheVariants.{Hold};
ghost use Rattle.std.specs.List.{All};
ghost use Rattle.sequence_data.specs.Sequence.{Fits};
ghost use Rattle.project_model.specs.Effects.{FitsKind, schema_of, use_of};
ghost use Rattle.fx_stock.specs.Stock.{stock_schemas};
ghost use Rattle.effect_tests.specs.Uses.{IsConstant, AreConstants, AreWithin};

use host_io::Memory;
use param_stream::{Ease, Keyframe, Stream};
use project_model::{Collection, FxUse};
use rational_time::{Time, TimeBase};
use std::alloc::Global;

/// The base of all ticks here.
pub const BASE: TimeBase = TimeBase { ticks: 24 };

// The one keyframe of a value.
fn key(alloc: Global, value: i32) -> Result<Vec<Keyframe>, Memory>
    ensures { IfOk result (λ keys. keys.items ≡ record { time = record { value = pos 0; scale = 1 }; value = value; kind = Hold } ∷ []) }
{
    let mut keys = Vec::new(alloc);
    keys.push(Keyframe {
        time: Time { value: 0, scale: 1 },
        value: value as i64,
        kind: Ease::Hold,
    })?;
    Ok(keys)
}

/// One value at all times.
pub fn constant(alloc: Global, value: i32) -> Result<Stream, Memory>
    ensures { IfOk result (IsConstant value) }
{
    let keys = key(alloc, value)?;
    match Stream::new(alloc, BASE, keys, value as i64, value as i64) {
        Ok(stream) => Ok(stream),
        Err(_) => Err(Memory),
    }
}

/// A stream for each value.
pub(crate) fn constants(alloc: Global, values: &[i32]) -> Result<Vec<Stream>, Memory>
    ensures { IfOk result (λ streams. AreConstants values.now streams.items) }
{
    let mut streams = Vec::new(alloc);
    for value in values {
        streams.push(constant(alloc, *value)?)?;
    }
    Ok(streams)
}

/// A use of a kind with these values and bytes, which its schema takes. The kind has no layer parameters.
pub fn steady(alloc: Global, kind: u16, values: &[i32], bytes: &[u8]) -> Result<FxUse, Memory>
    requires kind { kind < length stock_schemas }
    requires values { AreWithin (schema_of stock_schemas kind).params values.now }
    requires layers { (schema_of stock_schemas kind).layers ≡ 0 }
    requires bytes { Fits (schema_of stock_schemas kind).sequence (length bytes.now) }
    ensures kind { IfOk result (λ fx. fx.kind ≡ kind) }
    ensures fits { IfOk result (λ fx. FitsKind stock_schemas (use_of fx)) }
    ensures based { IfOk result (λ fx. All (λ curve. curve.base ≡ 24) fx.params) }
{
    let params = Collection::from_vec(constants(alloc, values)?);
    Ok(FxUse {
        kind,
        params,
        layers: Collection::from_vec(Vec::new(alloc)),
        sequence: Collection::from_vec(Vec::from_slice(alloc, bytes)?),
    })
}
