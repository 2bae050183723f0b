//! The values of numbers, times, names and bytes.

ghost use Rattle.std.specs.Prelude.{◌≡◌, ◌≤◌, IfOk};
ghost use Rattle.serde_json.specs.View.{view};
ghost use Rattle.project_write.specs.Parts.{IsArrayOf, IsCount, IsByte, IsTime, IsKey, IsMode, IsMatte, IsHex};

use crate::arrays::{pair, triple};
use crate::names::{kind_name, matte_name, mode_name};
use host_io::Memory;
use param_stream::Keyframe;
use rational_time::Time;
use serde_json::Value;
use std::alloc::Global;
use track_matte::Matte;
use transfer_mode::Mode;

/// A number of at most 32 bits.
pub(crate) fn count_value(count: u32) -> Value
    ensures { IsCount count (view result) }
{
    Value::from(count)
}

/// The array of these numbers.
pub(crate) fn counts_value(alloc: Global, counts: &[u32]) -> Result<Value, Memory>
    ensures { IfOk result (λ v. IsArrayOf IsCount counts.now (view v)) }
{
    let mut values = Vec::new(alloc);
    for count in counts {
        values.push(count_value(*count))?;
    }
    Ok(Value::from(values))
}

/// A number of at most 8 bits.
pub(crate) fn byte_value(byte: u8) -> Value
    ensures byte { IsByte byte (view result) }
    ensures count { IsCount byte (view result) }
{
    Value::from(byte)
}

/// `[value, scale]`
pub(crate) fn time_value(alloc: Global, time: Time) -> Result<Value, Memory>
    requires { 1 ≤ time.scale }
    ensures { IfOk result (λ v. IsTime time (view v)) }
{
    pair(alloc, Value::from(time.value), Value::from(time.scale))
}

/// `[value, time, kind]`
pub(crate) fn key_value(alloc: Global, key: Keyframe) -> Result<Value, Memory>
    requires { 1 ≤ key.time.scale }
    ensures { IfOk result (λ v. IsKey key (view v)) }
{
    let time = time_value(alloc, key.time)?;
    let kind = Value::try_from_str(alloc, kind_name(key.kind))?;
    triple(alloc, Value::from(key.value), time, kind)
}

/// The name of a mode.
pub(crate) fn mode_value(alloc: Global, mode: Mode) -> Result<Value, Memory>
    ensures { IfOk result (λ v. IsMode mode (view v)) }
{
    Ok(Value::try_from_str(alloc, mode_name(mode))?)
}

/// The name of a matte.
pub(crate) fn matte_value(alloc: Global, matte: Matte) -> Result<Value, Memory>
    ensures { IfOk result (λ v. IsMatte matte (view v)) }
{
    Ok(Value::try_from_str(alloc, matte_name(matte))?)
}

/// Hex text of these bytes.
pub(crate) fn hex_value(alloc: Global, bytes: &[u8]) -> Result<Value, Memory>
    ensures { IfOk result (λ v. IsHex bytes.now (view v)) }
{
    Ok(Value::from(hex::encode(alloc, bytes)?))
}
