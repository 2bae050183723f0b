//! The values of streams.

ghost use Rattle.std.specs.Prelude.{◌≡◌, ◌≤◌, length, IfOk};
ghost use Rattle.std.specs.List.{All};
ghost use Rattle.serde_json.specs.View.{view};
ghost use Rattle.project_model.specs.Bounds.{most_keys};
ghost use Rattle.project_write.specs.Parts.{IsArrayOf, IsKey, IsStream};

use crate::parts::key_value;
use host_io::Memory;
use param_stream::{Keyframe, Stream};
use serde_json::Value;
use std::alloc::Global;

fn each_key(alloc: Global, keys: &[Keyframe]) -> Result<Value, Memory>
    requires { All (λ key. 1 ≤ key.time.scale) keys.now }
    ensures { IfOk result (λ v. IsArrayOf IsKey keys.now (view v)) }
{
    let mut values = Vec::new(alloc);
    for key in keys {
        values.push(key_value(alloc, *key)?)?;
    }
    Ok(Value::from(values))
}

/// The array of a stream's keyframes.
pub(crate) fn stream_value(alloc: Global, stream: &Stream) -> Result<Value, Memory>
    requires { length stream.now.keys ≤ most_keys }
    ensures { IfOk result (λ v. IsStream stream.now.keys (view v)) }
{
    each_key(alloc, stream.keys())
}

/// The array of these streams.
pub(crate) fn each_stream(alloc: Global, streams: &[Stream]) -> Result<Value, Memory>
    requires { All (λ curve. length curve.keys ≤ most_keys) streams.now }
    ensures { IfOk result (λ v. IsArrayOf (λ curve. IsStream curve.keys) streams.now (view v)) }
{
    let mut values = Vec::new(alloc);
    for stream in streams {
        values.push(stream_value(alloc, stream)?)?;
    }
    Ok(Value::from(values))
}
