ghost use Rattle.std.specs.Prelude.{◌≡◌, List, slice_get};
ghost use Rattle.std.specs.Option.{option_copied};
ghost use Rattle.param_stream.specs.Curve.{IsBetween, value_at};
ghost use Rattle.project_model.specs.declared.effect.ParamSchema.{ParamSchema};
ghost use Rattle.project_model.specs.Effects.{use_of, AreInRange};
ghost use Rattle.effect_api.specs.Fits.{IsBased, param_of, value_of};

use crate::moment::Moment;
use param_stream::Stream;
use project_model::FxUse;
use rational_time::Tick;

/// The value of a parameter at a tick, which may be another than that of the moment: the SDK's PF_CHECKOUT_PARAM. Where the
/// use fits a schema it is in the range that the schema gives. It is 0 where there is no such parameter.
pub fn checkout_param(fx: &FxUse, at: Moment, index: usize, tick: Tick) -> i64
    requires { IsBased fx.now at }
    ensures value { result ≡ value_of at.base.ticks (use_of fx.now) index tick.0 }
    ensures within { (params : List ParamSchema) → AreInRange params (use_of fx.now).params
        → IsBetween (param_of params index).least (param_of params index).most result }
{
    match stream_at(fx, index) {
        Some(stream) => value_at(stream, tick),
        None => 0,
    }
}

// The stream of a parameter.
fn stream_at(fx: &FxUse, index: usize) -> Option<&Stream>
    ensures { option_copied result ≡ slice_get fx.now.params index }
{
    fx.params.as_slice().get(index)
}

// The value of a stream at a tick.
fn value_at(stream: &Stream, tick: Tick) -> i64
    ensures { result ≡ value_at stream.now.base stream.now.keys tick.0 }
{
    let _keys = stream.keys();
    stream.at(tick)
}
