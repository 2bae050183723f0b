ghost use Rattle.std.specs.Prelude.{◌≡◌, ◌≤◌, pos};
ghost use Rattle.param_stream.specs.Curve.{IsBetween};
ghost use Rattle.project_model.specs.Effects.{use_of};
ghost use Rattle.effect_api.specs.Fits.{IsBased, FitsSchema};
ghost use Rattle.fx_color.specs.Color.{amount_of, number_of};
ghost use Rattle.fx_analysis.specs.Analysis.{levels_schema, deflicker_schema};

use effect_api::{Moment, checkout_param};
use project_model::FxUse;

// The first parameter at the moment.
fn amount(fx: &FxUse, at: Moment) -> u32
    requires based { IsBased fx.now at }
    requires range { IsBetween (pos 0) (pos 4999) (number_of (use_of fx.now) 0 at) }
    ensures { result ≡ amount_of (use_of fx.now) 0 at }
{
    checkout_param(fx, at, 0, at.tick) as u32
}

/// How many 10000ths of the pixels AutoLevels clips: at most 4,999.
pub(crate) fn clip_at(fx: &FxUse, at: Moment) -> u32
    requires based { IsBased fx.now at }
    requires fits { FitsSchema levels_schema (use_of fx.now) }
    ensures value { result ≡ amount_of (use_of fx.now) 0 at }
    ensures within { result ≤ 4999 }
{
    amount(fx, at)
}

/// How many frames before and after Deflicker looks at: at most 4.
pub(crate) fn radius_at(fx: &FxUse, at: Moment) -> u32
    requires based { IsBased fx.now at }
    requires fits { FitsSchema deflicker_schema (use_of fx.now) }
    ensures value { result ≡ amount_of (use_of fx.now) 0 at }
    ensures within { result ≤ 4 }
{
    amount(fx, at)
}
