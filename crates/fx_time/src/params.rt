ghost use Rattle.std.specs.Prelude.{◌≡◌, ◌<◌, ◌≤◌, pos};
ghost use Rattle.geom_rect.specs.Rect.{positive_part};
ghost use Rattle.param_stream.specs.Curve.{IsBetween};
ghost use Rattle.project_model.specs.Effects.{use_of};
ghost use Rattle.effect_api.specs.Fits.{IsBased, FitsSchema, value_of};
ghost use Rattle.fx_color.specs.Color.{amount_of};
ghost use Rattle.fx_time.specs.Time.{echo_schema, posterize_schema, difference_schema, mean_schema};

use effect_api::{Moment, checkout_param};
use project_model::FxUse;
use rational_time::Tick;

// A parameter that is from 0 to 10,000, at a tick.
fn amount(fx: &FxUse, at: Moment, index: usize, tick: Tick) -> u32
    requires based { IsBased fx.now at }
    requires range { IsBetween (pos 0) (pos 10000) (value_of at.base.ticks (use_of fx.now) index tick.0) }
    ensures { result ≡ positive_part (value_of at.base.ticks (use_of fx.now) index tick.0) }
{
    checkout_param(fx, at, index, tick) as u32
}

/// How many echoes there are.
pub(crate) fn count_at(fx: &FxUse, at: Moment) -> u32
    requires based { IsBased fx.now at }
    requires fits { FitsSchema echo_schema (use_of fx.now) }
    ensures value { result ≡ amount_of (use_of fx.now) 0 at }
    ensures within { result ≤ 8 }
{
    amount(fx, at, 0, at.tick)
}

/// How many frames two echoes are apart.
pub(crate) fn delay_at(fx: &FxUse, at: Moment) -> u32
    requires based { IsBased fx.now at }
    requires fits { FitsSchema echo_schema (use_of fx.now) }
    ensures value { result ≡ amount_of (use_of fx.now) 1 at }
    ensures within { result ≤ 100 }
{
    amount(fx, at, 1, at.tick)
}

/// How strong echoes are at a tick, in 1/10000.
pub(crate) fn strength_at(fx: &FxUse, at: Moment, tick: Tick) -> u32
    requires based { IsBased fx.now at }
    requires fits { FitsSchema echo_schema (use_of fx.now) }
    ensures value { result ≡ positive_part (value_of at.base.ticks (use_of fx.now) 2 tick.0) }
    ensures part { result ≤ 10000 }
{
    amount(fx, at, 2, tick)
}

/// How many frames show the same picture.
pub(crate) fn step_at(fx: &FxUse, at: Moment) -> u32
    requires based { IsBased fx.now at }
    requires fits { FitsSchema posterize_schema (use_of fx.now) }
    ensures value { result ≡ amount_of (use_of fx.now) 0 at }
    ensures some { 0 < result }
{
    amount(fx, at, 0, at.tick)
}

/// How many frames the two pictures of a difference are apart.
pub(crate) fn gap_at(fx: &FxUse, at: Moment) -> u32
    requires based { IsBased fx.now at }
    requires fits { FitsSchema difference_schema (use_of fx.now) }
    ensures value { result ≡ amount_of (use_of fx.now) 0 at }
    ensures within { result ≤ 100 }
{
    amount(fx, at, 0, at.tick)
}

/// How many frames before and after the moment a mean has.
pub(crate) fn radius_at(fx: &FxUse, at: Moment) -> u32
    requires based { IsBased fx.now at }
    requires fits { FitsSchema mean_schema (use_of fx.now) }
    ensures value { result ≡ amount_of (use_of fx.now) 0 at }
    ensures within { result ≤ 4 }
{
    amount(fx, at, 0, at.tick)
}
