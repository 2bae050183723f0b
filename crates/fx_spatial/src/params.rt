ghost use Rattle.std.specs.Prelude.{◌≡◌, ◌≤◌, ◌<◌};
ghost use Rattle.project_model.specs.Effects.{use_of};
ghost use Rattle.effect_api.specs.Fits.{IsBased, FitsSchema};
ghost use Rattle.fx_color.specs.Color.{amount_of, number_of};
ghost use Rattle.fx_spatial.specs.Near.{IsFar, IsShare};
ghost use Rattle.fx_spatial.specs.Spatial.{blur_schema, mosaic_schema};

use effect_api::{Moment, checkout_param};
use project_model::FxUse;

/// A parameter at the moment, of Offset.
pub(crate) fn far_number(fx: &FxUse, at: Moment, index: usize) -> i32
    requires based { IsBased fx.now at }
    requires range { IsFar 32768 (number_of (use_of fx.now) index at) }
    ensures { result ≡ number_of (use_of fx.now) index at }
{
    checkout_param(fx, at, index, at.tick) as i32
}

/// A parameter at the moment, of an effect that looks at most 1,024 points away.
pub(crate) fn near_number(fx: &FxUse, at: Moment, index: usize) -> i32
    requires based { IsBased fx.now at }
    requires range { IsFar 1024 (number_of (use_of fx.now) index at) }
    ensures value { result ≡ number_of (use_of fx.now) index at }
    ensures near { IsFar 1024 result }
{
    checkout_param(fx, at, index, at.tick) as i32
}

/// A parameter that is from 0 to 10,000, at the moment.
pub(crate) fn share(fx: &FxUse, at: Moment, index: usize) -> u32
    requires based { IsBased fx.now at }
    requires range { IsShare (number_of (use_of fx.now) index at) }
    ensures value { result ≡ amount_of (use_of fx.now) index at }
    ensures within { result ≤ 10000 }
{
    checkout_param(fx, at, index, at.tick) as u32
}

/// How far a blur reaches: at most 128 points.
pub(crate) fn radius_at(fx: &FxUse, at: Moment) -> u32
    requires based { IsBased fx.now at }
    requires fits { FitsSchema blur_schema (use_of fx.now) }
    ensures value { result ≡ amount_of (use_of fx.now) 0 at }
    ensures within { result ≤ 128 }
{
    share(fx, at, 0)
}

/// How large the blocks of a mosaic are: from 1 to 1,024 points.
pub(crate) fn size_at(fx: &FxUse, at: Moment) -> u32
    requires based { IsBased fx.now at }
    requires fits { FitsSchema mosaic_schema (use_of fx.now) }
    ensures value { result ≡ amount_of (use_of fx.now) 0 at }
    ensures some { 0 < result }
    ensures within { result ≤ 1024 }
{
    share(fx, at, 0)
}
