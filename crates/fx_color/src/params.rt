ghost use Rattle.std.specs.Prelude.{◌≡◌, pos, neg_ℤ};
ghost use Rattle.param_stream.specs.Curve.{IsBetween};
ghost use Rattle.project_model.specs.Effects.{use_of};
ghost use Rattle.effect_api.specs.Fits.{IsBased, FitsSchema};
ghost use Rattle.fx_color.specs.Color.{amount_of, number_of, invert_schema, threshold_schema, shift_schema, scale_schema, tint_schema, palette_schema, recoloured};
ghost use Rattle.fx_color.specs.Formulas.{tinted_by};

use crate::formulas::{ChannelShift, Invert, Threshold};
use crate::palette::PaletteMap;
use crate::scale_offset::ScaleOffset;
use crate::tint::{Ends, Tint};
use effect_api::{Moment, checkout_param};
use project_model::FxUse;

// A parameter at the moment.
fn number(fx: &FxUse, at: Moment, index: usize) -> i32
    requires based { IsBased fx.now at }
    requires range { IsBetween (neg_ℤ (pos 40000)) (pos 40000) (number_of (use_of fx.now) index at) }
    ensures { result ≡ number_of (use_of fx.now) index at }
{
    checkout_param(fx, at, index, at.tick) as i32
}

// A parameter that is not negative.
fn amount(fx: &FxUse, at: Moment, index: usize) -> u32
    requires based { IsBased fx.now at }
    requires range { IsBetween (pos 0) (pos 40000) (number_of (use_of fx.now) index at) }
    ensures { result ≡ amount_of (use_of fx.now) index at }
{
    checkout_param(fx, at, index, at.tick) as u32
}

// What the uses say.
pub(crate) fn invert_of(fx: &FxUse, at: Moment) -> Invert
    requires based { IsBased fx.now at }
    requires fits { FitsSchema invert_schema (use_of fx.now) }
    ensures { result.channel ≡ amount_of (use_of fx.now) 0 at }
{
    Invert {
        channel: amount(fx, at, 0),
    }
}

pub(crate) fn threshold_of(fx: &FxUse, at: Moment) -> Threshold
    requires based { IsBased fx.now at }
    requires fits { FitsSchema threshold_schema (use_of fx.now) }
    ensures { result.level ≡ amount_of (use_of fx.now) 0 at }
{
    Threshold {
        level: amount(fx, at, 0),
    }
}

pub(crate) fn shift_of(fx: &FxUse, at: Moment) -> ChannelShift
    requires based { IsBased fx.now at }
    requires fits { FitsSchema shift_schema (use_of fx.now) }
    ensures red { result.red ≡ amount_of (use_of fx.now) 0 at }
    ensures green { result.green ≡ amount_of (use_of fx.now) 1 at }
    ensures blue { result.blue ≡ amount_of (use_of fx.now) 2 at }
{
    ChannelShift {
        red: amount(fx, at, 0),
        green: amount(fx, at, 1),
        blue: amount(fx, at, 2),
    }
}

pub(crate) fn scale_of(fx: &FxUse, at: Moment) -> ScaleOffset
    requires based { IsBased fx.now at }
    requires fits { FitsSchema scale_schema (use_of fx.now) }
    ensures scale { result.scale ≡ number_of (use_of fx.now) 0 at }
    ensures offset { result.offset ≡ number_of (use_of fx.now) 1 at }
{
    ScaleOffset {
        scale: number(fx, at, 0),
        offset: number(fx, at, 1),
    }
}

// A colour of a tint: what black and white become, by the places of their parameters.
fn ends(fx: &FxUse, at: Moment, black: usize, white: usize) -> Ends
    requires based { IsBased fx.now at }
    requires black { IsBetween (pos 0) (pos 10000) (number_of (use_of fx.now) black at) }
    requires white { IsBetween (pos 0) (pos 10000) (number_of (use_of fx.now) white at) }
    ensures black { result.black ≡ amount_of (use_of fx.now) black at }
    ensures white { result.white ≡ amount_of (use_of fx.now) white at }
{
    Ends {
        black: amount(fx, at, black),
        white: amount(fx, at, white),
    }
}

pub(crate) fn tint_of(fx: &FxUse, at: Moment) -> Tint
    requires based { IsBased fx.now at }
    requires fits { FitsSchema tint_schema (use_of fx.now) }
    ensures { tinted_by result.amount result.red.black result.red.white result.green.black result.green.white result.blue.black result.blue.white
        ≡ recoloured 4 (use_of fx.now) at }
{
    Tint {
        red: ends(fx, at, 0, 3),
        green: ends(fx, at, 1, 4),
        blue: ends(fx, at, 2, 5),
        amount: amount(fx, at, 6),
    }
}

pub(crate) fn palette_of(fx: &FxUse) -> PaletteMap<'_>
    requires { FitsSchema palette_schema (use_of fx.now) }
    ensures { result.bytes.now ≡ fx.now.sequence }
{
    PaletteMap {
        bytes: fx.sequence.as_slice(),
    }
}
