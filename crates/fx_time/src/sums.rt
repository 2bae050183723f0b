ghost use Rattle.std.specs.Prelude.{◌≡◌, ◌+◌, ◌*◌, ◌/◌, ◌<◌, ◌≤◌};
ghost use Rattle.argb_pixel.specs.Depth.{IsDepth};
ghost use Rattle.argb_pixel.specs.Pixel.{IsPremultiplied, clear, rounded};
ghost use Rattle.fx_blur.specs.Sums.{plus, mean_of};

use argb_pixel::{Pixel, Transparent};
use std::marker::Model;

/// The sum of a few pixels, channel by channel.
#[derive(Clone, Copy, Debug)]
pub(crate) struct Sums {
    a: u32,
    r: u32,
    g: u32,
    b: u32,
}

impl Model for Sums {
    ghost use Rattle.argb_pixel.specs.Pixel.{Argb};

    ghost Value = { Argb };

    ghost view = { λ s. record { a = s.a; r = s.r; g = s.g; b = s.b } };

    ghost inverse = { λ s. record { a = s.a; r = s.r; g = s.g; b = s.b } };
}

impl Transparent for Sums {
    const CLEAR: Sums = Sums {
        a: 0,
        r: 0,
        g: 0,
        b: 0,
    };

    ghost CLEAR = { clear };
}

/// What a sum is multiplied by in place of a division by a number: so many parts of 2^32.
pub(crate) fn part_of(count: u32) -> u64
    requires { 0 < count }
    ensures { result ≡ 4294967296 / count + 1 }
{
    4294967296 / count as u64 + 1
}

// A channel's mean, to the nearest whole number, a half up: as many parts of 2^32 as the number has.
#[inline(always)]
fn rounded_by(sum: u32, count: u32, part: u64) -> u32
    requires some { 0 < count }
    requires few { count ≤ 16 }
    requires part { part ≡ 4294967296 / count + 1 }
    requires within { sum ≤ 32768 * count }
    ensures { result ≡ rounded sum count }
{
    ((sum + count / 2) as u64 * part / 4294967296) as u32
}

impl Sums {
    /// With a pixel more.
    #[inline(always)]
    pub(crate) fn plus<const MAX: u32>(self, pixel: Pixel<MAX>) -> Sums
        requires { IsPremultiplied 4294967295 (plus self pixel) }
        ensures { result ≡ plus self pixel.entry }
    {
        Sums {
            a: self.a + pixel.a(),
            r: self.r + pixel.r(),
            g: self.g + pixel.g(),
            b: self.b + pixel.b(),
        }
    }

    /// The mean of so many pixels, of which it is the sum, by what `part_of` says of the number.
    #[inline(always)]
    pub(crate) fn mean_by<const MAX: u32>(self, count: u32, part: u64) -> Pixel<MAX>
        requires depth { IsDepth MAX }
        requires some { 0 < count }
        requires few { count ≤ 16 }
        requires part { part ≡ 4294967296 / count + 1 }
        requires within { IsPremultiplied (MAX * count) self }
        ensures { result ≡ mean_of count self }
    {
        Pixel::of_channels(
            rounded_by(self.a, count, part),
            rounded_by(self.r, count, part),
            rounded_by(self.g, count, part),
            rounded_by(self.b, count, part),
        )
    }
}
