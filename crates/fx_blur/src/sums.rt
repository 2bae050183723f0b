ghost use Rattle.std.specs.Prelude.{◌≡◌, ◌+◌, ◌<◌, ◌≤◌, ◌*◌, ◌/◌};
ghost use Rattle.argb_pixel.specs.Depth.{IsDepth};
ghost use Rattle.argb_pixel.specs.Pixel.{IsPremultiplied, clear, rounded};
ghost use Rattle.fx_blur.specs.Sums.{plus, mean_of};
ghost use Rattle.fx_blur.specs.Columns.{Holds, minus};

use argb_pixel::{Pixel, Transparent};
use std::marker::Model;

/// The sum of the pixels of a column, channel by channel.
#[derive(Clone, Copy, Debug)]
pub struct Sums {
    a: u32,
    r: u32,
    g: u32,
    b: u32,
}

impl Model for Sums {
    ghost use Rattle.argb_pixel.specs.Pixel.{Argb};

    ghost Value = { Argb };

    ghost view = { λ s. record { a = s.a; r = s.r; g = s.g; b = s.b } };

    ghost inverse = { λ s. record { a = s.a; r = s.r; g = s.g; b = s.b } };
}

impl Transparent for Sums {
    const CLEAR: Sums = Sums {
        a: 0,
        r: 0,
        g: 0,
        b: 0,
    };

    ghost CLEAR = { clear };
}

impl Sums {
    /// With a pixel more.
    #[inline(always)]
    pub fn plus<const MAX: u32>(self, pixel: Pixel<MAX>) -> Sums
        requires { IsPremultiplied 4294967295 (plus self pixel) }
        ensures { result ≡ plus self pixel.entry }
    {
        Sums {
            a: self.a + pixel.a(),
            r: self.r + pixel.r(),
            g: self.g + pixel.g(),
            b: self.b + pixel.b(),
        }
    }

    /// Without a pixel that is part of it.
    #[inline(always)]
    pub fn minus<const MAX: u32>(self, pixel: Pixel<MAX>) -> Sums
        requires { Holds self pixel }
        ensures { result ≡ minus self pixel.entry }
    {
        Sums {
            a: self.a - pixel.a(),
            r: self.r - pixel.r(),
            g: self.g - pixel.g(),
            b: self.b - pixel.b(),
        }
    }
}

/// The sum of columns, channel by channel.
#[derive(Clone, Copy, Debug)]
pub struct Totals {
    a: u64,
    r: u64,
    g: u64,
    b: u64,
}

impl Model for Totals {
    ghost use Rattle.argb_pixel.specs.Pixel.{Argb};

    ghost Value = { Argb };

    ghost view = { λ s. record { a = s.a; r = s.r; g = s.g; b = s.b } };

    ghost inverse = { λ s. record { a = s.a; r = s.r; g = s.g; b = s.b } };
}

impl Transparent for Totals {
    const CLEAR: Totals = Totals {
        a: 0,
        r: 0,
        g: 0,
        b: 0,
    };

    ghost CLEAR = { clear };
}

impl Totals {
    /// With a column more.
    #[inline(always)]
    pub fn plus(self, column: Sums) -> Totals
        requires { IsPremultiplied 1099511627775 (plus self column) }
        ensures { result ≡ plus self column }
    {
        Totals {
            a: self.a + column.a as u64,
            r: self.r + column.r as u64,
            g: self.g + column.g as u64,
            b: self.b + column.b as u64,
        }
    }

    /// Without a column that is part of it.
    #[inline(always)]
    pub fn minus(self, column: Sums) -> Totals
        requires { Holds self column }
        ensures { result ≡ minus self column }
    {
        Totals {
            a: self.a - column.a as u64,
            r: self.r - column.r as u64,
            g: self.g - column.g as u64,
            b: self.b - column.b as u64,
        }
    }

    /// The mean of so many pixels, of which it is the sum, by what `part_of` says of the number.
    #[inline(always)]
    pub fn mean_by<const MAX: u32>(self, count: u64, part: u64) -> Pixel<MAX>
        requires depth { IsDepth MAX }
        requires some { 0 < count }
        requires few { count ≤ 66049 }
        requires part { part ≡ 281474976710656 / count + 1 }
        requires within { IsPremultiplied (MAX * count) self }
        ensures { result ≡ mean_of count self }
    {
        Pixel::of_channels(
            rounded_by(self.a, count, part),
            rounded_by(self.r, count, part),
            rounded_by(self.g, count, part),
            rounded_by(self.b, count, part),
        )
    }

    /// The mean of so many pixels, of which it is the sum.
    #[inline(always)]
    pub fn mean<const MAX: u32>(self, count: u64) -> Pixel<MAX>
        requires depth { IsDepth MAX }
        requires some { 0 < count }
        requires few { count ≤ 1048576 }
        requires within { IsPremultiplied (MAX * count) self }
        ensures { result ≡ mean_of count self }
    {
        Pixel::of_channels(
            rounded_share(self.a, count),
            rounded_share(self.r, count),
            rounded_share(self.g, count),
            rounded_share(self.b, count),
        )
    }
}

/// What a sum is multiplied by in place of a division by a number: so many parts of 2^48.
pub fn part_of(count: u64) -> u64
    requires { 0 < count }
    ensures { result ≡ 281474976710656 / count + 1 }
{
    281474976710656 / count + 1
}

// A channel's mean, to the nearest whole number, a half up: as many parts of 2^48 as the number has.
#[inline(always)]
fn rounded_by(sum: u64, count: u64, part: u64) -> u32
    requires some { 0 < count }
    requires few { count ≤ 66049 }
    requires part { part ≡ 281474976710656 / count + 1 }
    requires within { sum ≤ 32768 * count }
    ensures { result ≡ rounded sum count }
{
    ((sum + count / 2) * part / 281474976710656) as u32
}

// A channel's mean, to the nearest whole number, a half up.
#[inline(always)]
fn rounded_share(sum: u64, count: u64) -> u32
    requires some { 0 < count }
    requires few { count ≤ 1048576 }
    requires within { sum ≤ 32768 * count }
    ensures { result ≡ rounded sum count }
{
    ((sum + count / 2) / count) as u32
}
