ghost use Rattle.std.specs.Prelude.{◌≡◌, ◌≤◌, ◌<◌, ◌*◌, MatchOption};
ghost use Rattle.argb_pixel.specs.Depth.{IsDepth};
ghost use Rattle.argb_pixel.specs.Pixel.{IsPremultiplied, clear, mul_of, scale_of, luma_of, depth_of, rounded};

use std::marker::Model;

/// A premultiplied pixel: alpha and three colours, each colour at most alpha, and alpha at most `MAX`,
/// which is 255 (8 bit) or 32768 (16 bit). The order of the channels and the two depths with their greatest values are
/// those of the After Effects C++ SDK Guide. That pixels are premultiplied, and all arithmetic with its rounding
/// (`mul`, `scale`, `luma`, `to_depth`), is this project's own.
#[derive(Clone, Copy, Debug, PartialEq, Eq)]
pub struct Pixel<const MAX: u32> {
    a: u16,
    r: u16,
    g: u16,
    b: u16,
}

impl<const MAX: u32> Model for Pixel<MAX> {
    ghost use Rattle.std.specs.Prelude.{◌<◌, ◌^◌};
    ghost use Rattle.argb_pixel.specs.Pixel.{Argb, IsPremultiplied};

    ghost Value = { Argb };

    ghost view = { λ p. record { a = p.a; r = p.r; g = p.g; b = p.b } };

    ghost invariant = { λ p. IsPremultiplied MAX record { a = p.a; r = p.r; g = p.g; b = p.b } };

    ghost inverse = { λ p. record { a = p.a; r = p.r; g = p.g; b = p.b } };
}

/// A product of two channels, or a sum of such, divided by `MAX`, to the nearest number: `floor((product + MAX/2) / MAX)`.
/// It is at most `MAX*MAX`. A quotient by 255 is had from shifts.
#[inline(always)]
pub fn share_of_most<const MAX: u32>(product: u32) -> u32
    requires depth { IsDepth MAX }
    requires bound { product ≤ MAX * MAX }
    ensures { result ≡ rounded product MAX }
{
    if MAX == 255 {
        let above = product + 128;
        (above + above / 256) / 256
    } else {
        (product + MAX / 2) / MAX
    }
}

// The part of a channel that `m` is of the greatest value, to the nearest number.
#[inline(always)]
fn part_of_most<const MAX: u32>(c: u16, m: u32) -> u16
    requires depth { IsDepth MAX }
    requires part { m ≤ MAX }
    requires channel { c ≤ MAX }
    ensures { result ≡ rounded (c * m) MAX }
{
    share_of_most::<MAX>(c as u32 * m) as u16
}

// The part of a channel that `m` is of `whole`, to the nearest number.
fn rounded_part(c: u16, m: u32, whole: u32) -> u16
    requires some { 0 < whole }
    requires depth { whole ≤ 32768 }
    requires part { m ≤ whole }
    requires channel { c ≤ 32768 }
    ensures { result ≡ rounded (c * m) whole }
{
    ((c as u32 * m + whole / 2) / whole) as u16
}

// A channel of a depth in another one, to the nearest number.
fn rounded_share(c: u16, other: u32, most: u32) -> u16
    requires some { 0 < most }
    requires from { most ≤ 32768 }
    requires to { other ≤ 32768 }
    requires channel { c ≤ most }
    ensures value { result ≡ rounded (c * other) most }
    ensures within { result ≤ other }
{
    ((c as u32 * other + most / 2) / most) as u16
}

/// What has a transparent value. The constant stands in a trait, where contracts see its value.
pub trait Transparent: Sized {
    /// The transparent value.
    const CLEAR: Self;

    ghost CLEAR: { Self };
}

impl<const MAX: u32> Transparent for Pixel<MAX> {
    const CLEAR: Pixel<MAX> = Pixel {
        a: 0,
        r: 0,
        g: 0,
        b: 0,
    };

    ghost CLEAR = { clear };
}

impl<const MAX: u32> Pixel<MAX> {
    /// The pixel of four channels, where they are premultiplied.
    pub fn new(a: u32, r: u32, g: u32, b: u32) -> Option<Pixel<MAX>>
        requires { IsDepth MAX }
        ensures { MatchOption result (IsPremultiplied MAX record { a = a; r = r; g = g; b = b } → ⊥)
            (λ p. (p ≡ record { a = a; r = r; g = g; b = b }) × IsPremultiplied MAX p) }
    {
        if a > MAX || r > a || g > a || b > a {
            return None;
        }
        Some(Pixel {
            a: a as u16,
            r: r as u16,
            g: g as u16,
            b: b as u16,
        })
    }

    /// The pixel of four channels that are known to be premultiplied.
    pub fn of_channels(a: u32, r: u32, g: u32, b: u32) -> Pixel<MAX>
        requires depth { IsDepth MAX }
        requires premultiplied { IsPremultiplied MAX record { a = a; r = r; g = g; b = b } }
        ensures { result ≡ record { a = a; r = r; g = g; b = b } }
    {
        Pixel {
            a: a as u16,
            r: r as u16,
            g: g as u16,
            b: b as u16,
        }
    }

    /// Alpha.
    pub fn a(self) -> u32
        ensures value { result ≡ self.entry.a }
        ensures premultiplied { IsPremultiplied MAX self.entry }
    {
        self.a as u32
    }

    /// Red.
    pub fn r(self) -> u32
        ensures value { result ≡ self.entry.r }
        ensures premultiplied { IsPremultiplied MAX self.entry }
    {
        self.r as u32
    }

    /// Green.
    pub fn g(self) -> u32
        ensures value { result ≡ self.entry.g }
        ensures premultiplied { IsPremultiplied MAX self.entry }
    {
        self.g as u32
    }

    /// Blue.
    pub fn b(self) -> u32
        ensures value { result ≡ self.entry.b }
        ensures premultiplied { IsPremultiplied MAX self.entry }
    {
        self.b as u32
    }

    /// The part of it that `m` is of `MAX`: each channel becomes `floor((c*m + MAX/2) / MAX)`.
    pub fn mul(self, m: u32) -> Pixel<MAX>
        requires depth { IsDepth MAX }
        requires part { m ≤ MAX }
        ensures { result ≡ mul_of MAX self.entry m }
    {
        Pixel {
            a: part_of_most::<MAX>(self.a, m),
            r: part_of_most::<MAX>(self.r, m),
            g: part_of_most::<MAX>(self.g, m),
            b: part_of_most::<MAX>(self.b, m),
        }
    }

    /// Under an opacity in 1/10000: each channel becomes `floor((c*opacity + 5000) / 10000)`.
    pub fn scale(self, opacity: u32) -> Pixel<MAX>
        requires depth { IsDepth MAX }
        requires part { opacity ≤ 10000 }
        ensures { result ≡ scale_of self.entry opacity }
    {
        Pixel {
            a: rounded_part(self.a, opacity, 10000),
            r: rounded_part(self.r, opacity, 10000),
            g: rounded_part(self.g, opacity, 10000),
            b: rounded_part(self.b, opacity, 10000),
        }
    }

    /// The pixel in another depth, each channel rounded to the nearest: `floor((c*32768 + 127) / 255)` from 8 bit to 16,
    /// `floor((c*255 + 16384) / 32768)` from 16 bit to 8.
    pub fn to_depth<const N: u32>(self) -> Pixel<N>
        requires from { IsDepth MAX }
        requires to { IsDepth N }
        ensures { result ≡ depth_of MAX N self.entry }
    {
        Pixel {
            a: rounded_share(self.a, N, MAX),
            r: rounded_share(self.r, N, MAX),
            g: rounded_share(self.g, N, MAX),
            b: rounded_share(self.b, N, MAX),
        }
    }

    /// How bright it is: `floor((77*r + 150*g + 29*b + 128) / 256)`, at most alpha.
    pub fn luma(self) -> u32
        requires { IsDepth MAX }
        ensures value { result ≡ luma_of self.entry }
        ensures within { result ≤ self.entry.a }
    {
        (77 * self.r as u32 + 150 * self.g as u32 + 29 * self.b as u32 + 128) / 256
    }
}
