//! A source over a destination, in each mode.
ghost use Rattle.std.specs.Prelude.{◌≡◌, ◌≤◌, ◌+◌, ◌*◌, map, length};
ghost use Rattle.std.specs.Prelude.{◌-◌};
ghost use lib.Lanes.{zip2};
ghost use Rattle.argb_pixel.specs.Depth.{IsDepth};
ghost use Rattle.argb_pixel.specs.Pixel.{Argb, mul_of, luma_of, rounded};
ghost use Rattle.argb_pixel.specs.Packed.{pixels_of, IsPacked};
ghost use Rattle.transfer_mode.specs.Both.{normal};
ghost use Rattle.transfer_mode.specs.Transfer.{blended, mixed, blend_of};

use crate::mix::*;
use crate::mode::Mode;
use crate::packed::{combine_bytes, combine_bytes_each, combine_packed, combine_packed_each};
use argb_pixel::{Combine, Pixel, combine_each, combine_pixel, combine_row, share_of_most};
use std::marker::PhantomData;

// One channel, of what the mode makes of both where both cover.
#[inline(always)]
fn blend_channel<const MAX: u32>(sa: u32, da: u32, s: u32, d: u32, both: u32) -> u32
    requires depth { IsDepth MAX }
    requires source_alpha { sa ≤ MAX }
    requires alpha { da ≤ MAX }
    requires source { s ≤ sa }
    requires destination { d ≤ da }
    requires both { both ≤ sa * da }
    ensures { result ≡ blended MAX sa da s d both }
{
    share_of_most::<MAX>(s * (MAX - da) + d * (MAX - sa) + both)
}

// One colour, in a mode that mixes both.
#[inline(always)]
fn mix_channel<X: Mix, const MAX: u32>(sa: u32, da: u32, s: u32, d: u32) -> u32
    requires depth { IsDepth MAX }
    requires source_alpha { sa ≤ MAX }
    requires alpha { da ≤ MAX }
    requires source { s ≤ sa }
    requires destination { d ≤ da }
    ensures value { result ≡ blended MAX sa da s d (X.both sa da s d) }
    ensures within { result ≤ blended MAX sa da sa da (sa * da) }
{
    blend_channel::<MAX>(sa, da, s, d, X::both(sa, da, s, d))
}

/// A mode that mixes both.
pub(crate) struct Mixed<X>(PhantomData<X>);

impl<X: Mix, const MAX: u32> Combine<MAX> for Mixed<X> {
    ghost combined = { mixed MAX X.both };

    #[inline(always)]
    fn combine(s: Pixel<MAX>, d: Pixel<MAX>) -> Pixel<MAX>
        requires { IsDepth MAX }
        ensures { result ≡ mixed MAX X.both s.entry d.entry }
    {
        let (sa, da) = (s.a(), d.a());
        Pixel::of_channels(
            blend_channel::<MAX>(sa, da, sa, da, sa * da),
            mix_channel::<X, MAX>(sa, da, s.r(), d.r()),
            mix_channel::<X, MAX>(sa, da, s.g(), d.g()),
            mix_channel::<X, MAX>(sa, da, s.b(), d.b()),
        )
    }
}

// One channel in Normal mode: the source's, and what the source leaves of the destination's.
#[inline(always)]
fn over_channel<const MAX: u32>(s: u32, d: u32, left: u32) -> u32
    requires depth { IsDepth MAX }
    requires source { s ≤ MAX }
    requires destination { d ≤ MAX }
    requires left { left ≤ MAX }
    ensures { result ≡ s + rounded (d * left) MAX }
{
    s + share_of_most::<MAX>(d * left)
}

/// Normal mode, with one product a channel.
pub(crate) struct Over;

impl<const MAX: u32> Combine<MAX> for Over {
    ghost combined = { mixed MAX normal };

    #[inline(always)]
    fn combine(s: Pixel<MAX>, d: Pixel<MAX>) -> Pixel<MAX>
        requires { IsDepth MAX }
        ensures { result ≡ mixed MAX normal s.entry d.entry }
    {
        let sa = s.a();
        let left = MAX - sa;
        Pixel::of_channels(
            over_channel::<MAX>(sa, d.a(), left),
            over_channel::<MAX>(s.r(), d.r(), left),
            over_channel::<MAX>(s.g(), d.g(), left),
            over_channel::<MAX>(s.b(), d.b(), left),
        )
    }
}

/// The source alone.
pub(crate) struct Cover;

impl<const MAX: u32> Combine<MAX> for Cover {
    ghost combined = { λ s d. s };

    #[inline(always)]
    fn combine(s: Pixel<MAX>, _d: Pixel<MAX>) -> Pixel<MAX>
        requires { IsDepth MAX }
        ensures { result ≡ s.entry }
    {
        s
    }
}

/// The same where the source is one colour for many pixels: an opaque one hides what is below.
struct OneOver;

impl<const MAX: u32> Combine<MAX> for OneOver {
    ghost combined = { mixed MAX normal };

    #[inline(always)]
    fn combine(s: Pixel<MAX>, d: Pixel<MAX>) -> Pixel<MAX>
        requires { IsDepth MAX }
        ensures { result ≡ mixed MAX normal s.entry d.entry }
    {
        // What is below is premultiplied: alpha says so.
        let _below = d.a();
        if s.a() == MAX {
            s
        } else {
            combine_pixel::<Over, MAX>(s, d)
        }
    }
}

pub(crate) struct StencilAlpha;

impl<const MAX: u32> Combine<MAX> for StencilAlpha {
    ghost combined = { λ s d. mul_of MAX d s.a };

    #[inline(always)]
    fn combine(s: Pixel<MAX>, d: Pixel<MAX>) -> Pixel<MAX>
        requires { IsDepth MAX }
        ensures { result ≡ mul_of MAX d.entry s.entry.a }
    {
        d.mul(s.a())
    }
}

pub(crate) struct SilhouetteAlpha;

impl<const MAX: u32> Combine<MAX> for SilhouetteAlpha {
    ghost combined = { λ s d. mul_of MAX d (MAX - s.a) };

    #[inline(always)]
    fn combine(s: Pixel<MAX>, d: Pixel<MAX>) -> Pixel<MAX>
        requires { IsDepth MAX }
        ensures { result ≡ mul_of MAX d.entry (MAX - s.entry.a) }
    {
        d.mul(MAX - s.a())
    }
}

pub(crate) struct StencilLuma;

impl<const MAX: u32> Combine<MAX> for StencilLuma {
    ghost combined = { λ s d. mul_of MAX d (luma_of s) };

    #[inline(always)]
    fn combine(s: Pixel<MAX>, d: Pixel<MAX>) -> Pixel<MAX>
        requires { IsDepth MAX }
        ensures { result ≡ mul_of MAX d.entry (luma_of s.entry) }
    {
        d.mul(s.luma())
    }
}

pub(crate) struct SilhouetteLuma;

impl<const MAX: u32> Combine<MAX> for SilhouetteLuma {
    ghost combined = { λ s d. mul_of MAX d (MAX - luma_of s) };

    #[inline(always)]
    fn combine(s: Pixel<MAX>, d: Pixel<MAX>) -> Pixel<MAX>
        requires { IsDepth MAX }
        ensures { result ≡ mul_of MAX d.entry (MAX - luma_of s.entry) }
    {
        d.mul(MAX - s.luma())
    }
}

// A call for each mode. Normal has its own, and the two modes that divide have another one.
macro_rules! by_mode {
    ($mode:expr, $normal:expr, $each:ident, $divided:ident, $max:ident, ($($argument:expr),*)) => {
        match $mode {
            Mode::Normal => $normal,
            Mode::Multiply => $each::<Mixed<Multiply>, $max>($($argument),*),
            Mode::Screen => $each::<Mixed<Screen>, $max>($($argument),*),
            Mode::Darken => $each::<Mixed<Darken>, $max>($($argument),*),
            Mode::Lighten => $each::<Mixed<Lighten>, $max>($($argument),*),
            Mode::Difference => $each::<Mixed<Difference>, $max>($($argument),*),
            Mode::Exclusion => $each::<Mixed<Exclusion>, $max>($($argument),*),
            Mode::Add => $each::<Mixed<Add>, $max>($($argument),*),
            Mode::Subtract => $each::<Mixed<Subtract>, $max>($($argument),*),
            Mode::LinearBurn => $each::<Mixed<LinearBurn>, $max>($($argument),*),
            Mode::HardLight => $each::<Mixed<HardLight>, $max>($($argument),*),
            Mode::Overlay => $each::<Mixed<Overlay>, $max>($($argument),*),
            Mode::LinearLight => $each::<Mixed<LinearLight>, $max>($($argument),*),
            Mode::PinLight => $each::<Mixed<PinLight>, $max>($($argument),*),
            Mode::HardMix => $each::<Mixed<HardMix>, $max>($($argument),*),
            Mode::ColorDodge => $divided::<Mixed<ColorDodge>, $max>($($argument),*),
            Mode::ColorBurn => $divided::<Mixed<ColorBurn>, $max>($($argument),*),
            Mode::StencilAlpha => $each::<StencilAlpha, $max>($($argument),*),
            Mode::SilhouetteAlpha => $each::<SilhouetteAlpha, $max>($($argument),*),
            Mode::StencilLuma => $each::<StencilLuma, $max>($($argument),*),
            Mode::SilhouetteLuma => $each::<SilhouetteLuma, $max>($($argument),*),
        }
    };
}

/// The source over the destination.
pub fn blend<const MAX: u32>(mode: Mode, s: Pixel<MAX>, d: Pixel<MAX>) -> Pixel<MAX>
    requires { IsDepth MAX }
    ensures { result ≡ blend_of MAX mode s.entry d.entry }
{
    by_mode!(
        mode,
        combine_pixel::<Over, MAX>(s, d),
        combine_pixel,
        combine_pixel,
        MAX,
        (s, d)
    )
}

/// Each pixel of the source row over its pixel of the destination row. The rows are equally long.
pub fn blend_row<const MAX: u32>(mode: Mode, s: &[Pixel<MAX>], d: &mut [Pixel<MAX>])
    requires depth { IsDepth MAX }
    requires long { length s.now ≡ length d.old }
    ensures { d.new ≡ zip2 (blend_of MAX mode) s.now d.old }
{
    by_mode!(
        mode,
        combine_row::<Over, MAX>(s, d),
        combine_row,
        combine_row,
        MAX,
        (s, d)
    )
}

/// One pixel over each pixel of the destination row.
pub fn blend_colour<const MAX: u32>(mode: Mode, s: Pixel<MAX>, d: &mut [Pixel<MAX>])
    requires { IsDepth MAX }
    ensures { d.new ≡ map (blend_of MAX mode s.entry) d.old }
{
    by_mode!(
        mode,
        combine_each::<OneOver, MAX>(s, d),
        combine_each,
        combine_each,
        MAX,
        (s, d)
    )
}

/// Each pixel of the packed source row over its pixel of the packed destination row. The rows are equally long, whole
/// pixels, and all pixels are premultiplied.
pub fn blend_packed<const MAX: u32>(mode: Mode, s: &[u8], d: &mut [u8])
    requires depth { IsDepth MAX }
    requires long { length s.now ≡ length d.old }
    requires source { IsPacked MAX s.now }
    requires destination { IsPacked MAX d.old }
    ensures long { length d.new ≡ length d.old }
    ensures packed { IsPacked MAX d.new }
    ensures value { pixels_of MAX d.new ≡ zip2 (blend_of MAX mode) (pixels_of MAX s.now) (pixels_of MAX d.old) }
{
    by_mode!(
        mode,
        combine_packed::<Over, MAX>(s, d),
        combine_packed,
        combine_bytes,
        MAX,
        (s, d)
    )
}

// One pixel over each pixel of a packed row, in Normal mode: an opaque one hides what is below.
fn over_packed_each<const MAX: u32>(s: Pixel<MAX>, d: &mut [u8])
    requires depth { IsDepth MAX }
    requires destination { IsPacked MAX d.old }
    ensures long { length d.new ≡ length d.old }
    ensures packed { IsPacked MAX d.new }
    ensures value { pixels_of MAX d.new ≡ map (mixed MAX normal s.entry) (pixels_of MAX d.old) }
{
    if s.a() == MAX {
        combine_packed_each::<Cover, MAX>(s, d);
    } else {
        combine_packed_each::<Over, MAX>(s, d);
    }
}

/// One pixel over each pixel of the packed destination row, which is whole pixels, all premultiplied.
pub fn blend_packed_colour<const MAX: u32>(mode: Mode, s: Pixel<MAX>, d: &mut [u8])
    requires depth { IsDepth MAX }
    requires destination { IsPacked MAX d.old }
    ensures long { length d.new ≡ length d.old }
    ensures packed { IsPacked MAX d.new }
    ensures value { pixels_of MAX d.new ≡ map (blend_of MAX mode s.entry) (pixels_of MAX d.old) }
{
    by_mode!(
        mode,
        over_packed_each(s, d),
        combine_packed_each,
        combine_bytes_each,
        MAX,
        (s, d)
    )
}
