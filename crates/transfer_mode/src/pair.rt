//! Each mode over two pixels at a time.
ghost use Rattle.std.specs.Prelude.{◌≡◌, ◌+◌, ◌*◌, ◌/◌, ◌<◌, ◌≤◌, ◌++◌, [], ◌∷◌, map};
ghost use lib.Lanes.{Each1, pick_l};
ghost use Rattle.argb_pixel.specs.Pixel.{Argb, IsPremultiplied, luma_of};
ghost use Rattle.transfer_mode.specs.Lanes.{channels, fours};

use crate::lanes::Wide;
use crate::mix_lanes::MixLanes;
use crate::transfer::{
    Cover, Mixed, Over, SilhouetteAlpha, SilhouetteLuma, StencilAlpha, StencilLuma,
};
use argb_pixel::Combine;
use std::simd::prelude::*;

/// What is made of two pixels each of a source and of a destination.
pub(crate) trait Pair<const MAX: u32>: Combine<MAX> {
    /// Of their channels, one after another.
    fn pair<W: Wide>(s: u16x8, d: u16x8) -> u16x8
        requires depth { W.most ≡ MAX }
        requires small { W.most * W.most < W.size }
        requires some { 0 < MAX }
        requires within { MAX ≤ 32768 }
        ensures { (p p' q q' : Argb) → IsPremultiplied MAX p → IsPremultiplied MAX p' → IsPremultiplied MAX q → IsPremultiplied MAX q'
            → s ≡ channels p ++ channels p' → d ≡ channels q ++ channels q'
            → result ≡ channels (Self.combined p q) ++ channels (Self.combined p' q') };
}

// The alpha of each pixel in the place of each of its channels.
#[inline(always)]
fn spread(row: u16x8) -> u16x8
    ensures { result ≡ pick_l 0 row (0 ∷ 0 ∷ 0 ∷ 0 ∷ 4 ∷ 4 ∷ 4 ∷ 4 ∷ []) }
{
    row.swizzle([0, 0, 0, 0, 4, 4, 4, 4])
}

// Neighbours exchanged.
#[inline(always)]
fn neighbours(row: u32x8) -> u32x8
    ensures { result ≡ pick_l 0 row (1 ∷ 0 ∷ 3 ∷ 2 ∷ 5 ∷ 4 ∷ 7 ∷ 6 ∷ []) }
{
    row.swizzle([1, 0, 3, 2, 5, 4, 7, 6])
}

// The halves of each pixel exchanged.
#[inline(always)]
fn halves(row: u32x8) -> u32x8
    ensures { result ≡ pick_l 0 row (2 ∷ 3 ∷ 0 ∷ 1 ∷ 6 ∷ 7 ∷ 4 ∷ 5 ∷ []) }
{
    row.swizzle([2, 3, 0, 1, 6, 7, 4, 5])
}

// Each lane's 256th part, to the nearest number.
#[inline(always)]
fn part_of_256(row: u32x8) -> u16x8
    ensures { Each1 (λ x. x ≤ 8388608) row → result ≡ map (λ x. (x + 128) / 256) row }
{
    ((row + u32x8::splat(128)) >> 8)
        .simd_min(u32x8::splat(65535))
        .cast::<u16>()
}

// How bright each pixel is, in the place of each of its channels.
#[inline(always)]
fn spread_luma(row: u16x8) -> u16x8
    ensures { (p q : Argb) → IsPremultiplied 32768 p → IsPremultiplied 32768 q → row ≡ channels p ++ channels q
        → result ≡ fours (luma_of p) (luma_of q) }
{
    let parts = row.cast::<u32>() * u32x8::from_array([0, 77, 150, 29, 0, 77, 150, 29]);
    let pairs = parts + neighbours(parts);
    part_of_256(pairs + halves(pairs))
}

impl<X: MixLanes, const MAX: u32> Pair<MAX> for Mixed<X> {
    #[inline(always)]
    fn pair<W: Wide>(s: u16x8, d: u16x8) -> u16x8 {
        let sa = spread(s);
        let da = spread(d);
        let all = W::product(sa, da);
        let s_da = W::product(s, da);
        let d_sa = W::product(d, sa);
        let both = X::both_lanes(all, s_da, d_sa, W::product(s, d));
        let twice = all.with_colours(s_da.plus(d_sa).less(both));
        W::most_of_sum(s, d).less(twice).rounded()
    }
}

impl<const MAX: u32> Pair<MAX> for Over {
    #[inline(always)]
    fn pair<W: Wide>(s: u16x8, d: u16x8) -> u16x8 {
        s + W::product(d, W::left(spread(s))).rounded()
    }
}

impl<const MAX: u32> Pair<MAX> for StencilAlpha {
    #[inline(always)]
    fn pair<W: Wide>(s: u16x8, d: u16x8) -> u16x8 {
        W::product(d, spread(s)).rounded()
    }
}

impl<const MAX: u32> Pair<MAX> for SilhouetteAlpha {
    #[inline(always)]
    fn pair<W: Wide>(s: u16x8, d: u16x8) -> u16x8 {
        W::product(d, W::left(spread(s))).rounded()
    }
}

impl<const MAX: u32> Pair<MAX> for StencilLuma {
    #[inline(always)]
    fn pair<W: Wide>(s: u16x8, d: u16x8) -> u16x8 {
        W::product(d, spread_luma(s)).rounded()
    }
}

impl<const MAX: u32> Pair<MAX> for SilhouetteLuma {
    #[inline(always)]
    fn pair<W: Wide>(s: u16x8, d: u16x8) -> u16x8 {
        W::product(d, W::left(spread_luma(s))).rounded()
    }
}

impl<const MAX: u32> Pair<MAX> for Cover {
    #[inline(always)]
    fn pair<W: Wide>(s: u16x8, _d: u16x8) -> u16x8 {
        s
    }
}
