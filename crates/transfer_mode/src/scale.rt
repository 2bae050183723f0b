//! Packed rows under an opacity.
ghost use Rattle.std.specs.Prelude.{◌≡◌, ◌+◌, ◌*◌, ◌<◌, ◌≤◌, [], ◌∷◌, ◌++◌, map, length, take, drop};
ghost use Rattle.argb_pixel.specs.Depth.{IsDepth};
ghost use Rattle.argb_pixel.specs.Pixel.{Argb, IsPremultiplied, scale_of};
ghost use Rattle.argb_pixel.specs.Packed.{pixel_size, packed, pixels_of, IsPacked};
ghost use Rattle.transfer_mode.specs.Lanes.{channels};

use crate::lanes::{Wide, narrow};
use argb_pixel::{Pixel, pack_pixel, pixel_size, unpack_pixel};
use std::simd::prelude::*;

// Two pixels under an opacity.
#[inline(always)]
fn scale_two(row: u16x8, opacity: u32) -> u16x8
    requires part { opacity ≤ 10000 }
    ensures { (p q : Argb) → IsPremultiplied 32768 p → IsPremultiplied 32768 q → row ≡ channels p ++ channels q
        → result ≡ channels (scale_of p opacity) ++ channels (scale_of q opacity) }
{
    let parts = row.cast::<u32>() * u32x8::splat(opacity) + u32x8::splat(5000);
    narrow(parts / u32x8::splat(10000))
}

// The two pixels at a place under an opacity.
#[inline(always)]
fn scale_pair_at<W: Wide, const MAX: u32>(opacity: u32, row: &mut [u8], at: usize)
    requires depth { IsDepth MAX }
    requires lanes { W.most ≡ MAX }
    requires part { opacity ≤ 10000 }
    requires within { at + 2 * pixel_size MAX ≤ length row.old }
    ensures { (p q : Argb) → IsPremultiplied MAX p → IsPremultiplied MAX q
        → pixels_of MAX (take (2 * pixel_size MAX) (drop at row.old)) ≡ p ∷ q ∷ []
        → row.new ≡ take at row.old ++ (packed MAX (scale_of p opacity) ++ (packed MAX (scale_of q opacity) ++ drop (2 * pixel_size MAX) (drop at row.old))) }
{
    let scaled = scale_two(W::load(row, at), opacity);
    W::store(scaled, row, at);
}

// The pixel at a place under an opacity.
#[inline(always)]
fn scale_at<const MAX: u32>(opacity: u32, row: &mut [u8], at: usize)
    requires depth { IsDepth MAX }
    requires part { opacity ≤ 10000 }
    requires within { at < length row.old }
    requires packed { IsPacked MAX (drop at row.old) }
    ensures { (q : Argb) → pixels_of MAX (take (pixel_size MAX) (drop at row.old)) ≡ q ∷ []
        → row.new ≡ take at row.old ++ (packed MAX (scale_of q opacity) ++ drop (pixel_size MAX) (drop at row.old)) }
{
    let end = at + pixel_size::<MAX>();
    let pixel: Pixel<MAX> = unpack_pixel(&row[at..end]);
    pack_pixel(pixel.scale(opacity), &mut row[at..end]);
}

// Each pixel, one after another.
fn scale_bytes<const MAX: u32>(opacity: u32, row: &mut [u8])
    requires depth { IsDepth MAX }
    requires part { opacity ≤ 10000 }
    requires packed { IsPacked MAX row.old }
    ensures long { length row.new ≡ length row.old }
    ensures packed { IsPacked MAX row.new }
    ensures value { pixels_of MAX row.new ≡ map (λ p. scale_of p opacity) (pixels_of MAX row.old) }
{
    let mut at = 0;
    'pixels: while at < row.len() {
        scale_at::<MAX>(opacity, row, at);
        at += pixel_size::<MAX>();
    }
}

// Two pixels at a time, and the last one by itself.
fn scale_pairs<W: Wide, const MAX: u32>(opacity: u32, row: &mut [u8])
    requires depth { IsDepth MAX }
    requires lanes { W.most ≡ MAX }
    requires part { opacity ≤ 10000 }
    requires packed { IsPacked MAX row.old }
    ensures long { length row.new ≡ length row.old }
    ensures packed { IsPacked MAX row.new }
    ensures value { pixels_of MAX row.new ≡ map (λ p. scale_of p opacity) (pixels_of MAX row.old) }
{
    let step = 2 * pixel_size::<MAX>();
    let mut at = 0;
    'pairs: while at + step <= row.len() {
        scale_pair_at::<W, MAX>(opacity, row, at);
        at += step;
    }
    scale_bytes::<MAX>(opacity, &mut row[at..]);
}

/// Each pixel of a packed row under an opacity in 1/10000, at most 10000. The row is whole pixels, all premultiplied.
pub fn scale_packed<const MAX: u32>(opacity: u32, row: &mut [u8])
    requires depth { IsDepth MAX }
    requires part { opacity ≤ 10000 }
    requires packed { IsPacked MAX row.old }
    ensures long { length row.new ≡ length row.old }
    ensures packed { IsPacked MAX row.new }
    ensures value { pixels_of MAX row.new ≡ map (λ p. scale_of p opacity) (pixels_of MAX row.old) }
{
    if MAX == 255 {
        scale_pairs::<u16x8, MAX>(opacity, row);
    } else {
        scale_pairs::<u32x8, MAX>(opacity, row);
    }
}
