//! Blending of packed rows: two pixels at a time where a mode can, and one after another where it divides.
ghost use Rattle.std.specs.Prelude.{◌≡◌, ◌+◌, ◌*◌, ◌<◌, ◌≤◌, [], ◌∷◌, ◌++◌, map, length, take, drop};
ghost use lib.Lanes.{zip2};
ghost use Rattle.argb_pixel.specs.Depth.{IsDepth};
ghost use Rattle.argb_pixel.specs.Pixel.{Argb, IsPremultiplied};
ghost use Rattle.argb_pixel.specs.Packed.{pixel_size, packed, pixels_of, IsPacked};
ghost use Rattle.transfer_mode.specs.Lanes.{channels};

use crate::lanes::Wide;
use crate::pair::Pair;
use argb_pixel::{Combine, Pixel, pack_pixel, pixel_size, unpack_pixel};
use std::simd::prelude::*;

// The pixel at a place becomes what is made of it and of a source.
#[inline(always)]
fn combine_at<C: Combine<MAX>, const MAX: u32>(source: Pixel<MAX>, d: &mut [u8], at: usize)
    requires depth { IsDepth MAX }
    requires within { at < length d.old }
    requires packed { IsPacked MAX (drop at d.old) }
    ensures { (q : Argb) → pixels_of MAX (take (pixel_size MAX) (drop at d.old)) ≡ q ∷ []
        → d.new ≡ take at d.old ++ (packed MAX (C.combined source.entry q) ++ drop (pixel_size MAX) (drop at d.old)) }
{
    let end = at + pixel_size::<MAX>();
    let made = C::combine(source, unpack_pixel(&d[at..end]));
    pack_pixel(made, &mut d[at..end]);
}

// The pixel at a place.
#[inline(always)]
fn pixel_at<const MAX: u32>(bytes: &[u8], at: usize) -> Pixel<MAX>
    requires depth { IsDepth MAX }
    requires within { at < length bytes.now }
    requires packed { IsPacked MAX (drop at bytes.now) }
    ensures { pixels_of MAX (take (pixel_size MAX) (drop at bytes.now)) ≡ result ∷ [] }
{
    unpack_pixel(&bytes[at..at + pixel_size::<MAX>()])
}

// Each pixel of a row becomes what is made of it and of the source's, one after another.
pub(crate) fn combine_bytes<C: Combine<MAX>, const MAX: u32>(s: &[u8], d: &mut [u8])
    requires depth { IsDepth MAX }
    requires long { length s.now ≡ length d.old }
    requires source { IsPacked MAX s.now }
    requires destination { IsPacked MAX d.old }
    requires kept { (p q : Argb) → IsPremultiplied MAX p → IsPremultiplied MAX q → IsPremultiplied MAX (C.combined p q) }
    ensures long { length d.new ≡ length d.old }
    ensures packed { IsPacked MAX d.new }
    ensures value { pixels_of MAX d.new ≡ zip2 C.combined (pixels_of MAX s.now) (pixels_of MAX d.old) }
{
    let mut at = 0;
    'pixels: while at < d.len() {
        combine_at::<C, MAX>(pixel_at(s, at), d, at);
        at += pixel_size::<MAX>();
    }
}

// The same of one source pixel over each pixel of a row.
pub(crate) fn combine_bytes_each<C: Combine<MAX>, const MAX: u32>(source: Pixel<MAX>, d: &mut [u8])
    requires depth { IsDepth MAX }
    requires destination { IsPacked MAX d.old }
    requires kept { (p q : Argb) → IsPremultiplied MAX p → IsPremultiplied MAX q → IsPremultiplied MAX (C.combined p q) }
    ensures long { length d.new ≡ length d.old }
    ensures packed { IsPacked MAX d.new }
    ensures value { pixels_of MAX d.new ≡ map (C.combined source.entry) (pixels_of MAX d.old) }
{
    let _alpha = source.a();
    let mut at = 0;
    'pixels: while at < d.len() {
        combine_at::<C, MAX>(source, d, at);
        at += pixel_size::<MAX>();
    }
}

// The two pixels at a place become what is made of them and of those of a source.
#[inline(always)]
fn pair_at<C: Pair<MAX>, W: Wide, const MAX: u32>(source: u16x8, d: &mut [u8], at: usize)
    requires depth { IsDepth MAX }
    requires lanes { W.most ≡ MAX }
    requires small { W.most * W.most < W.size }
    requires within { at + 2 * pixel_size MAX ≤ length d.old }
    requires kept { (p q : Argb) → IsPremultiplied MAX p → IsPremultiplied MAX q → IsPremultiplied MAX (C.combined p q) }
    ensures { (p p' q q' : Argb) → IsPremultiplied MAX p → IsPremultiplied MAX p' → IsPremultiplied MAX q → IsPremultiplied MAX q'
        → source ≡ channels p ++ channels p' → pixels_of MAX (take (2 * pixel_size MAX) (drop at d.old)) ≡ q ∷ q' ∷ []
        → d.new ≡ take at d.old ++ (packed MAX (C.combined p q) ++ (packed MAX (C.combined p' q') ++ drop (2 * pixel_size MAX) (drop at d.old))) }
{
    let made = C::pair::<W>(source, W::load(d, at));
    W::store(made, d, at);
}

// Each pixel of a row becomes what is made of it and of the source's: two at a time, and the last one by itself.
fn combine_pairs<C: Pair<MAX>, W: Wide, const MAX: u32>(s: &[u8], d: &mut [u8])
    requires depth { IsDepth MAX }
    requires lanes { W.most ≡ MAX }
    requires small { W.most * W.most < W.size }
    requires long { length s.now ≡ length d.old }
    requires source { IsPacked MAX s.now }
    requires destination { IsPacked MAX d.old }
    requires kept { (p q : Argb) → IsPremultiplied MAX p → IsPremultiplied MAX q → IsPremultiplied MAX (C.combined p q) }
    ensures long { length d.new ≡ length d.old }
    ensures packed { IsPacked MAX d.new }
    ensures value { pixels_of MAX d.new ≡ zip2 C.combined (pixels_of MAX s.now) (pixels_of MAX d.old) }
{
    let step = 2 * pixel_size::<MAX>();
    let mut at = 0;
    'pairs: while at + step <= d.len() {
        pair_at::<C, W, MAX>(W::load(s, at), d, at);
        at += step;
    }
    combine_bytes::<C, MAX>(&s[at..], &mut d[at..]);
}

// The channels of a pixel, twice.
#[inline(always)]
fn twice<const MAX: u32>(pixel: Pixel<MAX>) -> u16x8
    requires { IsDepth MAX }
    ensures { result ≡ channels pixel.entry ++ channels pixel.entry }
{
    let a = pixel.a() as u16;
    let r = pixel.r() as u16;
    let g = pixel.g() as u16;
    let b = pixel.b() as u16;
    u16x8::from_array([a, r, g, b, a, r, g, b])
}

// The same of one source pixel over each pixel of a row.
fn combine_pairs_each<C: Pair<MAX>, W: Wide, const MAX: u32>(source: Pixel<MAX>, d: &mut [u8])
    requires depth { IsDepth MAX }
    requires lanes { W.most ≡ MAX }
    requires small { W.most * W.most < W.size }
    requires destination { IsPacked MAX d.old }
    requires kept { (p q : Argb) → IsPremultiplied MAX p → IsPremultiplied MAX q → IsPremultiplied MAX (C.combined p q) }
    ensures long { length d.new ≡ length d.old }
    ensures packed { IsPacked MAX d.new }
    ensures value { pixels_of MAX d.new ≡ map (C.combined source.entry) (pixels_of MAX d.old) }
{
    let step = 2 * pixel_size::<MAX>();
    let _alpha = source.a();
    let row = twice(source);
    let mut at = 0;
    'pairs: while at + step <= d.len() {
        pair_at::<C, W, MAX>(row, d, at);
        at += step;
    }
    combine_bytes_each::<C, MAX>(source, &mut d[at..]);
}

/// Each pixel of a packed row becomes what is made of it and of the source's.
#[inline(always)]
pub(crate) fn combine_packed<C: Pair<MAX>, const MAX: u32>(s: &[u8], d: &mut [u8])
    requires depth { IsDepth MAX }
    requires long { length s.now ≡ length d.old }
    requires source { IsPacked MAX s.now }
    requires destination { IsPacked MAX d.old }
    requires kept { (p q : Argb) → IsPremultiplied MAX p → IsPremultiplied MAX q → IsPremultiplied MAX (C.combined p q) }
    ensures long { length d.new ≡ length d.old }
    ensures packed { IsPacked MAX d.new }
    ensures value { pixels_of MAX d.new ≡ zip2 C.combined (pixels_of MAX s.now) (pixels_of MAX d.old) }
{
    if MAX == 255 {
        combine_pairs::<C, u16x8, MAX>(s, d);
    } else {
        combine_pairs::<C, u32x8, MAX>(s, d);
    }
}

/// The same of one source pixel over each pixel of a packed row.
#[inline(always)]
pub(crate) fn combine_packed_each<C: Pair<MAX>, const MAX: u32>(source: Pixel<MAX>, d: &mut [u8])
    requires depth { IsDepth MAX }
    requires destination { IsPacked MAX d.old }
    requires kept { (p q : Argb) → IsPremultiplied MAX p → IsPremultiplied MAX q → IsPremultiplied MAX (C.combined p q) }
    ensures long { length d.new ≡ length d.old }
    ensures packed { IsPacked MAX d.new }
    ensures value { pixels_of MAX d.new ≡ map (C.combined source.entry) (pixels_of MAX d.old) }
{
    if MAX == 255 {
        combine_pairs_each::<C, u16x8, MAX>(source, d);
    } else {
        combine_pairs_each::<C, u32x8, MAX>(source, d);
    }
}
