//! Two pixels at a time: their eight channels in lanes, and the products of such.
ghost use Rattle.std.specs.Prelude.{◌≡◌, ℕ, ◌+◌, ◌-◌, ◌*◌, ◌%◌, ◌≤◌, ◌<◌, List, ◌++◌, length, take, drop, flat_map, map, min, max, nat_le, [], ◌∷◌};
ghost use lib.Lanes.{Each1, zip2, sel_l, pick_l};
ghost use Rattle.argb_pixel.specs.Pixel.{Argb, IsPremultiplied, rounded};
ghost use Rattle.argb_pixel.specs.Packed.{pixel_size, packed, pixels_of};
ghost use Rattle.transfer_mode.specs.Lanes.{channels};

use std::simd::prelude::*;

/// Eight products of channels of a depth, or sums of such. Sums and differences wrap at `size`.
pub(crate) trait Wide: Copy {
    ghost most: { ℕ };

    ghost size: { ℕ };

    ghost lanes: { Self → List ℕ };

    /// How many bytes two pixels have.
    fn two_pixels() -> usize
        ensures { result ≡ 2 * pixel_size most };

    /// The channels of two pixels, from a place on.
    fn load(bytes: &[u8], at: usize) -> u16x8
        requires { at + 2 * pixel_size most ≤ length bytes.now }
        ensures { result ≡ flat_map channels (pixels_of most (take (2 * pixel_size most) (drop at bytes.now))) };

    /// Writes the bytes of two pixels, from a place on.
    fn store(row: u16x8, into: &mut [u8], at: usize)
        requires { at + 2 * pixel_size most ≤ length into.old }
        ensures { (p q : Argb) → IsPremultiplied most p → IsPremultiplied most q → row ≡ channels p ++ channels q
            → into.new ≡ take at into.old ++ (packed most p ++ (packed most q ++ drop (2 * pixel_size most) (drop at into.old))) };

    /// What each channel leaves to the greatest value.
    fn left(a: u16x8) -> u16x8
        ensures { Each1 (λ x. x ≤ most) a → result ≡ map (λ x. most - x) a };

    fn product(a: u16x8, b: u16x8) -> Self
        ensures { lanes result ≡ zip2 (λ x y. x * y % size) a b };

    /// The sums of two channels, times the greatest value.
    fn most_of_sum(a: u16x8, b: u16x8) -> Self
        ensures { lanes result ≡ zip2 (λ x y. (x + y) * most % size) a b };

    /// Divided by the greatest value, to the nearest number.
    fn rounded(self) -> u16x8
        ensures { Each1 (λ x. x ≤ most * most) (lanes self) → result ≡ map (λ x. rounded x most) (lanes self) };

    fn plus(self, other: Self) -> Self
        ensures { lanes result ≡ zip2 (λ x y. (x + y) % size) (lanes self) (lanes other) };

    fn less(self, other: Self) -> Self
        ensures { lanes result ≡ zip2 (λ x y. (x + (size - y)) % size) (lanes self) (lanes other) };

    /// How far it is above the other one.
    fn beyond(self, other: Self) -> Self
        ensures { lanes result ≡ zip2 (λ x y. x - y) (lanes self) (lanes other) };

    fn least(self, other: Self) -> Self
        ensures { lanes result ≡ zip2 min (lanes self) (lanes other) };

    fn greatest(self, other: Self) -> Self
        ensures { lanes result ≡ zip2 max (lanes self) (lanes other) };

    /// `yes` where it is at most the other one, `no` elsewhere.
    fn choose(self, other: Self, yes: Self, no: Self) -> Self
        ensures { lanes result ≡ sel_l (zip2 nat_le (lanes self) (lanes other)) (lanes yes) (lanes no) };

    /// The lanes of alpha of this one, and those of colours of the other one.
    fn with_colours(self, other: Self) -> Self
        ensures { lanes result ≡ pick_l 0 (lanes self ++ lanes other) (0 ∷ 9 ∷ 10 ∷ 11 ∷ 4 ∷ 13 ∷ 14 ∷ 15 ∷ []) };
}

/// At 8 bit: a product of two channels and the sums that are needed fit 16 bits.
impl Wide for u16x8 {
    ghost most = { 255 };

    ghost size = { 65536 };

    ghost lanes = { λ v. v };

    #[inline(always)]
    fn two_pixels() -> usize {
        8
    }

    #[inline(always)]
    fn load(bytes: &[u8], at: usize) -> u16x8 {
        u8x8::from_slice(&bytes[at..]).cast::<u16>()
    }

    #[inline(always)]
    fn store(row: u16x8, into: &mut [u8], at: usize) {
        row.simd_min(u16x8::splat(255))
            .cast::<u8>()
            .copy_to_slice(&mut into[at..]);
    }

    #[inline(always)]
    fn left(a: u16x8) -> u16x8 {
        u16x8::splat(255) - a
    }

    #[inline(always)]
    fn product(a: u16x8, b: u16x8) -> u16x8 {
        a * b
    }

    #[inline(always)]
    fn most_of_sum(a: u16x8, b: u16x8) -> u16x8 {
        (a + b) * u16x8::splat(255)
    }

    #[inline(always)]
    fn rounded(self) -> u16x8 {
        let above = self + u16x8::splat(128);
        (above + (above >> 8)) >> 8
    }

    #[inline(always)]
    fn plus(self, other: u16x8) -> u16x8 {
        self + other
    }

    #[inline(always)]
    fn less(self, other: u16x8) -> u16x8 {
        self - other
    }

    #[inline(always)]
    fn beyond(self, other: u16x8) -> u16x8 {
        self.saturating_sub(other)
    }

    #[inline(always)]
    fn least(self, other: u16x8) -> u16x8 {
        self.simd_min(other)
    }

    #[inline(always)]
    fn greatest(self, other: u16x8) -> u16x8 {
        self.simd_max(other)
    }

    #[inline(always)]
    fn choose(self, other: u16x8, yes: u16x8, no: u16x8) -> u16x8 {
        self.simd_le(other).select(yes, no)
    }

    #[inline(always)]
    fn with_colours(self, other: u16x8) -> u16x8 {
        self.shuffle(other, [0, 9, 10, 11, 4, 13, 14, 15])
    }
}

/// The same numbers in half as many bytes, where they fit.
#[inline(always)]
pub(crate) fn narrow(row: u32x8) -> u16x8
    ensures { Each1 (λ x. x ≤ 65535) row → result ≡ row }
{
    row.simd_min(u32x8::splat(65535)).cast::<u16>()
}

// The two bytes of each channel exchanged.
#[inline(always)]
fn exchanged(bytes: u8x16) -> u8x16
    ensures { result ≡ pick_l 0 bytes (1 ∷ 0 ∷ 3 ∷ 2 ∷ 5 ∷ 4 ∷ 7 ∷ 6 ∷ 9 ∷ 8 ∷ 11 ∷ 10 ∷ 13 ∷ 12 ∷ 15 ∷ 14 ∷ []) }
{
    bytes.swizzle([1, 0, 3, 2, 5, 4, 7, 6, 9, 8, 11, 10, 13, 12, 15, 14])
}

/// At 16 bit: a product of two channels and the sums that are needed fit 32 bits.
impl Wide for u32x8 {
    ghost most = { 32768 };

    ghost size = { 4294967296 };

    ghost lanes = { λ v. v };

    #[inline(always)]
    fn two_pixels() -> usize {
        16
    }

    #[inline(always)]
    fn load(bytes: &[u8], at: usize) -> u16x8 {
        u16x8::from_le_bytes(exchanged(u8x16::from_slice(&bytes[at..])))
    }

    #[inline(always)]
    fn store(row: u16x8, into: &mut [u8], at: usize) {
        exchanged(row.to_le_bytes()).copy_to_slice(&mut into[at..]);
    }

    #[inline(always)]
    fn left(a: u16x8) -> u16x8 {
        u16x8::splat(32768) - a
    }

    #[inline(always)]
    fn product(a: u16x8, b: u16x8) -> u32x8 {
        a.cast::<u32>() * b.cast::<u32>()
    }

    #[inline(always)]
    fn most_of_sum(a: u16x8, b: u16x8) -> u32x8 {
        (a.cast::<u32>() + b.cast::<u32>()) * u32x8::splat(32768)
    }

    #[inline(always)]
    fn rounded(self) -> u16x8 {
        ((self + u32x8::splat(16384)) >> 15)
            .simd_min(u32x8::splat(65535))
            .cast::<u16>()
    }

    #[inline(always)]
    fn plus(self, other: u32x8) -> u32x8 {
        self + other
    }

    #[inline(always)]
    fn less(self, other: u32x8) -> u32x8 {
        self - other
    }

    #[inline(always)]
    fn beyond(self, other: u32x8) -> u32x8 {
        self.saturating_sub(other)
    }

    #[inline(always)]
    fn least(self, other: u32x8) -> u32x8 {
        self.simd_min(other)
    }

    #[inline(always)]
    fn greatest(self, other: u32x8) -> u32x8 {
        self.simd_max(other)
    }

    #[inline(always)]
    fn choose(self, other: u32x8, yes: u32x8, no: u32x8) -> u32x8 {
        self.simd_le(other).select(yes, no)
    }

    #[inline(always)]
    fn with_colours(self, other: u32x8) -> u32x8 {
        self.shuffle(other, [0, 9, 10, 11, 4, 13, 14, 15])
    }
}
