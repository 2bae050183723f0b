//! The pixels of packed rows, each at its place.
ghost use Rattle.std.specs.Prelude.{◌≡◌, ◌≤◌, ◌+◌, ◌*◌, ◌∷◌, [], length, replicate, slice_index_or};
ghost use borrow.Rule.Slice.PartMut.{put_mid};
ghost use Rattle.argb_pixel.specs.Depth.{IsDepth};
ghost use Rattle.argb_pixel.specs.Pixel.{IsPremultiplied, clear};
ghost use Rattle.argb_pixel.specs.Packed.{pixel_size, pixels_of, IsPacked};

use crate::Pixel;
use crate::packed::{pack_pixel, pixel_size, unpack_pixel};

/// The pixel at a place of packed pixels.
#[inline(always)]
pub fn pixel_in<const MAX: u32>(bytes: &[u8], at: usize) -> Pixel<MAX>
    requires depth { IsDepth MAX }
    requires packed { IsPacked MAX bytes.now }
    requires there { pixel_size MAX * at + pixel_size MAX ≤ length bytes.now }
    ensures { result ≡ slice_index_or (pixels_of MAX bytes.now) at clear }
{
    let start = pixel_size::<MAX>() * at;
    unpack_pixel(&bytes[start..start + pixel_size::<MAX>()])
}

/// Sets the pixel at a place of packed pixels.
#[inline(always)]
pub fn put_pixel<const MAX: u32>(pixel: Pixel<MAX>, at: usize, into: &mut [u8])
    requires depth { IsDepth MAX }
    requires there { pixel_size MAX * at + pixel_size MAX ≤ length into.old }
    ensures long { length into.new ≡ length into.old }
    ensures pixels { pixels_of MAX into.new ≡ put_mid at 1 (pixels_of MAX into.old) (pixel.entry ∷ []) }
    ensures premultiplied { IsPremultiplied MAX pixel.entry }
{
    let _ = pixel.a();
    let start = pixel_size::<MAX>() * at;
    pack_pixel(pixel, &mut into[start..start + pixel_size::<MAX>()]);
}

/// The bytes of so many transparent pixels.
pub fn clear_packed<const MAX: u32>(count: usize, into: &mut [u8])
    requires depth { IsDepth MAX }
    requires long { length into.old ≡ pixel_size MAX * count }
    ensures long { length into.new ≡ length into.old }
    ensures pixels { pixels_of MAX into.new ≡ replicate count clear }
    ensures packed { IsPacked MAX into.new }
{
    fill_zeros(into);
}

// Each byte becomes 0.
fn fill_zeros(bytes: &mut [u8])
    ensures { bytes.new ≡ replicate (length bytes.old) 0 }
{
    bytes.fill(0);
}
