//! Rows of pixels and the bytes of them.
ghost use Rattle.std.specs.Prelude.{◌≡◌, ◌≤◌, ◌<◌, ◌+◌, ◌*◌, ◌∷◌, [], All, IfOk, length, replicate, slice_index_or};
ghost use borrow.Rule.Slice.PartMut.{put_mid};
ghost use Rattle.argb_pixel.specs.Depth.{IsDepth};
ghost use Rattle.argb_pixel.specs.Pixel.{IsPremultiplied, clear};
ghost use Rattle.argb_pixel.specs.Packed.{pixel_size, pixels_of, IsPacked};
ghost use Rattle.argb_world.specs.Picture.{greatest_part};

use argb_pixel::{Pixel, pixel_in, pixel_size, put_pixel};
use host_io::Memory;
use std::alloc::Global;

/// The pixels of packed bytes.
pub(crate) fn unpack_row<const MAX: u32>(bytes: &[u8], into: &mut [Pixel<MAX>])
    requires depth { IsDepth MAX }
    requires packed { IsPacked MAX bytes.now }
    requires long { length bytes.now ≡ pixel_size MAX * length into.old }
    ensures { into.new ≡ pixels_of MAX bytes.now }
{
    for i in 0..into.len() {
        into[i] = pixel_in(bytes, i);
    }
}

/// The bytes of pixels.
pub(crate) fn pack_row<const MAX: u32>(from: &[Pixel<MAX>], into: &mut [u8])
    requires depth { IsDepth MAX }
    requires long { length into.old ≡ pixel_size MAX * length from.now }
    ensures long { length into.new ≡ length into.old }
    ensures pixels { pixels_of MAX into.new ≡ from.now }
    ensures packed { IsPacked MAX into.new }
{
    for i in 0..from.len() {
        put_pixel(from[i], i, into);
    }
}

/// One colour at each pixel of a row.
pub(crate) fn fill_row<const MAX: u32>(colour: Pixel<MAX>, row: &mut [Pixel<MAX>])
    ensures { row.new ≡ replicate (length row.old) colour.entry }
{
    row.fill(colour);
}

// So many pixels of one colour, as bytes.
fn fill_packed<const MAX: u32>(colour: Pixel<MAX>, count: usize, into: &mut [u8])
    requires depth { IsDepth MAX }
    requires long { length into.old ≡ pixel_size MAX * count }
    ensures pixels { pixels_of MAX into.new ≡ replicate count colour.entry }
    ensures packed { IsPacked MAX into.new }
{
    for i in 0..count {
        put_pixel(colour, i, into);
    }
}

// Room for so many bytes.
fn zeros(alloc: Global, count: usize) -> Result<Vec<u8>, Memory>
    ensures { IfOk result (λ bytes. length bytes.items ≡ count) }
{
    Ok(vec![in alloc; 0u8; count]?)
}

/// A row of one colour, as bytes.
pub(crate) fn colour_row<const MAX: u32>(
    alloc: Global,
    colour: Pixel<MAX>,
    width: usize,
) -> Result<Vec<u8>, Memory>
    requires depth { IsDepth MAX }
    requires bound { width ≤ greatest_part }
    ensures pixels { IfOk result (λ bytes. pixels_of MAX bytes.items ≡ replicate width colour.entry) }
    ensures packed { IfOk result (λ bytes. IsPacked MAX bytes.items) }
{
    let mut row = zeros(alloc, pixel_size::<MAX>() * width)?;
    fill_packed(colour, width, &mut row);
    Ok(row)
}
