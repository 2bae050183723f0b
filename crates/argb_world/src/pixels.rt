//! The pixels of a picture in rows. How they are kept is known here alone.
ghost use Rattle.std.specs.Prelude.{◌≡◌, ◌≤◌, ◌<◌, ◌+◌, ◌*◌, ◌∷◌, [], All, flat_map, IfOk, IfSome, length, replicate, slice_index_or, slice_set, vec_len, vec_capacity};
ghost use Rattle.std.specs.List.{between};
ghost use borrow.Rule.Slice.PartMut.{put_mid};
ghost use Rattle.argb_pixel.specs.Depth.{IsDepth};
ghost use Rattle.argb_pixel.specs.Pixel.{clear, IsPremultiplied};
ghost use Rattle.argb_pixel.specs.Packed.{pixel_size, packed, pixels_of, IsPacked};
ghost use Rattle.argb_world.specs.Kept.{kept, IsKept, IsInRow};
ghost use Rattle.argb_world.specs.Picture.{span_of, IsReach, greatest_part};

use crate::packed::{colour_row, pack_row, unpack_row};
use crate::world::World;
use argb_pixel::{Pixel, pixel_in, pixel_size, put_pixel};
use host_io::Memory;
use std::alloc::Global;
use std::marker::Model;

/// Pixels in rows, as bytes. The upper rows are written out; all others are of one colour, and there is room for them.
#[derive(Debug, Drop)]
pub(crate) struct Pixels<const MAX: u32> {
    written: Vec<u8>,
    ground: Ground<MAX>,
}

/// What all pixels are that are not written out.
#[derive(Debug, Drop)]
struct Ground<const MAX: u32> {
    colour: Pixel<MAX>,
    // the bytes of a row of the colour
    row: Vec<u8>,
    // how many pixels a row has
    width: usize,
    // how many pixels there are in all, written out or not
    count: usize,
}

impl<const MAX: u32> Model for Pixels<MAX> {
    ghost use Rattle.std.specs.Prelude.{vec_capacity, length};
    ghost use Rattle.argb_pixel.specs.Packed.{pixels_of};
    ghost use Rattle.argb_world.specs.Kept.{Rows, kept, IsKept};

    ghost Value = { Rows };

    ghost view = { λ p. record { width = p.ground.width; pixels = kept MAX p.written.items p.ground.count p.ground.colour } };

    ghost invariant = { λ p. IsKept MAX p.written.items (vec_capacity p.written) p.ground.count p.ground.width p.ground.row.items p.ground.colour };
}

impl<const MAX: u32> Pixels<MAX> {
    /// So many rows of so many pixels of one colour.
    pub(crate) fn new(
        alloc: Global,
        width: usize,
        height: usize,
        colour: Pixel<MAX>,
    ) -> Result<Pixels<MAX>, Memory>
        requires depth { IsDepth MAX }
        requires bound { width * height ≤ greatest_part }
        ensures width { IfOk result (λ p. 0 < height → p.width ≡ width) }
        ensures pixels { IfOk result (λ p. p.pixels ≡ replicate (width * height) colour.entry) }
    {
        let width = row_width(width, height);
        let count = width * height;
        let written = Vec::with_capacity(alloc, pixel_size::<MAX>() * count)?;
        let row = colour_row(alloc, colour, width)?;
        Ok(Pixels {
            written,
            ground: Ground {
                colour,
                row,
                width,
                count,
            },
        })
    }

    /// The colour of all pixels, where it is known to be one.
    pub(crate) fn colour(&self) -> Option<Pixel<MAX>>
        ensures { IfSome result (λ colour. self.now.pixels ≡ replicate (length self.now.pixels) colour) }
    {
        if self.written.is_empty() {
            Some(self.ground.colour)
        } else {
            None
        }
    }

    /// All pixels are premultiplied. The call does nothing: its contract is the fact.
    #[inline(always)]
    pub(crate) fn are_premultiplied(&self)
        ensures { All (IsPremultiplied MAX) self.now.pixels }
    {
        let _alpha = self.ground.colour.a();
    }

    /// The pixel at a place.
    pub(crate) fn get(&self, at: usize) -> Pixel<MAX>
        requires { at < length self.now.pixels }
        ensures { result ≡ slice_index_or self.now.pixels at clear }
    {
        if self.written.len() > pixel_size::<MAX>() * at {
            pixel_in(&self.written, at)
        } else {
            self.ground.colour
        }
    }

    /// The bytes of so many pixels of a row, from a place on.
    pub(crate) fn lend(&self, start: usize, count: usize) -> &[u8]
        requires row { IsInRow self.now.width start count }
        requires there { start + count ≤ length self.now.pixels }
        ensures depth { IsDepth MAX }
        ensures packed { IsPacked MAX result.now }
        ensures pixels { pixels_of MAX result.now ≡ between start (start + count) self.now.pixels }
    {
        if self.written.len() > pixel_size::<MAX>() * start {
            part::<MAX>(&self.written, start, count)
        } else {
            part::<MAX>(&self.ground.row, 0, count)
        }
    }

    /// The pixels of a row from a place on.
    pub(crate) fn read(&self, start: usize, into: &mut [Pixel<MAX>])
        requires row { IsInRow self.now.width start (length into.old) }
        requires there { start + length into.old ≤ length self.now.pixels }
        ensures { into.new ≡ between start (start + length into.old) self.now.pixels }
    {
        unpack_row(self.lend(start, into.len()), into);
    }

    /// The bytes of so many pixels of a row, from a place on.
    pub(crate) fn read_packed(&self, start: usize, count: usize, into: &mut [u8])
        requires row { IsInRow self.now.width start count }
        requires there { start + count ≤ length self.now.pixels }
        requires long { length into.old ≡ pixel_size MAX * count }
        ensures packed { IsPacked MAX into.new }
        ensures pixels { pixels_of MAX into.new ≡ between start (start + count) self.now.pixels }
    {
        into.copy_from_slice(self.lend(start, count));
    }

    /// The bytes of all pixels. It takes no memory.
    pub(crate) fn into_packed(self) -> Vec<u8>
        ensures { result.items ≡ flat_map (packed MAX) self.entry.pixels }
    {
        let Pixels {
            mut written,
            ground,
        } = self;
        write_out(&mut written, &ground, ground.count);
        written
    }

    /// Sets the pixel at a place.
    pub(crate) fn set(&mut self, at: usize, pixel: Pixel<MAX>)
        requires { at < length self.old.pixels }
        ensures width { self.new.width ≡ self.old.width }
        ensures pixels { self.new.pixels ≡ slice_set self.old.pixels at pixel.entry }
    {
        write_out(&mut self.written, &self.ground, at + 1);
        put_pixel(pixel, at, &mut self.written);
    }

    /// Sets the pixels from a place on.
    pub(crate) fn write(&mut self, start: usize, from: &[Pixel<MAX>])
        requires { start + length from.now ≤ length self.old.pixels }
        ensures width { self.new.width ≡ self.old.width }
        ensures pixels { self.new.pixels ≡ put_mid start (length from.now) self.old.pixels from.now }
    {
        write_out(&mut self.written, &self.ground, start + from.len());
        write_from(&mut self.written, start, from);
    }

    /// Sets so many pixels from a place on to those of bytes.
    pub(crate) fn write_packed(&mut self, start: usize, count: usize, from: &[u8])
        requires there { start + count ≤ length self.old.pixels }
        requires long { length from.now ≡ pixel_size MAX * count }
        requires packed { IsPacked MAX from.now }
        ensures width { self.new.width ≡ self.old.width }
        ensures pixels { self.new.pixels ≡ put_mid start count self.old.pixels (pixels_of MAX from.now) }
    {
        write_out(&mut self.written, &self.ground, start + count);
        write_bytes::<MAX>(&mut self.written, start, count, from);
    }

    /// Sets so many pixels from a place on to a row of points of a picture, from `(x, y)` to the right.
    pub(crate) fn copy(&mut self, start: usize, count: usize, from: &World<MAX>, x: i64, y: i64)
        requires there { start + count ≤ length self.old.pixels }
        requires reach { IsReach x }
        ensures width { self.new.width ≡ self.old.width }
        ensures pixels { self.new.pixels ≡ put_mid start count self.old.pixels (span_of from.now x y count) }
    {
        write_out(&mut self.written, &self.ground, start + count);
        copy_over(&mut self.written, start, count, from, x, y);
    }
}

// How many pixels a row has: none where there are no rows.
fn row_width(width: usize, height: usize) -> usize
    ensures rows { 0 < height → result ≡ width }
    ensures none { height ≡ 0 → result ≡ 0 }
{
    if height == 0 { 0 } else { width }
}

// Writes out rows until so many pixels are, where there is room for them.
fn write_out<const MAX: u32>(written: &mut Vec<u8>, ground: &Ground<MAX>, end: usize)
    requires kept { IsKept MAX written.old.items (vec_capacity written.old) ground.now.count ground.now.width ground.now.row.items ground.now.colour }
    requires there { end ≤ ground.now.count }
    ensures kept { IsKept MAX written.new.items (vec_capacity written.new) ground.now.count ground.now.width ground.now.row.items ground.now.colour }
    ensures same { kept MAX written.new.items ground.now.count ground.now.colour ≡ kept MAX written.old.items ground.now.count ground.now.colour }
    ensures enough { pixel_size MAX * end ≤ length written.new.items }
{
    let bytes = pixel_size::<MAX>() * end;
    while written.len() < bytes {
        let _ = written.extend_from_slice(&ground.row);
    }
}

// The bytes of so many pixels from a place on.
fn part<const MAX: u32>(bytes: &[u8], start: usize, count: usize) -> &[u8]
    requires depth { IsDepth MAX }
    requires there { pixel_size MAX * (start + count) ≤ length bytes.now }
    requires packed { IsPacked MAX bytes.now }
    ensures packed { IsPacked MAX result.now }
    ensures pixels { pixels_of MAX result.now ≡ between start (start + count) (pixels_of MAX bytes.now) }
{
    let size = pixel_size::<MAX>();
    &bytes[size * start..size * (start + count)]
}

// Writes over the pixels from a place on.
fn write_from<const MAX: u32>(bytes: &mut [u8], start: usize, from: &[Pixel<MAX>])
    requires depth { IsDepth MAX }
    requires there { pixel_size MAX * (start + length from.now) ≤ length bytes.old }
    requires packed { IsPacked MAX bytes.old }
    ensures long { length bytes.new ≡ length bytes.old }
    ensures packed { IsPacked MAX bytes.new }
    ensures pixels { pixels_of MAX bytes.new ≡ put_mid start (length from.now) (pixels_of MAX bytes.old) from.now }
{
    let size = pixel_size::<MAX>();
    pack_row(from, &mut bytes[size * start..size * (start + from.len())]);
}

// Writes over so many pixels from a place on by bytes.
fn write_bytes<const MAX: u32>(bytes: &mut [u8], start: usize, count: usize, from: &[u8])
    requires depth { IsDepth MAX }
    requires there { pixel_size MAX * (start + count) ≤ length bytes.old }
    requires long { length from.now ≡ pixel_size MAX * count }
    requires packed { IsPacked MAX bytes.old }
    requires from { IsPacked MAX from.now }
    ensures long { length bytes.new ≡ length bytes.old }
    ensures packed { IsPacked MAX bytes.new }
    ensures pixels { pixels_of MAX bytes.new ≡ put_mid start count (pixels_of MAX bytes.old) (pixels_of MAX from.now) }
{
    let size = pixel_size::<MAX>();
    bytes[size * start..size * (start + count)].copy_from_slice(from);
}

// Writes a row of points of a picture over so many pixels from a place on.
fn copy_over<const MAX: u32>(
    bytes: &mut [u8],
    start: usize,
    count: usize,
    from: &World<MAX>,
    x: i64,
    y: i64,
)
    requires depth { IsDepth MAX }
    requires there { pixel_size MAX * (start + count) ≤ length bytes.old }
    requires packed { IsPacked MAX bytes.old }
    requires reach { IsReach x }
    ensures long { length bytes.new ≡ length bytes.old }
    ensures packed { IsPacked MAX bytes.new }
    ensures pixels { pixels_of MAX bytes.new ≡ put_mid start count (pixels_of MAX bytes.old) (span_of from.now x y count) }
{
    let size = pixel_size::<MAX>();
    from.read_packed_span(
        x,
        y,
        count,
        &mut bytes[size * start..size * (start + count)],
    );
}
