ghost use Rattle.std.specs.Prelude.{◌≡◌, ◌≤◌, ℕ, ℤ, pos, flat_map, IfOk, IfSome, length, ◌+◌, ◌-◌, ◌*◌, ◌<◌, ◌+ℤ◌, ◌↔◌, IsTrue};
ghost use Rattle.std.specs.Prelude.{◌≤ℤ◌, ◌<ℤ◌, ◌-ℤ◌};
ghost use Rattle.std.specs.List.{between};
ghost use borrow.Rule.Slice.PartMut.{put_mid};
ghost use Rattle.geom_rect.specs.Rect.{Has, IsWithin, area_of, positive_part, count_between, width_of};
ghost use Rattle.argb_world.specs.Picture.{IsPicture, place_of, HasRow, HasSpan, IsReach, greatest_part};
ghost use Rattle.argb_pixel.specs.Depth.{IsDepth};
ghost use Rattle.argb_pixel.specs.Pixel.{clear, IsPremultiplied};
ghost use Rattle.argb_pixel.specs.Packed.{pixel_size, packed, pixels_of, IsPacked};
ghost use Rattle.argb_world.specs.Kept.{IsInRow};

use crate::packed::fill_row;
use crate::pixels::Pixels;
use argb_pixel::{Pixel, Transparent, clear_packed, pixel_size};
use geom_rect::Rect;
use host_io::Memory;
use std::alloc::Global;
use std::marker::Model;

/// A picture of premultiplied pixels: an extent, a part inside it, and one pixel for each point of the
/// part, which has at most 419,430,400 of them. `MAX` is the greatest value of a channel, 255 or 32768.
/// The type is this project's own.
#[derive(Debug, Drop)]
pub struct World<const MAX: u32> {
    extent: Rect,
    part: Rect,
    pixels: Pixels<MAX>,
}

impl<const MAX: u32> Model for World<MAX> {
    ghost use Rattle.argb_world.specs.Picture.{Picture};
    ghost use Rattle.argb_world.specs.Kept.{IsWorldOf};

    ghost Value = { Picture };

    ghost view = { λ w. record { extent = w.extent; part = w.part; pixels = w.pixels.pixels } };

    ghost invariant = { λ w. IsWorldOf MAX record { extent = w.extent; part = w.part; pixels = w.pixels.pixels } w.pixels.width };
}

impl<const MAX: u32> World<MAX> {
    ghost use Rattle.argb_world.specs.Picture.{
      at,
      row_of,
      span_of,
      SameExtentAndPart,
      StaysBeside,
      StaysOffRow,
      StaysOffSpan,
      AgreesOn,
    };

    /// A transparent picture. It answers `Memory` where its pixels find no room.
    pub fn blank(alloc: Global, extent: Rect, part: Rect) -> Result<World<MAX>, Memory>
        requires depth { IsDepth MAX }
        requires inside { IsWithin part extent }
        requires bound { area_of part ≤ greatest_part }
        ensures extent { IfOk result (λ w. w.extent ≡ extent) }
        ensures part { IfOk result (λ w. w.part ≡ part) }
        ensures transparent { IfOk result (λ w. (x y : ℤ) → at w x y ≡ clear) }
    {
        let pixels = Pixels::new(alloc, width(&part), height(&part) as usize, Pixel::CLEAR)?;
        Ok(World {
            extent,
            part,
            pixels,
        })
    }

    /// A picture of one colour over its whole extent. Its pixels have room, but as long as none is set they are not
    /// written out. It answers `Memory` where they find no room.
    pub fn solid(alloc: Global, extent: Rect, colour: Pixel<MAX>) -> Result<World<MAX>, Memory>
        requires depth { IsDepth MAX }
        requires bound { area_of extent ≤ greatest_part }
        ensures extent { IfOk result (λ w. w.extent ≡ extent) }
        ensures part { IfOk result (λ w. w.part ≡ extent) }
        ensures colour { IfOk result (λ w. (x y : ℤ) → Has extent x y → at w x y ≡ colour.entry) }
    {
        let pixels = Pixels::new(alloc, width(&extent), height(&extent) as usize, colour)?;
        Ok(World {
            extent,
            part: extent,
            pixels,
        })
    }

    /// The same extent, and of the pixels those of a part inside the old one. It answers `Memory` where they find no
    /// room.
    pub fn crop(&self, alloc: Global, part: Rect) -> Result<World<MAX>, Memory>
        requires { IsWithin part self.now.part }
        ensures extent { IfOk result (λ w. w.extent ≡ self.now.extent) }
        ensures part { IfOk result (λ w. w.part ≡ part) }
        ensures copied { IfOk result (λ w. AgreesOn part self.now w) }
    {
        let mut world = World::blank(alloc, self.extent, part)?;
        world.copy_from(self);
        Ok(world)
    }

    /// The rectangle that it stands for.
    pub fn extent(&self) -> Rect
        ensures { result ≡ self.now.extent }
    {
        self.extent
    }

    /// The part that has pixels. At each point, also outside of it, the picture is premultiplied.
    pub fn part(&self) -> Rect
        ensures value { result ≡ self.now.part }
        ensures inside { IsWithin result self.now.extent }
        ensures bound { area_of result ≤ greatest_part }
        ensures depth { IsDepth MAX }
        ensures pixels { (x y : ℤ) → IsPremultiplied MAX (at self.now x y) }
    {
        self.pixels.are_premultiplied();
        self.part
    }

    /// Its picture has a pixel for each point of its part. The call does nothing: its contract is the fact.
    #[inline(always)]
    pub fn pixels_fill_part(&self)
        ensures { IsPicture self.now }
    {
        let _part = self.part;
    }

    /// The one colour that it has at each point of its part, where it is kept as one.
    pub fn colour(&self) -> Option<Pixel<MAX>>
        ensures { IfSome result (λ colour. (x y : ℤ) → Has self.now.part x y → at self.now x y ≡ colour) }
    {
        self.pixels.colour()
    }

    /// The pixel at a point, transparent outside the part.
    pub fn at(&self, x: i32, y: i32) -> Pixel<MAX>
        ensures { result ≡ at self.now x y }
    {
        if self.part.has(x, y) {
            self.pixels.get(place(&self.part, x, y))
        } else {
            Pixel::CLEAR
        }
    }

    /// Sets the pixel at a point of the part. All other points stay.
    pub fn set(&mut self, x: i32, y: i32, p: Pixel<MAX>)
        requires { Has self.old.part x y }
        ensures frame { SameExtentAndPart self.old self.new }
        ensures set { at self.new x y ≡ p.entry }
        ensures others { StaysBeside x y self.old self.new }
    {
        let at = place(&self.part, x, y);
        self.pixels.set(at, p);
    }

    /// The part's pixels at the height `y`, from the left.
    pub fn row(&self, y: i32, into: &mut [Pixel<MAX>])
        requires height { HasRow self.now.part y }
        requires width { length into.old ≡ width_of self.now.part }
        ensures { into.new ≡ row_of self.now y }
    {
        let start = place(&self.part, self.part.left, y);
        self.pixels.read(start, into);
    }

    /// Sets the part's pixels at the height `y`, from the left. All other heights stay.
    pub fn set_row(&mut self, y: i32, from: &[Pixel<MAX>])
        requires height { HasRow self.old.part y }
        requires width { length from.now ≡ width_of self.old.part }
        ensures frame { SameExtentAndPart self.old self.new }
        ensures row { row_of self.new y ≡ from.now }
        ensures others { StaysOffRow y self.old self.new }
    {
        let start = place(&self.part, self.part.left, y);
        self.pixels.write(start, from);
    }

    /// Which of so many points from `(x, y)` to the right are in the part: from the first number on, to before the
    /// second. `x` is within -8,589,934,592..=8,589,934,592.
    pub fn covered(&self, x: i64, y: i64, count: usize) -> (usize, usize)
        requires { IsReach x }
        ensures order { result.0 ≤ result.1 }
        ensures within { result.1 ≤ count }
        ensures inside { (k : ℕ) → k < count → (Has self.now.part (x +ℤ pos k) y ↔ ((result.0 ≤ k) × (k < result.1))) }
    {
        if has_row(&self.part, y) {
            overlap(self.part.left, self.part.right, x, count)
        } else {
            (0, 0)
        }
    }

    /// The pixels of a row of points, from `(x, y)` to the right. They are transparent outside the part. `x` is within
    /// -8,589,934,592..=8,589,934,592.
    pub fn read_span(&self, x: i64, y: i64, into: &mut [Pixel<MAX>])
        requires { IsReach x }
        ensures { into.new ≡ span_of self.now x y (length into.old) }
    {
        let (start, end) = self.covered(x, y, into.len());
        fill_row(Pixel::CLEAR, into);
        if start < end {
            let from = place_along(&self.part, x, y, start);
            read_middle(&self.pixels, from, into, start, end);
        }
    }

    /// The bytes of the part's pixels at the height `y`, from the left: alpha, red, green and blue, one byte a channel where
    /// `MAX` is 255 and two, the greater part first, where it is 32768.
    pub fn packed_row(&self, y: i32) -> &[u8]
        requires { HasRow self.now.part y }
        ensures long { length result.now ≡ pixel_size MAX * width_of self.now.part }
        ensures packed { IsPacked MAX result.now }
        ensures pixels { pixels_of MAX result.now ≡ row_of self.now y }
    {
        let start = place(&self.part, self.part.left, y);
        self.pixels.lend(start, width(&self.part))
    }

    /// Sets the part's pixels at the height `y` to those of the bytes, from the left. All other heights stay.
    pub fn set_packed_row(&mut self, y: i32, bytes: &[u8])
        requires height { HasRow self.old.part y }
        requires width { length bytes.now ≡ pixel_size MAX * width_of self.old.part }
        requires packed { IsPacked MAX bytes.now }
        ensures frame { SameExtentAndPart self.old self.new }
        ensures row { row_of self.new y ≡ pixels_of MAX bytes.now }
        ensures others { StaysOffRow y self.old self.new }
    {
        let start = place(&self.part, self.part.left, y);
        self.pixels.write_packed(start, width(&self.part), bytes);
    }

    /// The bytes of all pixels of the part, its rows from top to bottom, as `packed_row` has them. It takes no memory.
    pub fn into_packed(self) -> Vec<u8>
        ensures depth { IsDepth MAX }
        ensures picture { IsPicture self.entry }
        ensures bytes { result.items ≡ flat_map (packed MAX) self.entry.pixels }
    {
        let World {
            extent: _,
            part: _,
            pixels,
        } = self;
        pixels.into_packed()
    }

    /// The bytes of the pixels of a row of points, from `(x, y)` to the right, as they are kept: none where the points are not
    /// all in the part, or there are none. `x` is within -8,589,934,592..=8,589,934,592.
    pub fn packed_span(&self, x: i64, y: i64, count: usize) -> Option<&[u8]>
        requires { IsReach x }
        ensures long { IfSome result (λ row. length row.now ≡ pixel_size MAX * count) }
        ensures packed { IfSome result (λ row. IsPacked MAX row.now) }
        ensures pixels { IfSome result (λ row. pixels_of MAX row.now ≡ span_of self.now x y count) }
    {
        let (start, end) = self.covered(x, y, count);
        if start == 0 && end == count && start < end {
            Some(
                self.pixels
                    .lend(place_along(&self.part, x, y, start), count),
            )
        } else {
            None
        }
    }

    /// The bytes of the pixels of a row of points, from `(x, y)` to the right. They are transparent outside the part. `x` is
    /// within -8,589,934,592..=8,589,934,592.
    pub fn read_packed_span(&self, x: i64, y: i64, count: usize, into: &mut [u8])
        requires reach { IsReach x }
        requires long { length into.old ≡ pixel_size MAX * count }
        ensures packed { IsPacked MAX into.new }
        ensures pixels { pixels_of MAX into.new ≡ span_of self.now x y count }
    {
        match self.packed_span(x, y, count) {
            Some(row) => into.copy_from_slice(row),
            None => self.read_packed_part(x, y, count, into),
        }
    }

    // The same where some of the points are not in the part.
    fn read_packed_part(&self, x: i64, y: i64, count: usize, into: &mut [u8])
        requires reach { IsReach x }
        requires long { length into.old ≡ pixel_size MAX * count }
        ensures packed { IsPacked MAX into.new }
        ensures pixels { pixels_of MAX into.new ≡ span_of self.now x y count }
    {
        let part = self.part;
        let (start, end) = self.covered(x, y, count);
        clear_packed::<MAX>(count, into);
        if start < end {
            let from = place_along(&part, x, y, start);
            read_packed_middle(&self.pixels, from, into, start, end - start);
        }
    }

    /// Sets the pixels of a row of so many points, from `(x, y)` to the right, to those of the bytes. All are in the part, and
    /// all other points stay.
    pub fn set_packed_span(&mut self, x: i32, y: i32, count: usize, from: &[u8])
        requires there { HasSpan self.old.part x y count }
        requires long { length from.now ≡ pixel_size MAX * count }
        requires packed { IsPacked MAX from.now }
        ensures frame { SameExtentAndPart self.old self.new }
        ensures span { span_of self.new x y count ≡ pixels_of MAX from.now }
        ensures others { StaysOffSpan x y count self.old self.new }
    {
        let start = place(&self.part, x, y);
        self.pixels.write_packed(start, count, from);
    }

    /// Sets the pixels of a row of points, from `(x, y)` to the right. All are in the part, and all other points stay.
    pub fn set_span(&mut self, x: i32, y: i32, from: &[Pixel<MAX>])
        requires { HasSpan self.old.part x y (length from.now) }
        ensures frame { SameExtentAndPart self.old self.new }
        ensures span { span_of self.new x y (length from.now) ≡ from.now }
        ensures others { StaysOffSpan x y (length from.now) self.old self.new }
    {
        let start = place(&self.part, x, y);
        self.pixels.write(start, from);
    }

    /// Each point of its part gets what the other picture has there.
    pub fn copy_from(&mut self, from: &World<MAX>)
        ensures frame { SameExtentAndPart self.old self.new }
        ensures copied { AgreesOn self.old.part from.now self.new }
    {
        for k in 0..height(&self.part) {
            self.copy_row(from, k);
        }
    }

    // A row of the part, `k` below its top, gets what the other picture has there.
    fn copy_row(&mut self, from: &World<MAX>, k: u32)
        requires { k < count_between self.old.part.top self.old.part.bottom }
        ensures frame { SameExtentAndPart self.old self.new }
        ensures row { row_of self.new (self.old.part.top +ℤ pos k)
            ≡ span_of from.now self.old.part.left (self.old.part.top +ℤ pos k) (width_of self.old.part) }
        ensures others { StaysOffRow (self.old.part.top +ℤ pos k) self.old self.new }
    {
        let start = row_start(&self.part, k);
        let count = width(&self.part);
        let y = row_height(&self.part, k);
        self.pixels
            .copy(start, count, from, self.part.left as i64, y);
    }
}

// How far a number is above another.
fn offset(low: i32, x: i32) -> usize
    requires { low ≤ℤ x }
    ensures { result ≡ positive_part (x -ℤ low) }
{
    x.abs_diff(low) as usize
}

// How many points a row has.
fn width(part: &Rect) -> usize
    ensures { result ≡ width_of part.now }
{
    if part.left < part.right {
        offset(part.left, part.right)
    } else {
        0
    }
}

// How many rows it has.
fn height(part: &Rect) -> u32
    ensures { result ≡ count_between part.now.top part.now.bottom }
{
    if part.top < part.bottom {
        (part.bottom as i64 - part.top as i64) as u32
    } else {
        0
    }
}

// The height of a row, `k` below the top.
fn row_height(part: &Rect, k: u32) -> i64
    ensures { result ≡ part.now.top +ℤ pos k }
{
    part.top as i64 + k as i64
}

// Where the first pixel of a row stands, `k` below the top.
fn row_start(part: &Rect, k: u32) -> usize
    requires there { k < count_between part.now.top part.now.bottom }
    requires bound { area_of part.now ≤ greatest_part }
    ensures { result ≡ k * width_of part.now }
{
    k as usize * width(part)
}

// Whether the rectangle has points at this height, if it has columns.
fn has_row(part: &Rect, y: i64) -> bool
    ensures { IsTrue result ↔ HasRow part.now y }
{
    part.top as i64 <= y && y < part.bottom as i64
}

// How far a number is below another, 0 where it is not.
fn below(x: i64, high: i32) -> usize
    requires { IsReach x }
    ensures { result ≡ positive_part (high -ℤ x) }
{
    if x < high as i64 {
        (high as i64 - x) as usize
    } else {
        0
    }
}

// How far a number is above another, 0 where it is not.
fn above(low: i32, x: i64) -> usize
    requires { IsReach x }
    ensures { result ≡ positive_part (x -ℤ low) }
{
    if low as i64 <= x {
        (x - low as i64) as usize
    } else {
        0
    }
}

// Which of so many numbers from `x` on are from `low`, inclusive, to `high`, exclusive.
fn overlap(low: i32, high: i32, x: i64, count: usize) -> (usize, usize)
    requires { IsReach x }
    ensures order { result.0 ≤ result.1 }
    ensures within { result.1 ≤ count }
    ensures inside { (k : ℕ) → k < count
        → (((low ≤ℤ (x +ℤ pos k)) × ((x +ℤ pos k) <ℤ high)) ↔ ((result.0 ≤ k) × (k < result.1))) }
{
    let start = below(x, low).min(count);
    let end = below(x, high).min(count);
    (start, end.max(start))
}

// How far the point that is `k` to the right of the column `x` is from the left side.
fn column(left: i32, x: i64, k: usize) -> usize
    requires reach { IsReach x }
    requires low { left ≤ℤ (x +ℤ pos k) }
    requires high { (x +ℤ pos k) <ℤ pos 2147483648 }
    ensures { result ≡ positive_part ((x +ℤ pos k) -ℤ left) }
{
    above(left, x) + k - below(x, left)
}

// Where the pixel of the point stands that is `k` to the right of `(x, y)`.
fn place_along(part: &Rect, x: i64, y: i64, k: usize) -> usize
    requires reach { IsReach x }
    requires there { Has part.now (x +ℤ pos k) y }
    requires bound { area_of part.now ≤ greatest_part }
    ensures { result ≡ place_of part.now (x +ℤ pos k) y }
{
    above(part.top, y) * width(part) + column(part.left, x, k)
}

// Where the pixel of a point stands: the end of a row has a place too.
fn place(part: &Rect, x: i32, y: i32) -> usize
    requires height { HasRow part.now y }
    requires left { part.now.left ≤ℤ x }
    requires column { positive_part (x -ℤ part.now.left) ≤ width_of part.now }
    requires bound { area_of part.now ≤ greatest_part }
    ensures { result ≡ place_of part.now x y }
{
    offset(part.top, y) * width(part) + offset(part.left, x)
}

// Copies pixels of a row, from a place on, into the middle of another.
fn read_middle<const MAX: u32>(
    pixels: &Pixels<MAX>,
    from: usize,
    into: &mut [Pixel<MAX>],
    start: usize,
    end: usize,
)
    requires order { start ≤ end }
    requires within { end ≤ length into.old }
    requires row { IsInRow pixels.now.width from (end - start) }
    requires there { from + (end - start) ≤ length pixels.now.pixels }
    ensures { into.new ≡ put_mid start (end - start) into.old (between from (from + (end - start)) pixels.now.pixels) }
{
    pixels.read(from, &mut into[start..end]);
}

// Copies the bytes of so many pixels of a row, from a place on, into those of another, from the pixel `start` on.
fn read_packed_middle<const MAX: u32>(
    pixels: &Pixels<MAX>,
    from: usize,
    into: &mut [u8],
    start: usize,
    count: usize,
)
    requires depth { IsDepth MAX }
    requires within { pixel_size MAX * (start + count) ≤ length into.old }
    requires row { IsInRow pixels.now.width from count }
    requires there { from + count ≤ length pixels.now.pixels }
    requires packed { IsPacked MAX into.old }
    ensures packed { IsPacked MAX into.new }
    ensures pixels { pixels_of MAX into.new
        ≡ put_mid start count (pixels_of MAX into.old) (between from (from + count) pixels.now.pixels) }
{
    let size = pixel_size::<MAX>();
    pixels.read_packed(from, count, &mut into[size * start..size * (start + count)]);
}
