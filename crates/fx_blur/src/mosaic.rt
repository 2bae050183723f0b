ghost use Rattle.std.specs.Prelude.{◌≡◌, ◌+◌, ◌*◌, ◌<◌, ◌≤◌, ℕ, ℤ, pos, ◌+ℤ◌, ◌-ℤ◌, ◌≤ℤ◌, ◌<ℤ◌, length, slice_index_or, OnOk, IsTrue, ◌↔◌};
ghost use Rattle.geom_rect.specs.Rect.{Has, count_between, width_of};
ghost use Rattle.argb_pixel.specs.Depth.{IsDepth};
ghost use Rattle.argb_pixel.specs.Pixel.{clear};
ghost use Rattle.argb_pixel.specs.Packed.{pixel_size};
ghost use Rattle.argb_world.specs.Picture.{at, HasRow, SameExtentAndPart, StaysOffRow};
ghost use Rattle.comp_stack.specs.Layers.{plane_of};
ghost use Rattle.effect_api.specs.Effects.{Shows};
ghost use Rattle.fx_blur.specs.Mosaic.{block_start, block_end, mosaic_at};
ghost use Rattle.fx_blur.specs.Columns.{AreSummed, HasBlock, ServesBand, block_mean};

use crate::block_sides::{block_end, block_start, blocks};
use crate::columns::sum_rows;
use crate::means::sum_columns;
use crate::rows::{byte_room, count, number_at, pixel_room, sum_room};
use crate::sums::Sums;
use argb_pixel::{Pixel, Transparent};
use argb_world::World;
use geom_rect::Rect;
use host_io::Memory;
use std::alloc::Global;

// Numbers from `low`, inclusive, to `high`, exclusive.
#[derive(Clone, Copy)]
struct Band {
    low: i32,
    high: i32,
}

impl Band {
    // Whether the number is one of them.
    fn has(self, x: i32) -> bool
        ensures { IsTrue result ↔ ((self.low ≤ℤ x) × (x <ℤ self.high)) }
    {
        self.low <= x && x < self.high
    }
}

// A pixel of all columns from `low`, inclusive, to `high`, exclusive.
#[derive(Clone, Copy)]
struct Stripe<const MAX: u32> {
    low: i32,
    high: i32,
    pixel: Pixel<MAX>,
}

// Whether the rectangle has the height, if it has columns.
fn has_row(rect: &Rect, y: i32) -> bool
    ensures { IsTrue result ↔ HasRow rect.now y }
{
    rect.top <= y && y < rect.bottom
}

// Where the columns of the block of x begin, counted from `start`, and how many there are.
fn block_columns(size: u32, sides: Band, start: i32, x: i32) -> (u32, u32)
    requires some { 0 < size }
    requires low { sides.low ≤ℤ x }
    ensures place { result.0 ≡ count_between start (block_start size sides.low x) }
    ensures wide { result.1 ≡ count_between (block_start size sides.low x) (block_end size sides.low sides.high x) }
{
    let left = block_start(size, sides.low, x);
    let right = block_end(size, sides.low, sides.high, x);
    (count(start, left), count(left, right))
}

// The mean of the block of x, of whose columns so many rows are summed. The first column stands at `start`.
fn block_mean<const MAX: u32>(
    size: u32,
    sides: Band,
    start: i32,
    rows: u32,
    columns: &[Sums],
    x: i32,
) -> Pixel<MAX>
    requires summed { AreSummed MAX size rows columns.now }
    requires low { sides.low ≤ℤ x }
    requires high { x <ℤ sides.high }
    requires there { HasBlock size sides.low sides.high start (length columns.now) x }
    ensures { result ≡ block_mean size sides.low sides.high start rows columns.now x }
{
    let (place, wide) = block_columns(size, sides, start, x);
    let sum = sum_columns(columns, place as usize, wide);
    sum.mean(wide as u64 * rows as u64)
}

// The stripe that has x.
fn stripe_at<const MAX: u32>(
    size: u32,
    sides: Band,
    start: i32,
    rows: u32,
    columns: &[Sums],
    x: i32,
) -> Stripe<MAX>
    requires summed { AreSummed MAX size rows columns.now }
    requires right { x <ℤ pos 2147483647 }
    requires there { sides.low ≤ℤ x → x <ℤ sides.high → HasBlock size sides.low sides.high start (length columns.now) x }
    ensures low { result.low ≤ℤ x }
    ensures high { x <ℤ result.high }
    ensures pixel { (u : ℤ) → result.low ≤ℤ u → u <ℤ result.high
        → result.pixel ≡ block_mean size sides.low sides.high start rows columns.now u }
{
    if sides.has(x) {
        Stripe {
            low: block_start(size, sides.low, x),
            high: block_end(size, sides.low, sides.high, x),
            pixel: block_mean(size, sides, start, rows, columns, x),
        }
    } else {
        Stripe {
            low: x,
            high: x + 1,
            pixel: Pixel::CLEAR,
        }
    }
}

// The stripe becomes that which has x, where it is not.
fn move_stripe<const MAX: u32>(
    stripe: &mut Stripe<MAX>,
    size: u32,
    sides: Band,
    start: i32,
    rows: u32,
    columns: &[Sums],
    x: i32,
)
    requires summed { AreSummed MAX size rows columns.now }
    requires right { x <ℤ pos 2147483647 }
    requires there { sides.low ≤ℤ x → x <ℤ sides.high → HasBlock size sides.low sides.high start (length columns.now) x }
    requires pixel { (u : ℤ) → stripe.old.low ≤ℤ u → u <ℤ stripe.old.high
        → stripe.old.pixel ≡ block_mean size sides.low sides.high start rows columns.now u }
    ensures here { stripe.new.pixel ≡ block_mean size sides.low sides.high start rows columns.now x }
    ensures pixel { (u : ℤ) → stripe.new.low ≤ℤ u → u <ℤ stripe.new.high
        → stripe.new.pixel ≡ block_mean size sides.low sides.high start rows columns.now u }
{
    if stripe.low <= x && x < stripe.high {
        return;
    }
    *stripe = stripe_at(size, sides, start, rows, columns, x);
}

// Each pixel of a row from `left` to before `right` becomes the mean of its block, of whose columns so many rows are summed.
fn write_blocks<const MAX: u32>(
    size: u32,
    sides: Band,
    start: i32,
    rows: u32,
    columns: &[Sums],
    part: Rect,
    into: &mut [Pixel<MAX>],
)
    requires summed { AreSummed MAX size rows columns.now }
    requires room { length into.old ≡ width_of part }
    requires there { (u : ℤ) → part.left ≤ℤ u → u <ℤ part.right → sides.low ≤ℤ u → u <ℤ sides.high
        → HasBlock size sides.low sides.high start (length columns.now) u }
    ensures { (i : ℕ) → i < length into.old
        → slice_index_or into.new i clear ≡ block_mean size sides.low sides.high start rows columns.now (part.left +ℤ pos i) }
{
    let mut stripe = Stripe {
        low: 0,
        high: 0,
        pixel: Pixel::CLEAR,
    };
    for i in 0..count(part.left, part.right) {
        let x = number_at(part.left, part.right, i);
        move_stripe(&mut stripe, size, sides, start, rows, columns, x);
        into[i as usize] = stripe.pixel;
    }
}

// Each pixel of a row becomes transparent.
fn clear_row<const MAX: u32>(row: &mut [Pixel<MAX>])
    ensures { (k : ℕ) → k < length row.old → slice_index_or row.new k clear ≡ clear }
{
    row.fill(Pixel::CLEAR);
}

// A transparent row serves a height outside the extent.
fn fill_clear<const MAX: u32>(
    size: u32,
    input: &World<MAX>,
    part: Rect,
    y: i32,
    into: &mut [Pixel<MAX>],
) -> Band
    requires height { HasRow part y }
    requires outside { ¬ HasRow input.now.extent y }
    ensures low { result.low ≤ℤ y }
    ensures high { y <ℤ result.high }
    ensures serves { ServesBand (mosaic_at size (plane_of input.now)) part.left result.low result.high into.new }
{
    clear_row(into);
    Band {
        low: y,
        high: y + 1,
    }
}

// A row of blocks serves the heights of the blocks at y, which is inside the extent.
fn fill_blocks<const MAX: u32>(
    size: u32,
    input: &World<MAX>,
    part: Rect,
    start: i32,
    y: i32,
    columns: &mut [Sums],
    row: &mut [u8],
    into: &mut [Pixel<MAX>],
) -> Band
    requires depth { IsDepth MAX }
    requires some { 0 < size }
    requires few { size ≤ 1024 }
    requires height { HasRow part y }
    requires inside { HasRow input.now.extent y }
    requires bytes { length row.old ≡ pixel_size MAX * length columns.old }
    requires room { length into.old ≡ width_of part }
    requires there { (u : ℤ) → Has part u y → Has input.now.extent u y
        → HasBlock size input.now.extent.left input.now.extent.right start (length columns.old) u }
    ensures low { result.low ≤ℤ y }
    ensures high { y <ℤ result.high }
    ensures serves { ServesBand (mosaic_at size (plane_of input.now)) part.left result.low result.high into.new }
{
    let extent = input.extent();
    let top = block_start(size, extent.top, y);
    let bottom = block_end(size, extent.top, extent.bottom, y);
    let rows = count(top, bottom);
    sum_rows(columns, input, start as i64, top as i64, rows, row);
    let sides = Band {
        low: extent.left,
        high: extent.right,
    };
    write_blocks(size, sides, start, rows, columns, part, into);
    Band {
        low: top,
        high: bottom,
    }
}

// The row at a height, and the heights that it serves. `columns` are room for the sums of columns, of which the first stands at
// `start`, and `row` for a packed row of them.
fn fill_band<const MAX: u32>(
    size: u32,
    input: &World<MAX>,
    part: Rect,
    start: i32,
    y: i32,
    columns: &mut [Sums],
    row: &mut [u8],
    into: &mut [Pixel<MAX>],
) -> Band
    requires depth { IsDepth MAX }
    requires some { 0 < size }
    requires few { size ≤ 1024 }
    requires height { HasRow part y }
    requires bytes { length row.old ≡ pixel_size MAX * length columns.old }
    requires room { length into.old ≡ width_of part }
    requires there { (u : ℤ) → Has part u y → Has input.now.extent u y
        → HasBlock size input.now.extent.left input.now.extent.right start (length columns.old) u }
    ensures low { result.low ≤ℤ y }
    ensures high { y <ℤ result.high }
    ensures serves { ServesBand (mosaic_at size (plane_of input.now)) part.left result.low result.high into.new }
{
    let extent = input.extent();
    if has_row(&extent, y) {
        fill_blocks(size, input, part, start, y, columns, row, into)
    } else {
        fill_clear(size, input, part, y, into)
    }
}

// The row serves the height: as it is, or filled anew.
fn serve<const MAX: u32>(
    size: u32,
    input: &World<MAX>,
    part: Rect,
    start: i32,
    y: i32,
    band: Band,
    columns: &mut [Sums],
    row: &mut [u8],
    into: &mut [Pixel<MAX>],
) -> Band
    requires depth { IsDepth MAX }
    requires some { 0 < size }
    requires few { size ≤ 1024 }
    requires height { HasRow part y }
    requires bytes { length row.old ≡ pixel_size MAX * length columns.old }
    requires room { length into.old ≡ width_of part }
    requires there { (u : ℤ) → Has part u y → Has input.now.extent u y
        → HasBlock size input.now.extent.left input.now.extent.right start (length columns.old) u }
    requires serves { ServesBand (mosaic_at size (plane_of input.now)) part.left band.low band.high into.old }
    ensures low { result.low ≤ℤ y }
    ensures high { y <ℤ result.high }
    ensures serves { ServesBand (mosaic_at size (plane_of input.now)) part.left result.low result.high into.new }
{
    if band.has(y) {
        band
    } else {
        fill_band(size, input, part, start, y, columns, row, into)
    }
}

// The row of the target at a height. `band` has the heights that the row at hand serves.
fn mosaic_row<const MAX: u32>(
    size: u32,
    input: &World<MAX>,
    target: &mut World<MAX>,
    start: i32,
    y: i32,
    band: Band,
    columns: &mut [Sums],
    row: &mut [u8],
    into: &mut [Pixel<MAX>],
) -> Band
    requires depth { IsDepth MAX }
    requires some { 0 < size }
    requires few { size ≤ 1024 }
    requires height { HasRow target.old.part y }
    requires bytes { length row.old ≡ pixel_size MAX * length columns.old }
    requires room { length into.old ≡ width_of target.old.part }
    requires there { (u : ℤ) → Has target.old.part u y → Has input.now.extent u y
        → HasBlock size input.now.extent.left input.now.extent.right start (length columns.old) u }
    requires serves { ServesBand (mosaic_at size (plane_of input.now)) target.old.part.left band.low band.high into.old }
    ensures frame { SameExtentAndPart target.old target.new }
    ensures drawn { (x : ℤ) → Has target.old.part x y → at target.new x y ≡ mosaic_at size (plane_of input.now) x y }
    ensures others { StaysOffRow y target.old target.new }
    ensures serves { ServesBand (mosaic_at size (plane_of input.now)) target.old.part.left result.low result.high into.new }
{
    let part = target.part();
    let served = serve(size, input, part, start, y, band, columns, row, into);
    target.set_row(y, into);
    served
}

// Each row of the target, from the top.
fn mosaic_rows<const MAX: u32>(
    size: u32,
    input: &World<MAX>,
    target: &mut World<MAX>,
    start: i32,
    columns: &mut [Sums],
    row: &mut [u8],
    into: &mut [Pixel<MAX>],
)
    requires depth { IsDepth MAX }
    requires some { 0 < size }
    requires few { size ≤ 1024 }
    requires bytes { length row.old ≡ pixel_size MAX * length columns.old }
    requires room { length into.old ≡ width_of target.old.part }
    requires there { (u v : ℤ) → Has target.old.part u v → Has input.now.extent u v
        → HasBlock size input.now.extent.left input.now.extent.right start (length columns.old) u }
    ensures frame { SameExtentAndPart target.old target.new }
    ensures drawn { Shows target.old.part (mosaic_at size (plane_of input.now)) target.new }
{
    let part = target.part();
    let mut band = Band { low: 0, high: 0 };
    'rows: for k in 0..count(part.top, part.bottom) {
        let y = number_at(part.top, part.bottom, k);
        band = mosaic_row(size, input, target, start, y, band, columns, row, into);
    }
}

/// Each point of the target's part that is in the input's extent becomes the mean of the input's pixels over its block, and
/// each other one transparent. Blocks of `size` by `size` points, which is within 1..=1,024, begin at the left top of the
/// input's extent and are cut at its right and bottom. It takes memory for a few rows, and time for each point that does not
/// grow with the size.
pub fn mosaic_world<const MAX: u32>(
    alloc: Global,
    size: u32,
    input: &World<MAX>,
    target: &mut World<MAX>,
) -> Result<(), Memory>
    requires depth { IsDepth MAX }
    requires some { 0 < size }
    requires few { size ≤ 1024 }
    ensures frame { SameExtentAndPart target.old target.new }
    ensures drawn { OnOk result (Shows target.old.part (mosaic_at size (plane_of input.now)) target.new) }
{
    let part = target.part();
    let all = blocks(size, input.extent(), part);
    let mut columns = sum_room(alloc, all, 0)?;
    let mut row = byte_room::<MAX>(alloc, columns.len())?;
    let mut into = pixel_room(alloc, part)?;
    mosaic_rows(
        size,
        input,
        target,
        all.left,
        &mut columns,
        &mut row,
        &mut into,
    );
    Ok(())
}
