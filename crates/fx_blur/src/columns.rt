ghost use Rattle.std.specs.Prelude.{◌≡◌, ℕ, ℤ, pos, ◌+ℤ◌, ◌+◌, ◌*◌, ◌<◌, length, slice_index_or};
ghost use Rattle.argb_pixel.specs.Depth.{IsDepth};
ghost use Rattle.argb_pixel.specs.Pixel.{IsPremultiplied, clear};
ghost use Rattle.argb_pixel.specs.Packed.{pixel_size, pixels_of, IsPacked};
ghost use Rattle.argb_world.specs.Picture.{at, IsReach};
ghost use Rattle.fx_blur.specs.Sums.{plus};
ghost use Rattle.fx_blur.specs.Columns.{Holds, minus, AreColumns};

use crate::sums::Sums;
use argb_pixel::{Transparent, pixel_in};
use argb_world::World;

// The number that is so far above another.
fn number_above(low: i64, k: u32) -> i64
    requires { IsReach low }
    ensures { result ≡ low +ℤ pos k }
{
    low + k as i64
}

// Each column gets the pixel of a packed row.
fn add_row<const MAX: u32>(columns: &mut [Sums], row: &[u8])
    requires depth { IsDepth MAX }
    requires packed { IsPacked MAX row.now }
    requires long { length row.now ≡ pixel_size MAX * length columns.old }
    requires fits { (k : ℕ) → k < length columns.old
        → IsPremultiplied 4294967295 (plus (slice_index_or columns.old k clear) (slice_index_or (pixels_of MAX row.now) k clear)) }
    ensures { (k : ℕ) → k < length columns.old
        → slice_index_or columns.new k clear ≡ plus (slice_index_or columns.old k clear) (slice_index_or (pixels_of MAX row.now) k clear) }
{
    for i in 0..columns.len() {
        columns[i] = columns[i].plus(pixel_in::<MAX>(row, i));
    }
}

// Each column loses the pixel of a packed row, which is part of it.
fn take_row<const MAX: u32>(columns: &mut [Sums], row: &[u8])
    requires depth { IsDepth MAX }
    requires packed { IsPacked MAX row.now }
    requires long { length row.now ≡ pixel_size MAX * length columns.old }
    requires parts { (k : ℕ) → k < length columns.old
        → Holds (slice_index_or columns.old k clear) (slice_index_or (pixels_of MAX row.now) k clear) }
    ensures { (k : ℕ) → k < length columns.old
        → slice_index_or columns.new k clear ≡ minus (slice_index_or columns.old k clear) (slice_index_or (pixels_of MAX row.now) k clear) }
{
    for i in 0..columns.len() {
        columns[i] = columns[i].minus(pixel_in::<MAX>(row, i));
    }
}

// The sums of so many rows from (x, y) on become those of one row more. `row` is room for a packed row.
fn enter_row<const MAX: u32>(
    columns: &mut [Sums],
    from: &World<MAX>,
    x: i64,
    y: i64,
    rows: u32,
    row: &mut [u8],
)
    requires depth { IsDepth MAX }
    requires across { IsReach x }
    requires down { IsReach y }
    requires few { rows < 1025 }
    requires room { length row.old ≡ pixel_size MAX * length columns.old }
    requires sums { AreColumns MAX (at from.now) x y rows columns.old }
    ensures { AreColumns MAX (at from.now) x y (rows + 1) columns.new }
{
    from.read_packed_span(x, number_above(y, rows), columns.len(), row);
    add_row::<MAX>(columns, row);
}

// The sums of so many rows and one more from (x, y) on become those without the first. `row` is room for a packed row.
fn leave_row<const MAX: u32>(
    columns: &mut [Sums],
    from: &World<MAX>,
    x: i64,
    y: i64,
    rows: u32,
    row: &mut [u8],
)
    requires depth { IsDepth MAX }
    requires across { IsReach x }
    requires down { IsReach y }
    requires room { length row.old ≡ pixel_size MAX * length columns.old }
    requires sums { AreColumns MAX (at from.now) x y (rows + 1) columns.old }
    ensures { AreColumns MAX (at from.now) x (y +ℤ pos 1) rows columns.new }
{
    from.read_packed_span(x, y, columns.len(), row);
    take_row::<MAX>(columns, row);
}

// The sums of so many rows from (x, y) on. `row` is room for a packed row.
pub(crate) fn sum_rows<const MAX: u32>(
    columns: &mut [Sums],
    from: &World<MAX>,
    x: i64,
    y: i64,
    rows: u32,
    row: &mut [u8],
)
    requires depth { IsDepth MAX }
    requires across { IsReach x }
    requires down { IsReach y }
    requires few { rows < 1025 }
    requires room { length row.old ≡ pixel_size MAX * length columns.old }
    ensures { AreColumns MAX (at from.now) x y rows columns.new }
{
    columns.fill(Sums::CLEAR);
    for j in 0..rows {
        enter_row(columns, from, x, y, j, row);
    }
}

// The sums of so many rows from (x, y) on become those from the row below on. `row` is room for a packed row.
pub(crate) fn move_down<const MAX: u32>(
    columns: &mut [Sums],
    from: &World<MAX>,
    x: i64,
    y: i64,
    rows: u32,
    row: &mut [u8],
)
    requires depth { IsDepth MAX }
    requires across { IsReach x }
    requires down { IsReach y }
    requires few { rows < 1025 }
    requires room { length row.old ≡ pixel_size MAX * length columns.old }
    requires sums { AreColumns MAX (at from.now) x y rows columns.old }
    ensures { AreColumns MAX (at from.now) x (y +ℤ pos 1) rows columns.new }
{
    enter_row(columns, from, x, y, rows, row);
    leave_row(columns, from, x, y, rows, row);
}
