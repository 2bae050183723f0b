ghost use Rattle.std.specs.Prelude.{◌≡◌, ◌≤◌, ◌<◌, ◌+◌, ◌-◌, ◌↔◌, ℕ, ℤ, pos, ◌+ℤ◌, ◌-ℤ◌, ◌≤ℤ◌, ◌<ℤ◌, length, replicate, slice_index_or, IsTrue};
ghost use Rattle.std.specs.Int.{int_rem_euclid};
ghost use borrow.Rule.Slice.PartMut.{put_mid};
ghost use Rattle.geom_rect.specs.Rect.{count_between, width_of};
ghost use Rattle.argb_pixel.specs.Depth.{IsDepth};
ghost use Rattle.argb_pixel.specs.Pixel.{clear};
ghost use Rattle.argb_world.specs.Picture.{at, span_of, IsReach};
ghost use Rattle.comp_stack.specs.Layers.{plane_of};
ghost use Rattle.fx_spatial.specs.Rows.{drawn_span, IsNearRow, IsWide};
ghost use Rattle.fx_spatial.specs.Offset.{wrapped, offset_at};

use crate::rows::{DrawRow, count};
use argb_pixel::{Pixel, Transparent};
use argb_world::World;
use geom_rect::Rect;

/// A picture moved within its extent, `dx` to the right and `dy` down.
#[derive(Drop)]
pub(crate) struct Moved<'a, const MAX: u32> {
    pub input: &'a World<MAX>,
    pub dx: i32,
    pub dy: i32,
}

// What is left of a number after whole counts: never negative.
fn remainder(z: i64, count: u32) -> u32
    requires { 0 < count }
    ensures value { pos result ≡ int_rem_euclid z (pos count) }
    ensures within { result < count }
{
    z.rem_euclid(count as i64) as u32
}

// A number that is `k` above another.
fn above(low: i32, k: u32) -> i64
    ensures { result ≡ low +ℤ pos k }
{
    low as i64 + k as i64
}

// A column as a wider number.
fn wide(x: i32) -> i64
    ensures value { result ≡ x }
    ensures near { IsWide result }
{
    x as i64
}

// The column that is `turn` to the right of the left one.
fn middle(left: i32, right: i32, turn: u32) -> i64
    requires { turn < count_between left right }
    ensures value { result ≡ left +ℤ pos turn }
    ensures near { IsWide result }
{
    left as i64 + turn as i64
}

// So many less so many.
fn apart(count: u32, turn: u32) -> i64
    ensures value { result ≡ pos count -ℤ pos turn }
    ensures near { IsWide result }
{
    count as i64 - turn as i64
}

// How far a number less another is above a low side.
fn from_low(low: i32, y: i32, by: i32) -> i64
    ensures { result ≡ (y -ℤ by) -ℤ low }
{
    y as i64 - by as i64 - low as i64
}

// The row of the picture that is shown at a height.
fn row_shown(top: i32, bottom: i32, y: i32, dy: i32) -> i64
    requires { top <ℤ bottom }
    ensures { result ≡ wrapped top (count_between top bottom) (y -ℤ dy) }
{
    above(top, remainder(from_low(top, y, dy), count(top, bottom)))
}

// How many of the columns from `x` on are before a column.
fn places_before(x: i32, column: i64, count: usize) -> usize
    requires { IsWide column }
    ensures within { result ≤ count }
    ensures before { (k : ℕ) → k < count → ((k < result) ↔ ((x +ℤ pos k) <ℤ column)) }
{
    if column <= x as i64 {
        0
    } else {
        ((column - x as i64) as usize).min(count)
    }
}

// The pixels at some places of a row become those of the picture from a point on.
fn copy_places<const MAX: u32>(
    input: &World<MAX>,
    x: i64,
    y: i64,
    start: usize,
    end: usize,
    into: &mut [Pixel<MAX>],
)
    requires reach { IsReach x }
    requires order { start ≤ end }
    requires within { end ≤ length into.old }
    ensures { into.new ≡ put_mid start (end - start) into.old (span_of input.now x y (end - start)) }
{
    input.read_span(x, y, &mut into[start..end]);
}

// The column of a place in a row that begins at `x`, moved.
fn column(x: i32, place: usize, further: i64) -> i64
    requires near { (x +ℤ pos place) <ℤ pos 4294967296 }
    requires far { IsWide further }
    ensures value { result ≡ (x +ℤ pos place) +ℤ further }
    ensures reach { IsReach result }
{
    x as i64 + place as i64 + further
}

// Each pixel of a row that begins at `x`, in the columns from `from`, inclusive, to `to`, exclusive, becomes the picture's at
// the height `y`, so many columns further.
fn copy_run<const MAX: u32>(
    input: &World<MAX>,
    x: i32,
    y: i64,
    from: i64,
    to: i64,
    further: i64,
    into: &mut [Pixel<MAX>],
)
    requires from { IsWide from }
    requires to { IsWide to }
    requires further { IsWide further }
    ensures inside { (k : ℕ) → k < length into.old → from ≤ℤ (x +ℤ pos k) → (x +ℤ pos k) <ℤ to
        → slice_index_or into.new k clear ≡ at input.now ((x +ℤ pos k) +ℤ further) y }
    ensures beside { (k : ℕ) → k < length into.old → ¬ ((from ≤ℤ (x +ℤ pos k)) × ((x +ℤ pos k) <ℤ to))
        → slice_index_or into.new k clear ≡ slice_index_or into.old k clear }
{
    let start = places_before(x, from, into.len());
    let end = places_before(x, to, into.len());
    if start < end {
        copy_places(input, column(x, start, further), y, start, end, into)
    }
}

// Each pixel of a row that begins at `x`, in the columns of the extent, becomes the one that is moved there from the
// height `y`.
fn offset_row<const MAX: u32>(input: &World<MAX>, dx: i32, x: i32, y: i64, into: &mut [Pixel<MAX>])
    requires { input.now.extent.left <ℤ input.now.extent.right }
    ensures inside { (k : ℕ) → k < length into.old → input.now.extent.left ≤ℤ (x +ℤ pos k) → (x +ℤ pos k) <ℤ input.now.extent.right
        → slice_index_or into.new k clear ≡ at input.now (wrapped input.now.extent.left (width_of input.now.extent) ((x +ℤ pos k) -ℤ dx)) y }
    ensures beside { (k : ℕ) → k < length into.old → ¬ ((input.now.extent.left ≤ℤ (x +ℤ pos k)) × ((x +ℤ pos k) <ℤ input.now.extent.right))
        → slice_index_or into.new k clear ≡ slice_index_or into.old k clear }
{
    let extent = input.extent();
    let width = count(extent.left, extent.right);
    let turn = remainder(dx as i64, width);
    let middle = middle(extent.left, extent.right, turn);
    copy_run(
        input,
        x,
        y,
        wide(extent.left),
        middle,
        apart(width, turn),
        into,
    );
    copy_run(
        input,
        x,
        y,
        middle,
        wide(extent.right),
        apart(0, turn),
        into,
    );
}

// Nothing at each pixel of a row.
fn clear_row<const MAX: u32>(into: &mut [Pixel<MAX>])
    ensures { into.new ≡ replicate (length into.old) clear }
{
    into.fill(Pixel::CLEAR);
}

// Whether the rectangle has points at this height.
fn has_row(rect: &Rect, y: i32) -> bool
    ensures { IsTrue result ↔ ((rect.now.left <ℤ rect.now.right) × (rect.now.top ≤ℤ y) × (y <ℤ rect.now.bottom)) }
{
    rect.left < rect.right && rect.top <= y && y < rect.bottom
}

impl<'a, const MAX: u32> DrawRow<MAX> for Moved<'a, MAX> {
    ghost drawing = { λ rule. offset_at rule.dx rule.dy (plane_of rule.input.now) };

    fn draw_row(&self, x: i32, y: i32, _spare: &mut [Pixel<MAX>], into: &mut [Pixel<MAX>])
        requires depth { IsDepth MAX }
        requires near { IsNearRow x y (length into.old) }
        ensures { into.new ≡ drawn_span (offset_at self.now.dx self.now.dy (plane_of self.now.input.now)) x y (length into.old) }
    {
        let extent = self.input.extent();
        clear_row(into);
        if has_row(&extent, y) {
            let row = row_shown(extent.top, extent.bottom, y, self.dy);
            offset_row(self.input, self.dx, x, row, into)
        }
    }
}
