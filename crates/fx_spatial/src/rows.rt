ghost use Rattle.std.specs.Prelude.{◌≡◌, ◌<◌, ℤ, pos, ◌+ℤ◌, ◌-ℤ◌, length, IfOk, OnOk};
ghost use Rattle.geom_rect.specs.Rect.{Has, count_between, width_of};
ghost use Rattle.argb_pixel.specs.Depth.{IsDepth};
ghost use Rattle.argb_pixel.specs.Pixel.{Argb};
ghost use Rattle.argb_world.specs.Picture.{at, HasRow, SameExtentAndPart, StaysOffRow};
ghost use Rattle.effect_api.specs.Planes.{HasSides};
ghost use Rattle.effect_api.specs.Effects.{Shows};
ghost use Rattle.fx_spatial.specs.Rows.{drawn_span, IsNearRow};

use argb_pixel::{Pixel, Transparent};
use argb_world::World;
use geom_rect::Rect;
use host_io::Memory;
use std::alloc::Global;

/// What is drawn at each point, a row after another. The loops over rows stand once, for every such drawing.
pub(crate) trait DrawRow<const MAX: u32> {
    ghost drawing: { Self → ℤ → ℤ → Argb };

    /// The pixels of a row of points, from `(x, y)` to the right. `spare` is room for as many.
    fn draw_row(&self, x: i32, y: i32, spare: &mut [Pixel<MAX>], into: &mut [Pixel<MAX>])
        requires depth { IsDepth MAX }
        requires near { IsNearRow x y (length into.old) }
        requires room { length spare.old ≡ length into.old }
        ensures { into.new ≡ drawn_span (drawing self.now) x y (length into.old) };
}

/// A number less another.
pub(crate) fn less(x: i32, by: i32) -> i64
    ensures { result ≡ x -ℤ by }
{
    x as i64 - by as i64
}

/// How many whole numbers there are from `low`, inclusive, to `high`, exclusive.
pub(crate) fn count(low: i32, high: i32) -> u32
    ensures { result ≡ count_between low high }
{
    if low < high {
        (high as i64 - low as i64) as u32
    } else {
        0
    }
}

// The whole number that is `k` above `low`.
fn number_at(low: i32, high: i32, k: u32) -> i32
    requires { k < count_between low high }
    ensures { result ≡ low +ℤ pos k }
{
    (low as i64 + k as i64) as i32
}

// Room for a row of the part.
fn room<const MAX: u32>(alloc: Global, part: Rect) -> Result<Vec<Pixel<MAX>>, Memory>
    requires { IsDepth MAX }
    ensures { IfOk result (λ row. length row.items ≡ width_of part) }
{
    Ok(vec![in alloc; Pixel::CLEAR; count(part.left, part.right) as usize]?)
}

// The row of the target at a height is drawn. `spare` and `into` are room for a row.
fn draw_one<R: DrawRow<MAX>, const MAX: u32>(
    rule: &R,
    target: &mut World<MAX>,
    y: i32,
    spare: &mut [Pixel<MAX>],
    into: &mut [Pixel<MAX>],
)
    requires depth { IsDepth MAX }
    requires near { HasSides target.old.part }
    requires there { HasRow target.old.part y }
    requires more { length spare.old ≡ width_of target.old.part }
    requires room { length into.old ≡ width_of target.old.part }
    ensures frame { SameExtentAndPart target.old target.new }
    ensures drawn { (x : ℤ) → Has target.old.part x y → at target.new x y ≡ R.drawing rule.now x y }
    ensures others { StaysOffRow y target.old target.new }
{
    let part = target.part();
    rule.draw_row(part.left, y, spare, into);
    target.set_row(y, into);
}

// Each row of the target. `spare` and `into` are room for a row.
fn draw_each<R: DrawRow<MAX>, const MAX: u32>(
    rule: &R,
    target: &mut World<MAX>,
    spare: &mut [Pixel<MAX>],
    into: &mut [Pixel<MAX>],
)
    requires depth { IsDepth MAX }
    requires near { HasSides target.old.part }
    requires more { length spare.old ≡ width_of target.old.part }
    requires room { length into.old ≡ width_of target.old.part }
    ensures frame { SameExtentAndPart target.old target.new }
    ensures drawn { Shows target.old.part (R.drawing rule.now) target.new }
{
    let part = target.part();
    'rows: for k in 0..count(part.top, part.bottom) {
        let y = number_at(part.top, part.bottom, k);
        draw_one(rule, target, y, spare, into);
    }
}

/// Each point of the target's part becomes what is drawn there. It takes memory for two rows.
pub(crate) fn draw_rows<R: DrawRow<MAX>, const MAX: u32>(
    alloc: Global,
    rule: &R,
    target: &mut World<MAX>,
) -> Result<(), Memory>
    requires depth { IsDepth MAX }
    requires near { HasSides target.old.part }
    ensures frame { SameExtentAndPart target.old target.new }
    ensures drawn { OnOk result (Shows target.old.part (R.drawing rule.now) target.new) }
{
    let mut spare = room(alloc, target.part())?;
    let mut into = room(alloc, target.part())?;
    draw_each(rule, target, &mut spare, &mut into);
    Ok(())
}
