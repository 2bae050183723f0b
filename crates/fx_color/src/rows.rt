ghost use Rattle.std.specs.Prelude.{◌≡◌, ◌<◌, ℤ, pos, ◌+ℤ◌, length, IfOk, OnOk};
ghost use Rattle.geom_rect.specs.Rect.{Has, count_between, width_of};
ghost use Rattle.argb_pixel.specs.Depth.{IsDepth};
ghost use Rattle.argb_world.specs.Picture.{at, HasRow, SameExtentAndPart, StaysOffRow};
ghost use Rattle.effect_api.specs.Effects.{Shows};

use crate::recolor::{Recolor, recolor_each};
use argb_pixel::{Pixel, Transparent};
use argb_world::World;
use geom_rect::Rect;
use host_io::Memory;
use std::alloc::Global;

// How many whole numbers there are from `low`, inclusive, to `high`, exclusive.
fn count(low: i32, high: i32) -> u32
    ensures { result ≡ count_between low high }
{
    if low < high {
        (high as i64 - low as i64) as u32
    } else {
        0
    }
}

// The whole number that is `k` above `low`.
fn number_at(low: i32, high: i32, k: u32) -> i32
    requires { k < count_between low high }
    ensures { result ≡ low +ℤ pos k }
{
    (low as i64 + k as i64) as i32
}

// Room for a row of the part.
fn room<const MAX: u32>(alloc: Global, part: Rect) -> Result<Vec<Pixel<MAX>>, Memory>
    requires { IsDepth MAX }
    ensures { IfOk result (λ row. length row.items ≡ width_of part) }
{
    Ok(vec![in alloc; Pixel::CLEAR; count(part.left, part.right) as usize]?)
}

// The row of the target at a height becomes what the rule makes of the pixels there. `into` is room for a row.
fn recolor_row<R: Recolor<MAX>, const MAX: u32>(
    rule: &R,
    from: &World<MAX>,
    target: &mut World<MAX>,
    y: i32,
    into: &mut [Pixel<MAX>],
)
    requires depth { IsDepth MAX }
    requires there { HasRow target.old.part y }
    requires room { length into.old ≡ width_of target.old.part }
    ensures frame { SameExtentAndPart target.old target.new }
    ensures drawn { (x : ℤ) → Has target.old.part x y → at target.new x y ≡ R.recolored rule.now (at from.now x y) }
    ensures others { StaysOffRow y target.old target.new }
{
    let part = target.part();
    from.read_span(part.left as i64, y as i64, into);
    recolor_each(rule, into);
    target.set_row(y, into);
}

// Each row of the target. `into` is room for a row.
fn recolor_rows<R: Recolor<MAX>, const MAX: u32>(
    rule: &R,
    from: &World<MAX>,
    target: &mut World<MAX>,
    into: &mut [Pixel<MAX>],
)
    requires depth { IsDepth MAX }
    requires room { length into.old ≡ width_of target.old.part }
    ensures frame { SameExtentAndPart target.old target.new }
    ensures drawn { Shows target.old.part (λ x y. R.recolored rule.now (at from.now x y)) target.new }
{
    let part = target.part();
    'rows: for k in 0..count(part.top, part.bottom) {
        let y = number_at(part.top, part.bottom, k);
        recolor_row(rule, from, target, y, into);
    }
}

/// Each point of the target's part becomes what the rule makes of the other picture's pixel there. It takes memory for a
/// row.
pub fn recolor_world<R: Recolor<MAX>, const MAX: u32>(
    alloc: Global,
    rule: &R,
    from: &World<MAX>,
    target: &mut World<MAX>,
) -> Result<(), Memory>
    requires { IsDepth MAX }
    ensures frame { SameExtentAndPart target.old target.new }
    ensures drawn { OnOk result (Shows target.old.part (λ x y. R.recolored rule.now (at from.now x y)) target.new) }
{
    let mut into = room(alloc, target.part())?;
    recolor_rows(rule, from, target, &mut into);
    Ok(())
}
