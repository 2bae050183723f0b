ghost use Rattle.std.specs.Prelude.{◌≡◌, ◌+◌, ◌*◌, ◌<◌, ◌≤◌, ℤ, pos, ◌+ℤ◌, ◌-ℤ◌, length, IfOk, OnOk};
ghost use Rattle.geom_rect.specs.Rect.{Has, count_between, width_of};
ghost use Rattle.argb_pixel.specs.Depth.{IsDepth};
ghost use Rattle.argb_pixel.specs.Packed.{pixel_size};
ghost use Rattle.argb_world.specs.Picture.{at, HasRow, SameExtentAndPart, StaysOffRow, greatest_part};
ghost use Rattle.comp_stack.specs.Layers.{plane_of};
ghost use Rattle.effect_api.specs.Effects.{Shows};
ghost use Rattle.fx_blur.specs.Blur.{across, blur_at};
ghost use Rattle.fx_blur.specs.Columns.{AreColumns};

use crate::columns::{move_down, sum_rows};
use crate::means::write_means;
use crate::rows::{byte_room, count, number_at, pixel_room, sum_room};
use crate::sums::Sums;
use argb_pixel::Pixel;
use argb_world::World;
use host_io::Memory;
use std::alloc::Global;

// The number that is so far below another.
fn number_below(high: i32, k: u32) -> i64
    ensures { result ≡ high -ℤ pos k }
{
    high as i64 - k as i64
}

// How many points a row of a window has.
fn across(radius: u32) -> u32
    requires { radius ≤ 128 }
    ensures { result ≡ across radius }
{
    2 * radius + 1
}

// The row of the target at a height becomes the means of the columns, which have the sums of the windows of that row, and the
// columns become those of the next row. `row` is room for a packed row of them, and `into` for a row of the target.
fn blur_row<const MAX: u32>(
    radius: u32,
    input: &World<MAX>,
    target: &mut World<MAX>,
    y: i32,
    columns: &mut [Sums],
    row: &mut [u8],
    into: &mut [Pixel<MAX>],
)
    requires depth { IsDepth MAX }
    requires near { radius ≤ 128 }
    requires there { HasRow target.old.part y }
    requires long { length columns.old ≡ width_of target.old.part + across radius }
    requires bytes { length row.old ≡ pixel_size MAX * length columns.old }
    requires pixels { length into.old ≡ width_of target.old.part }
    requires sums { AreColumns MAX (at input.now) (target.old.part.left -ℤ pos radius) (y -ℤ pos radius) (across radius) columns.old }
    ensures frame { SameExtentAndPart target.old target.new }
    ensures drawn { (x : ℤ) → Has target.old.part x y → at target.new x y ≡ blur_at radius (plane_of input.now) x y }
    ensures others { StaysOffRow y target.old target.new }
    ensures sums { AreColumns MAX (at input.now) (target.old.part.left -ℤ pos radius) (y -ℤ pos radius +ℤ pos 1) (across radius) columns.new }
{
    let across = across(radius);
    let left = number_below(target.part().left, radius);
    let top = number_below(y, radius);
    write_means(columns, across, into);
    target.set_row(y, into);
    move_down(columns, input, left, top, across, row);
}

// Each row of the target, from the top. `columns`, `row` and `into` are room for the sums of the columns, for a packed row of
// them, and for a row of the target.
fn blur_rows<const MAX: u32>(
    radius: u32,
    input: &World<MAX>,
    target: &mut World<MAX>,
    columns: &mut [Sums],
    row: &mut [u8],
    into: &mut [Pixel<MAX>],
)
    requires depth { IsDepth MAX }
    requires near { radius ≤ 128 }
    requires long { length columns.old ≡ width_of target.old.part + across radius }
    requires bytes { length row.old ≡ pixel_size MAX * length columns.old }
    requires pixels { length into.old ≡ width_of target.old.part }
    ensures frame { SameExtentAndPart target.old target.new }
    ensures drawn { Shows target.old.part (blur_at radius (plane_of input.now)) target.new }
{
    let part = target.part();
    let left = number_below(part.left, radius);
    let top = number_below(part.top, radius);
    sum_rows(columns, input, left, top, across(radius), row);
    'rows: for k in 0..count(part.top, part.bottom) {
        let y = number_at(part.top, part.bottom, k);
        blur_row(radius, input, target, y, columns, row, into);
    }
}

/// Each point of the target's part becomes the mean of the input's pixels at the points that are at most `radius` away in x
/// and in y. All these points count, and those outside the input are transparent. `radius` is at most 128. It takes memory for
/// a few rows, and time for each point that does not grow with the radius.
pub fn blur_world<const MAX: u32>(
    alloc: Global,
    radius: u32,
    input: &World<MAX>,
    target: &mut World<MAX>,
) -> Result<(), Memory>
    requires depth { IsDepth MAX }
    requires near { radius ≤ 128 }
    ensures frame { SameExtentAndPart target.old target.new }
    ensures drawn { OnOk result (Shows target.old.part (blur_at radius (plane_of input.now)) target.new) }
{
    let part = target.part();
    let mut columns = sum_room(alloc, part, across(radius))?;
    let mut row = byte_room::<MAX>(alloc, columns.len())?;
    let mut into = pixel_room(alloc, part)?;
    blur_rows(radius, input, target, &mut columns, &mut row, &mut into);
    Ok(())
}
