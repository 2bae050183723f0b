ghost use Rattle.std.specs.Prelude.{◌≡◌, ◌+◌, ◌*◌, ◌<◌, ◌≤◌, ◌^◌, ℤ, pos, ◌+ℤ◌, length, IfOk};
ghost use Rattle.geom_rect.specs.Rect.{count_between, width_of};
ghost use Rattle.argb_pixel.specs.Depth.{IsDepth};
ghost use Rattle.argb_pixel.specs.Packed.{pixel_size};

use crate::sums::Sums;
use argb_pixel::{Pixel, Transparent, pixel_size};
use geom_rect::Rect;
use host_io::Memory;
use std::alloc::Global;

// How many whole numbers there are from `low`, inclusive, to `high`, exclusive.
pub(crate) fn count(low: i32, high: i32) -> u32
    ensures { result ≡ count_between low high }
{
    if low < high {
        (high as i64 - low as i64) as u32
    } else {
        0
    }
}

// The whole number that is `k` above `low`.
pub(crate) fn number_at(low: i32, high: i32, k: u32) -> i32
    requires { k < count_between low high }
    ensures { result ≡ low +ℤ pos k }
{
    (low as i64 + k as i64) as i32
}

// Room for a row of the part.
pub(crate) fn pixel_room<const MAX: u32>(
    alloc: Global,
    part: Rect,
) -> Result<Vec<Pixel<MAX>>, Memory>
    requires { IsDepth MAX }
    ensures { IfOk result (λ row. length row.items ≡ width_of part) }
{
    Ok(vec![in alloc; Pixel::CLEAR; count(part.left, part.right) as usize]?)
}

// Room for the sums of the columns of the part, and of so many more.
pub(crate) fn sum_room(alloc: Global, part: Rect, more: u32) -> Result<Vec<Sums>, Memory>
    ensures { IfOk result (λ sums. length sums.items ≡ width_of part + more) }
{
    Ok(vec![in alloc; Sums::CLEAR; count(part.left, part.right) as usize + more as usize]?)
}

// Room for a packed row of so many pixels.
pub(crate) fn byte_room<const MAX: u32>(alloc: Global, pixels: usize) -> Result<Vec<u8>, Memory>
    requires { pixels ≤ 2 ^ 34 }
    ensures { IfOk result (λ row. length row.items ≡ pixel_size MAX * pixels) }
{
    Ok(vec![in alloc; 0; pixel_size::<MAX>() * pixels]?)
}
