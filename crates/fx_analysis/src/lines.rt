//! The rows of a world that has all of its extent.
ghost use Rattle.std.specs.Prelude.{◌≡◌, ◌*◌, ◌<◌, ◌^◌, ◌+ℤ◌, pos, length};
ghost use Rattle.geom_rect.specs.Rect.{count_between, width_of};
ghost use Rattle.argb_pixel.specs.Packed.{pixel_size, pixels_of, IsPacked};
ghost use Rattle.comp_stack.specs.Layers.{plane_of};
ghost use Rattle.fx_analysis.specs.Sums.{line_of};

use argb_world::World;

// How many whole numbers there are from `low`, inclusive, to `high`, exclusive.
fn count(low: i32, high: i32) -> u32
    ensures { result ≡ count_between low high }
{
    if low < high {
        (high as i64 - low as i64) as u32
    } else {
        0
    }
}

// The whole number that is `k` above `low`.
fn number_at(low: i32, high: i32, k: u32) -> i32
    requires { k < count_between low high }
    ensures { result ≡ low +ℤ pos k }
{
    (low as i64 + k as i64) as i32
}

/// How many rows the world has.
pub(crate) fn row_count<const MAX: u32>(world: &World<MAX>) -> u32
    ensures { result ≡ count_between world.now.extent.top world.now.extent.bottom }
{
    let extent = world.extent();
    count(extent.top, extent.bottom)
}

/// How many pixels each has.
pub(crate) fn row_length<const MAX: u32>(world: &World<MAX>) -> usize
    ensures value { result ≡ width_of world.now.extent }
    ensures within { result < 2 ^ 32 }
{
    let extent = world.extent();
    count(extent.left, extent.right) as usize
}

/// The bytes of the row that is `k` below the top.
pub(crate) fn packed_line<const MAX: u32>(world: &World<MAX>, k: u32) -> &[u8]
    requires whole { world.now.part ≡ world.now.extent }
    requires there { k < count_between world.now.extent.top world.now.extent.bottom }
    ensures long { length result.now ≡ pixel_size MAX * width_of world.now.extent }
    ensures packed { IsPacked MAX result.now }
    ensures pixels { pixels_of MAX result.now ≡ line_of (plane_of world.now) (world.now.extent.top +ℤ pos k) }
{
    let extent = world.extent();
    world.packed_row(number_at(extent.top, extent.bottom, k))
}
