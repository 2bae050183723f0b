ghost use Rattle.std.specs.Prelude.{◌≡◌, ◌<◌, ℤ, pos, ◌≤ℤ◌, ◌<ℤ◌, ◌-ℤ◌};
ghost use Rattle.geom_rect.specs.Rect.{Has, positive_part, hull_of};
ghost use Rattle.fx_blur.specs.Mosaic.{block_start, block_end, block_of, blocks_between, blocks_of};

use geom_rect::Rect;

// How far a number is above another.
fn offset(low: i32, x: i32) -> u32
    requires { low ≤ℤ x }
    ensures { result ≡ positive_part (x -ℤ low) }
{
    x.abs_diff(low)
}

// Where the block of x begins, if blocks of a size begin at the low side.
pub(crate) fn block_start(size: u32, low: i32, x: i32) -> i32
    requires some { 0 < size }
    requires above { low ≤ℤ x }
    ensures { result ≡ block_start size low x }
{
    let before = offset(low, x) / size * size;
    (low as i64 + before as i64) as i32
}

// Where it ends: it is cut at the high side.
pub(crate) fn block_end(size: u32, low: i32, high: i32, x: i32) -> i32
    requires some { 0 < size }
    requires above { low ≤ℤ x }
    ensures { result ≡ block_end size low high x }
{
    (block_start(size, low, x) as i64 + size as i64).min(high as i64) as i32
}

// The block of a point of the extent.
pub(crate) fn block(size: u32, extent: &Rect, x: i32, y: i32) -> Rect
    requires some { 0 < size }
    requires across { extent.now.left ≤ℤ x }
    requires down { extent.now.top ≤ℤ y }
    ensures { result ≡ block_of size extent.now x y }
{
    Rect {
        left: block_start(size, extent.left, x),
        top: block_start(size, extent.top, y),
        right: block_end(size, extent.left, extent.right, x),
        bottom: block_end(size, extent.top, extent.bottom, y),
    }
}

// The lesser of the near sides and the greater of the far ones.
fn hull(a: Rect, b: Rect) -> Rect
    ensures { result ≡ hull_of a b }
{
    Rect {
        left: a.left.min(b.left),
        top: a.top.min(b.top),
        right: a.right.max(b.right),
        bottom: a.bottom.max(b.bottom),
    }
}

// The last number before the high side.
fn last_before(low: i32, high: i32) -> i32
    requires { low <ℤ high }
    ensures { result ≡ high -ℤ pos 1 }
{
    high - 1
}

// From the block of the near corner of a rectangle to that of the far one.
fn blocks_between(size: u32, extent: &Rect, met: &Rect) -> Rect
    requires some { 0 < size }
    requires across { extent.now.left ≤ℤ met.now.left }
    requires down { extent.now.top ≤ℤ met.now.top }
    requires wide { met.now.left <ℤ met.now.right }
    requires high { met.now.top <ℤ met.now.bottom }
    ensures { result ≡ blocks_between size extent.now met.now }
{
    let near = block(size, extent, met.left, met.top);
    let right = last_before(met.left, met.right);
    let bottom = last_before(met.top, met.bottom);
    let far = block(size, extent, right, bottom);
    hull(near, far)
}

/// The cover of the blocks that meet a rectangle, `0,0,0,0` where none does. Blocks of `size` by `size` points, which is at
/// least 1, begin at the extent's left top and are cut at its right and bottom.
pub fn blocks(size: u32, extent: Rect, rect: Rect) -> Rect
    requires { 0 < size }
    ensures { result ≡ blocks_of size extent rect }
{
    let met = rect.meet(&extent);
    if met.is_empty() {
        Rect::ORIGIN
    } else {
        blocks_between(size, &extent, &met)
    }
}
