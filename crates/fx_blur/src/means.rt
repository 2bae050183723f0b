ghost use Rattle.std.specs.Prelude.{◌≡◌, ℕ, ◌+◌, ◌*◌, ◌<◌, ◌≤◌, length, slice_index_or};
ghost use Rattle.argb_pixel.specs.Depth.{IsDepth};
ghost use Rattle.argb_pixel.specs.Pixel.{IsPremultiplied, clear};
ghost use Rattle.fx_blur.specs.Sums.{total, mean_of};

use crate::sums::{Sums, Totals, part_of};
use argb_pixel::{Pixel, Transparent};

// The sum of so many columns from a place on. A column has at most 1,024 pixels.
pub(crate) fn sum_columns(columns: &[Sums], start: usize, count: u32) -> Totals
    requires few { count < 1025 }
    requires there { start + count ≤ length columns.now }
    requires within { (k : ℕ) → k < length columns.now → IsPremultiplied 33554432 (slice_index_or columns.now k clear) }
    ensures { result ≡ total (λ k. slice_index_or columns.now (start + k) clear) count }
{
    let mut sum = Totals::CLEAR;
    for k in 0..count {
        sum = sum.plus(columns[start + k as usize]);
    }
    sum
}

// The sum of so many columns from the next place on.
fn next_sum(sum: Totals, columns: &[Sums], place: usize, across: u32) -> Totals
    requires few { across < 258 }
    requires there { place + across < length columns.now }
    requires within { (k : ℕ) → k < length columns.now → IsPremultiplied 33554432 (slice_index_or columns.now k clear) }
    requires sum { sum ≡ total (λ k. slice_index_or columns.now (place + k) clear) across }
    ensures { result ≡ total (λ k. slice_index_or columns.now (place + 1 + k) clear) across }
{
    sum.plus(columns[place + across as usize])
        .minus(columns[place])
}

// Each pixel of a row becomes the mean of so many columns from its place on, which are as long as they are many.
pub(crate) fn write_means<const MAX: u32>(columns: &[Sums], across: u32, into: &mut [Pixel<MAX>])
    requires depth { IsDepth MAX }
    requires some { 0 < across }
    requires few { across < 258 }
    requires long { length columns.now ≡ length into.old + across }
    requires within { (k : ℕ) → k < length columns.now → IsPremultiplied (MAX * across) (slice_index_or columns.now k clear) }
    ensures { (i : ℕ) → i < length into.old
        → slice_index_or into.new i clear ≡ mean_of (across * across) (total (λ k. slice_index_or columns.now (i + k) clear) across) }
{
    let count = across as u64 * across as u64;
    let part = part_of(count);
    let mut sum = sum_columns(columns, 0, across);
    for i in 0..into.len() {
        into[i] = sum.mean_by(count, part);
        sum = next_sum(sum, columns, i, across);
    }
}
