ghost use Rattle.std.specs.Prelude.{◌≡◌, ◌≤◌, ◌<◌, ◌*◌, pos, ◌+ℤ◌, map, length, ℕ, slice_index_or};
ghost use Rattle.argb_pixel.specs.Depth.{IsDepth};
ghost use Rattle.argb_pixel.specs.Pixel.{IsPremultiplied, clear};
ghost use Rattle.argb_pixel.specs.Packed.{pixel_size, pixels_of, IsPacked};
ghost use Rattle.fx_blur.specs.Sums.{plus, total, mean_of};
ghost use Rattle.fx_spatial.specs.Rows.{drawn_span};
ghost use Rattle.effect_api.specs.Planes.{plane_at};
ghost use Rattle.fx_time.specs.Formulas.{time_mean_at};
ghost use Rattle.fx_time.specs.Worlds.{planes_in};

use crate::rows::DrawRow;
use crate::sums::{Sums, part_of};
use argb_pixel::{Transparent, pixel_in, put_pixel};
use argb_world::World;

/// The mean of from 1 to 16 pictures.
#[derive(Drop)]
pub(crate) struct TimeMeans<'a, const MAX: u32> {
    pub worlds: &'a [&'a World<MAX>],
    pub ghost some: { 1 ≤ length worlds.now },
    pub ghost few: { length worlds.now ≤ 16 },
}

// Each sum gets the pixel of a packed row.
fn add_row<const MAX: u32>(sums: &mut [Sums], row: &[u8])
    requires depth { IsDepth MAX }
    requires packed { IsPacked MAX row.now }
    requires long { length row.now ≡ pixel_size MAX * length sums.old }
    requires fits { (k : ℕ) → k < length sums.old → IsPremultiplied 4294967295 (plus (slice_index_or sums.old k clear) (slice_index_or (pixels_of MAX row.now) k clear)) }
    ensures { (k : ℕ) → k < length sums.old
        → slice_index_or sums.new k clear ≡ plus (slice_index_or sums.old k clear) (slice_index_or (pixels_of MAX row.now) k clear) }
{
    for i in 0..sums.len() {
        sums[i] = sums[i].plus(pixel_in::<MAX>(row, i));
    }
}

// The sums of the worlds' rows. `row` is room for a packed row.
fn sum_rows<const MAX: u32>(
    worlds: &[&World<MAX>],
    x: i32,
    y: i32,
    sums: &mut [Sums],
    row: &mut [u8],
)
    requires depth { IsDepth MAX }
    requires few { length worlds.now ≤ 16 }
    requires long { length row.old ≡ pixel_size MAX * length sums.old }
    ensures sums { (k : ℕ) → k < length sums.old
        → slice_index_or sums.new k clear ≡ total (λ i. (plane_at (planes_in worlds.now) i).at (x +ℤ pos k) y) (length worlds.now) }
    ensures fits { (k : ℕ) → k < length sums.old → IsPremultiplied (MAX * length worlds.now) (slice_index_or sums.new k clear) }
{
    sums.fill(Sums::CLEAR);
    'worlds: for i in 0..worlds.len() {
        worlds[i].read_packed_span(x as i64, y as i64, sums.len(), row);
        add_row::<MAX>(sums, row);
    }
}

// Each pixel of a packed row becomes the mean of so many pixels, of which there is the sum.
fn write_means<const MAX: u32>(sums: &[Sums], count: u32, into: &mut [u8])
    requires depth { IsDepth MAX }
    requires some { 1 ≤ count }
    requires few { count ≤ 16 }
    requires long { length into.old ≡ pixel_size MAX * length sums.now }
    requires fits { (k : ℕ) → k < length sums.now → IsPremultiplied (MAX * count) (slice_index_or sums.now k clear) }
    ensures packed { IsPacked MAX into.new }
    ensures pixels { pixels_of MAX into.new ≡ map (mean_of count) sums.now }
{
    let part = part_of(count);
    for i in 0..sums.len() {
        put_pixel(sums[i].mean_by::<MAX>(count, part), i, into);
    }
}

impl<'a, const MAX: u32> DrawRow<Sums, MAX> for TimeMeans<'a, MAX> {
    ghost drawing = { λ rule. time_mean_at (length rule.worlds.now) (planes_in rule.worlds.now) };

    ghost room = { λ n. n };

    fn draw_row(&self, x: i32, y: i32, _count: usize, spare: &mut [Sums], into: &mut [u8])
        requires depth { IsDepth MAX }
        requires more { length spare.old ≡ _count }
        requires long { length into.old ≡ pixel_size MAX * _count }
        ensures packed { IsPacked MAX into.new }
        ensures pixels { pixels_of MAX into.new ≡ drawn_span (time_mean_at (length self.now.worlds.now) (planes_in self.now.worlds.now)) x y _count }
    {
        sum_rows(self.worlds, x, y, spare, into);
        write_means::<MAX>(spare, self.worlds.len() as u32, into);
    }
}
