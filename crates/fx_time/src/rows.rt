ghost use Rattle.std.specs.Prelude.{◌≡◌, ◌<◌, ◌*◌, ◌^◌, ℕ, ℤ, pos, ◌+ℤ◌, length, IfOk};
ghost use Rattle.geom_rect.specs.Rect.{Has, count_between, width_of};
ghost use Rattle.argb_pixel.specs.Depth.{IsDepth};
ghost use Rattle.argb_pixel.specs.Pixel.{Argb};
ghost use Rattle.argb_pixel.specs.Packed.{pixel_size, pixels_of, IsPacked};
ghost use Rattle.argb_world.specs.Picture.{at, HasRow, SameExtentAndPart, StaysOffRow};
ghost use Rattle.effect_api.specs.Effects.{Shows};
ghost use Rattle.fx_spatial.specs.Rows.{drawn_span};

use argb_pixel::pixel_size;
use argb_world::World;
use geom_rect::Rect;
use host_io::Memory;
use std::alloc::Global;

/// What is drawn at each point, a packed row after another. The loop over rows stands once, for every such drawing. A row
/// takes room for some values of a type `S` beside its own bytes.
pub(crate) trait DrawRow<S, const MAX: u32> {
    ghost drawing: { Self → ℤ → ℤ → Argb };

    // How many values a row of so many points takes room for.
    ghost room: { ℕ → ℕ };

    /// The bytes of a row of so many points, from `(x, y)` to the right.
    fn draw_row(&self, x: i32, y: i32, count: usize, spare: &mut [S], into: &mut [u8])
        requires depth { IsDepth MAX }
        requires more { length spare.old ≡ room count }
        requires long { length into.old ≡ pixel_size MAX * count }
        ensures packed { IsPacked MAX into.new }
        ensures pixels { pixels_of MAX into.new ≡ drawn_span (drawing self.now) x y count };
}

// How many whole numbers there are from `low`, inclusive, to `high`, exclusive.
fn count(low: i32, high: i32) -> u32
    ensures { result ≡ count_between low high }
{
    if low < high {
        (high as i64 - low as i64) as u32
    } else {
        0
    }
}

// The whole number that is `k` above `low`.
fn number_at(low: i32, high: i32, k: u32) -> i32
    requires { k < count_between low high }
    ensures { result ≡ low +ℤ pos k }
{
    (low as i64 + k as i64) as i32
}

/// How many points a row of the part has.
pub(crate) fn width(part: Rect) -> usize
    ensures value { result ≡ width_of part }
    ensures few { result < 2 ^ 32 }
{
    count(part.left, part.right) as usize
}

/// Room for a packed row of the part.
pub(crate) fn byte_room<const MAX: u32>(alloc: Global, part: Rect) -> Result<Vec<u8>, Memory>
    ensures { IfOk result (λ row. length row.items ≡ pixel_size MAX * width_of part) }
{
    Ok(vec![in alloc; 0; pixel_size::<MAX>() * width(part)]?)
}

// The row of the target at a height is drawn. `spare` and `into` are room for it.
fn draw_one<S, R: DrawRow<S, MAX>, const MAX: u32>(
    rule: &R,
    target: &mut World<MAX>,
    y: i32,
    spare: &mut [S],
    into: &mut [u8],
)
    requires depth { IsDepth MAX }
    requires there { HasRow target.old.part y }
    requires more { length spare.old ≡ R.room (width_of target.old.part) }
    requires room { length into.old ≡ pixel_size MAX * width_of target.old.part }
    ensures frame { SameExtentAndPart target.old target.new }
    ensures drawn { (x : ℤ) → Has target.old.part x y → at target.new x y ≡ R.drawing rule.now x y }
    ensures others { StaysOffRow y target.old target.new }
{
    let part = target.part();
    rule.draw_row(part.left, y, width(part), spare, into);
    target.set_packed_row(y, into);
}

/// Each point of the target's part becomes what is drawn there. `spare` and `into` are room for a row.
pub(crate) fn draw_rows<S, R: DrawRow<S, MAX>, const MAX: u32>(
    rule: &R,
    target: &mut World<MAX>,
    spare: &mut [S],
    into: &mut [u8],
)
    requires depth { IsDepth MAX }
    requires more { length spare.old ≡ R.room (width_of target.old.part) }
    requires room { length into.old ≡ pixel_size MAX * width_of target.old.part }
    ensures frame { SameExtentAndPart target.old target.new }
    ensures drawn { Shows target.old.part (R.drawing rule.now) target.new }
{
    let part = target.part();
    'rows: for k in 0..count(part.top, part.bottom) {
        let y = number_at(part.top, part.bottom, k);
        draw_one(rule, target, y, spare, into);
    }
}
