ghost use Rattle.std.specs.Prelude.{◌≡◌, ◌≤◌, ◌<◌, ◌+◌, ◌*◌, pos, ◌+ℤ◌, map, length};
ghost use Rattle.std.specs.List.{range_with_len};
ghost use lib.Lanes.{zip2};
ghost use Rattle.argb_pixel.specs.Depth.{IsDepth};
ghost use Rattle.argb_pixel.specs.Pixel.{scale_of};
ghost use Rattle.argb_pixel.specs.Packed.{pixel_size, pixels_of, IsPacked};
ghost use Rattle.argb_world.specs.Picture.{span_of};
ghost use Rattle.transfer_mode.specs.declared.mode.Mode.TheVariants.{Normal};
ghost use Rattle.transfer_mode.specs.Transfer.{blend_of};
ghost use Rattle.fx_spatial.specs.Rows.{drawn_span};
ghost use Rattle.fx_time.specs.Formulas.{echoes, echo_of, echoed_at};
ghost use Rattle.fx_time.specs.Worlds.{planes_in, strength_in, AreParts};

use crate::rows::DrawRow;
use argb_pixel::clear_packed;
use argb_world::World;
use transfer_mode::{Mode, blend_packed, scale_packed};

/// A picture over its echoes: the first of the worlds over the others. The strengths, in 1/10000, are those of the others.
#[derive(Drop)]
pub(crate) struct Echoed<'a, const MAX: u32> {
    pub worlds: &'a [&'a World<MAX>],
    pub strengths: &'a [u32],
    pub ghost one_each: { length worlds.now ≡ length strengths.now + 1 },
    pub ghost parts: { AreParts strengths.now },
}

// The row of an echo over what is drawn there. `spare` is room for a packed row.
fn lay_echo<const MAX: u32>(
    world: &World<MAX>,
    strength: u32,
    x: i32,
    y: i32,
    count: usize,
    spare: &mut [u8],
    into: &mut [u8],
)
    requires depth { IsDepth MAX }
    requires part { strength ≤ 10000 }
    requires more { length spare.old ≡ pixel_size MAX * count }
    requires long { length into.old ≡ pixel_size MAX * count }
    requires packed { IsPacked MAX into.old }
    ensures packed { IsPacked MAX into.new }
    ensures pixels { pixels_of MAX into.new
        ≡ zip2 (blend_of MAX Normal) (map (λ p. scale_of p strength) (span_of world.now x y count)) (pixels_of MAX into.old) }
{
    world.read_packed_span(x as i64, y as i64, count, spare);
    scale_packed::<MAX>(strength, spare);
    blend_packed::<MAX>(Mode::Normal, spare, into);
}

// The row of all echoes, over nothing. `spare` is room for a packed row.
fn lay_echoes<const MAX: u32>(
    rule: &Echoed<MAX>,
    x: i32,
    y: i32,
    count: usize,
    spare: &mut [u8],
    into: &mut [u8],
)
    requires depth { IsDepth MAX }
    requires more { length spare.old ≡ pixel_size MAX * count }
    requires long { length into.old ≡ pixel_size MAX * count }
    ensures packed { IsPacked MAX into.new }
    ensures pixels { let last = length rule.now.strengths.now in pixels_of MAX into.new
        ≡ map (λ j. echoes MAX (echo_of (strength_in rule.now.strengths.now) (planes_in rule.now.worlds.now) (x +ℤ pos j) y) last last) (range_with_len 0 count) }
{
    clear_packed::<MAX>(count, into);
    let last = rule.strengths.len();
    'echoes: for n in 0..last {
        let place = last - 1 - n;
        lay_echo(
            rule.worlds[place + 1],
            rule.strengths[place],
            x,
            y,
            count,
            spare,
            into,
        );
    }
}

impl<'a, const MAX: u32> DrawRow<u8, MAX> for Echoed<'a, MAX> {
    ghost drawing = { λ rule. echoed_at MAX (length rule.strengths.now) (strength_in rule.strengths.now) (planes_in rule.worlds.now) };

    ghost room = { λ n. pixel_size MAX * n };

    fn draw_row(&self, x: i32, y: i32, count: usize, spare: &mut [u8], into: &mut [u8])
        requires depth { IsDepth MAX }
        requires more { length spare.old ≡ pixel_size MAX * count }
        requires long { length into.old ≡ pixel_size MAX * count }
        ensures packed { IsPacked MAX into.new }
        ensures pixels { pixels_of MAX into.new
            ≡ drawn_span (echoed_at MAX (length self.now.strengths.now) (strength_in self.now.strengths.now) (planes_in self.now.worlds.now)) x y count }
    {
        lay_echoes(self, x, y, count, spare, into);
        self.worlds[0].read_packed_span(x as i64, y as i64, count, spare);
        blend_packed::<MAX>(Mode::Normal, spare, into);
    }
}
