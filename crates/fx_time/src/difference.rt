ghost use Rattle.std.specs.Prelude.{◌≡◌, ◌*◌, length};
ghost use lib.Lanes.{zip2};
ghost use Rattle.argb_pixel.specs.Depth.{IsDepth};
ghost use Rattle.argb_pixel.specs.Packed.{pixel_size, pixels_of, IsPacked};
ghost use Rattle.comp_stack.specs.Layers.{plane_of};
ghost use Rattle.fx_spatial.specs.Rows.{drawn_span};
ghost use Rattle.fx_time.specs.Formulas.{difference_of, difference_at};

use crate::rows::DrawRow;
use argb_pixel::{Pixel, pixel_in, put_pixel};
use argb_world::World;

/// How far two pictures are apart.
#[derive(Drop)]
pub(crate) struct Difference<'a, const MAX: u32> {
    pub first: &'a World<MAX>,
    pub second: &'a World<MAX>,
}

// How far the colours of two pixels are apart, under the greater alpha.
#[inline(always)]
fn pixel_difference<const MAX: u32>(p: Pixel<MAX>, q: Pixel<MAX>) -> Pixel<MAX>
    requires { IsDepth MAX }
    ensures { result ≡ difference_of p.entry q.entry }
{
    Pixel::of_channels(
        p.a().max(q.a()),
        p.r().abs_diff(q.r()),
        p.g().abs_diff(q.g()),
        p.b().abs_diff(q.b()),
    )
}

// Each pixel of a packed row becomes its difference to that of another row. Both have so many pixels.
fn take_difference<const MAX: u32>(first: &[u8], count: usize, into: &mut [u8])
    requires depth { IsDepth MAX }
    requires first { IsPacked MAX first.now }
    requires packed { IsPacked MAX into.old }
    requires as_long { length first.now ≡ pixel_size MAX * count }
    requires long { length into.old ≡ pixel_size MAX * count }
    ensures packed { IsPacked MAX into.new }
    ensures pixels { pixels_of MAX into.new ≡ zip2 difference_of (pixels_of MAX first.now) (pixels_of MAX into.old) }
{
    for i in 0..count {
        put_pixel(
            pixel_difference::<MAX>(pixel_in(first, i), pixel_in(into, i)),
            i,
            into,
        );
    }
}

impl<'a, const MAX: u32> DrawRow<u8, MAX> for Difference<'a, MAX> {
    ghost drawing = { λ rule. difference_at (plane_of rule.first.now) (plane_of rule.second.now) };

    ghost room = { λ n. pixel_size MAX * n };

    fn draw_row(&self, x: i32, y: i32, count: usize, spare: &mut [u8], into: &mut [u8])
        requires depth { IsDepth MAX }
        requires more { length spare.old ≡ pixel_size MAX * count }
        requires long { length into.old ≡ pixel_size MAX * count }
        ensures packed { IsPacked MAX into.new }
        ensures pixels { pixels_of MAX into.new ≡ drawn_span (difference_at (plane_of self.now.first.now) (plane_of self.now.second.now)) x y count }
    {
        self.first
            .read_packed_span(x as i64, y as i64, count, spare);
        self.second
            .read_packed_span(x as i64, y as i64, count, into);
        take_difference::<MAX>(spare, count, into);
    }
}
