ghost use Rattle.std.specs.Prelude.{◌≡◌, ◌≤◌, ◌<◌, ◌*◌, ◌+ℤ◌, ◌-ℤ◌, ◌*ℤ◌, pos, length, if◌then◌else◌};
ghost use Rattle.geom_rect.specs.Rect.{has};
ghost use Rattle.rational_time.specs.Times.{floor_of};
ghost use Rattle.argb_pixel.specs.Depth.{IsDepth};
ghost use Rattle.argb_pixel.specs.Pixel.{clear};
ghost use Rattle.argb_world.specs.Picture.{at, span_of};
ghost use Rattle.comp_stack.specs.Layers.{plane_of};
ghost use Rattle.effect_api.specs.Planes.{IsSide};
ghost use Rattle.fx_spatial.specs.Rows.{drawn_span, IsNearRow};
ghost use Rattle.fx_spatial.specs.Near.{IsFar};
ghost use Rattle.fx_spatial.specs.Displace.{moved, displaced_at};

use crate::rows::DrawRow;
use argb_pixel::{Pixel, Transparent};
use argb_world::World;
use geom_rect::Rect;

/// A picture of which each point shows one at most `max_x` and `max_y` away, as the map says. Both are within
/// -1024..=1024.
#[derive(Drop)]
pub(crate) struct Displaced<'a, const MAX: u32> {
    pub input: &'a World<MAX>,
    pub map: &'a World<MAX>,
    pub max_x: i32,
    pub max_y: i32,
    pub ghost across: { IsFar 1024 max_x },
    pub ghost down: { IsFar 1024 max_y },
}

// Twice a colour less alpha: how far the colour is from half of it.
fn tilt(colour: u32, alpha: u32) -> i32
    requires colour { colour ≤ alpha }
    requires alpha { alpha ≤ 32768 }
    ensures { result ≡ pos (2 * colour) -ℤ pos alpha }
{
    2 * colour as i32 - alpha as i32
}

// The same, times a distance.
fn product(furthest: i32, tilt: i32) -> i32
    requires furthest { IsFar 1024 furthest }
    requires tilt { IsFar 32768 tilt }
    ensures { result ≡ furthest *ℤ tilt }
{
    furthest * tilt
}

// The part of a depth, rounded down.
fn part_of<const MAX: u32>(z: i32) -> i32
    requires { IsDepth MAX }
    ensures { result ≡ floor_of z (pos MAX) }
{
    z.div_euclid(MAX as i32)
}

// How far a colour of the map's pixel moves a point.
fn moved<const MAX: u32>(furthest: i32, colour: u32, alpha: u32) -> i32
    requires depth { IsDepth MAX }
    requires furthest { IsFar 1024 furthest }
    requires colour { colour ≤ alpha }
    requires alpha { alpha ≤ MAX }
    ensures value { result ≡ moved MAX furthest colour alpha }
    ensures within { IsFar 1024 result }
{
    part_of::<MAX>(product(furthest, tilt(colour, alpha)))
}

// Whether a point is in a rectangle.
fn is_inside(rect: &Rect, x: i32, y: i32) -> bool
    ensures { result ≡ has rect.now x y }
{
    rect.has(x, y)
}

// A number moved by at most 1024.
fn moved_by(x: i32, by: i32) -> i32
    requires near { IsSide x }
    requires few { IsFar 1024 by }
    ensures { result ≡ x +ℤ by }
{
    x + by
}

// The column that is `k` to the right of another.
fn column(x: i32, k: usize) -> i32
    requires across { IsSide x }
    requires end { IsSide (x +ℤ pos k) }
    ensures { result ≡ x +ℤ pos k }
{
    (x as i64 + k as i64) as i32
}

// What is drawn at a point, for the map's pixel there.
fn displace_point<const MAX: u32>(
    rule: &Displaced<MAX>,
    x: i32,
    y: i32,
    pixel: Pixel<MAX>,
) -> Pixel<MAX>
    requires depth { IsDepth MAX }
    requires across { IsSide x }
    requires down { IsSide y }
    ensures { result ≡ if has rule.now.input.now.extent x y
        then at rule.now.input.now (x +ℤ moved MAX rule.now.max_x pixel.entry.r pixel.entry.a) (y +ℤ moved MAX rule.now.max_y pixel.entry.g pixel.entry.a)
        else clear }
{
    if is_inside(&rule.input.extent(), x, y) {
        let across = moved::<MAX>(rule.max_x, pixel.r(), pixel.a());
        let down = moved::<MAX>(rule.max_y, pixel.g(), pixel.a());
        rule.input.at(moved_by(x, across), moved_by(y, down))
    } else {
        Pixel::CLEAR
    }
}

// The row of points from `(x, y)` on is drawn over the map's pixels there.
fn displace_each<const MAX: u32>(rule: &Displaced<MAX>, x: i32, y: i32, into: &mut [Pixel<MAX>])
    requires depth { IsDepth MAX }
    requires near { IsNearRow x y (length into.old) }
    requires map { into.old ≡ span_of rule.now.map.now x y (length into.old) }
    ensures { into.new ≡ drawn_span (displaced_at MAX rule.now.max_x rule.now.max_y (plane_of rule.now.input.now) (plane_of rule.now.map.now)) x y (length into.old) }
{
    'points: for k in 0..into.len() {
        into[k] = displace_point(rule, column(x, k), y, into[k]);
    }
}

impl<'a, const MAX: u32> DrawRow<MAX> for Displaced<'a, MAX> {
    ghost drawing = { λ rule. displaced_at MAX rule.max_x rule.max_y (plane_of rule.input.now) (plane_of rule.map.now) };

    fn draw_row(&self, x: i32, y: i32, _spare: &mut [Pixel<MAX>], into: &mut [Pixel<MAX>])
        requires depth { IsDepth MAX }
        requires near { IsNearRow x y (length into.old) }
        ensures { into.new ≡ drawn_span (displaced_at MAX self.now.max_x self.now.max_y (plane_of self.now.input.now) (plane_of self.now.map.now)) x y (length into.old) }
    {
        self.map.read_span(x as i64, y as i64, into);
        displace_each(self, x, y, into);
    }
}
