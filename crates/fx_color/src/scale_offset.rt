ghost use Rattle.std.specs.Prelude.{◌≡◌, ◌≤◌, pos, neg_ℤ, ◌≤ℤ◌, ◌+ℤ◌, ◌*ℤ◌, unsigned_abs};
ghost use Rattle.rational_time.specs.Times.{floor_of};
ghost use Rattle.argb_pixel.specs.Depth.{IsDepth};
ghost use Rattle.fx_color.specs.Formulas.{scaled, scaled_part, held_below};

use crate::recolor::Recolor;
use argb_pixel::Pixel;

/// Each colour scaled and moved, in 1/10000, and held between 0 and alpha. `scale` is within 0..=40000, `offset` within
/// -10000..=10000.
#[derive(Clone, Copy)]
pub struct ScaleOffset {
    pub scale: i32,
    pub offset: i32,
    pub ghost scale_low: { neg_ℤ (pos 40000) ≤ℤ scale },
    pub ghost scale_high: { scale ≤ℤ pos 40000 },
    pub ghost offset_low: { neg_ℤ (pos 40000) ≤ℤ offset },
    pub ghost offset_high: { offset ≤ℤ pos 40000 },
}

// A colour.
fn scale_part(scale: i32, offset: i32, a: u32, c: u32) -> u32
    requires scale_low { neg_ℤ (pos 40000) ≤ℤ scale }
    requires scale_high { scale ≤ℤ pos 40000 }
    requires offset_low { neg_ℤ (pos 40000) ≤ℤ offset }
    requires offset_high { offset ≤ℤ pos 40000 }
    requires alpha { a ≤ 32768 }
    requires colour { c ≤ a }
    ensures value { result ≡ scaled_part scale offset a c }
    ensures within { result ≤ a }
{
    held_below(a, scaled_sum(product(c, scale), product(a, offset)))
}

// A channel times a number.
fn exact_product(c: u32, z: i32) -> i64
    ensures { result ≡ pos c *ℤ z }
{
    c as i64 * z as i64
}

// The same, with bounds.
fn product(c: u32, z: i32) -> i64
    requires channel { c ≤ 32768 }
    requires low { neg_ℤ (pos 40000) ≤ℤ z }
    requires high { z ≤ℤ pos 40000 }
    ensures value { result ≡ pos c *ℤ z }
    ensures bound { unsigned_abs result ≤ 1310720000 }
{
    exact_product(c, z)
}

// Two products together, in 1/10000, a half up.
fn scaled_sum(x: i64, y: i64) -> i64
    requires first { unsigned_abs x ≤ 1310720000 }
    requires second { unsigned_abs y ≤ 1310720000 }
    ensures { result ≡ floor_of ((x +ℤ y) +ℤ pos 5000) (pos 10000) }
{
    (x + y + 5000).div_euclid(10000)
}

// A number held between 0 and another.
fn held_below(most: u32, z: i64) -> u32
    ensures value { result ≡ held_below most z }
    ensures within { result ≤ most }
{
    if z >= most as i64 {
        most
    } else if z <= 0 {
        0
    } else {
        z as u32
    }
}

impl<const MAX: u32> Recolor<MAX> for ScaleOffset {
    ghost recolored = { λ rule. scaled rule.scale rule.offset };

    fn recolor(&self, pixel: Pixel<MAX>) -> Pixel<MAX>
        requires { IsDepth MAX }
        ensures { result ≡ scaled self.now.scale self.now.offset pixel.entry }
    {
        let a = pixel.a();
        Pixel::of_channels(
            a,
            scale_part(self.scale, self.offset, a, pixel.r()),
            scale_part(self.scale, self.offset, a, pixel.g()),
            scale_part(self.scale, self.offset, a, pixel.b()),
        )
    }
}
