ghost use Rattle.std.specs.Prelude.{◌≡◌, ◌≤◌, ◌+◌, ◌-◌, ◌*◌, ◌/◌};
ghost use Rattle.argb_pixel.specs.Depth.{IsDepth};
ghost use Rattle.fx_color.specs.Formulas.{tinted_part, tinted_by};

use crate::recolor::Recolor;
use argb_pixel::Pixel;

/// A colour of a tint: what black becomes, and what white becomes, in 1/10000 of alpha.
#[derive(Clone, Copy)]
pub struct Ends {
    pub black: u32,
    pub white: u32,
    pub ghost black_in_range: { black ≤ 10000 },
    pub ghost white_in_range: { white ≤ 10000 },
}

/// Each colour mixed with what lies between a black and a white, by how bright the pixel is. `amount` is how much of that, in
/// 1/10000.
#[derive(Clone, Copy)]
pub struct Tint {
    pub red: Ends,
    pub green: Ends,
    pub blue: Ends,
    pub amount: u32,
    pub ghost amount_in_range: { amount ≤ 10000 },
}

// A colour.
fn tint_part(ends: Ends, amount: u32, a: u32, luma: u32, c: u32) -> u32
    requires amount { amount ≤ 10000 }
    requires alpha { a ≤ 32768 }
    requires luma { luma ≤ a }
    requires colour { c ≤ a }
    ensures value { result ≡ tinted_part ends.black ends.white amount a luma c }
    ensures within { result ≤ a }
{
    mixed(a, c, mean(ends, a, luma), amount)
}

// What lies between its black and its white, by how bright the pixel is.
#[tactic(auto, using(crate::specs::Parts::mean_within))]
fn mean(ends: Ends, a: u32, luma: u32) -> u32
    requires alpha { a ≤ 32768 }
    requires luma { luma ≤ a }
    ensures value { result ≡ (ends.black * (a - luma) + ends.white * luma + 5000) / 10000 }
    ensures within { result ≤ a }
{
    (ends.black * (a - luma) + ends.white * luma + 5000) / 10000
}

// Two numbers that are at most `a`, mixed.
#[tactic(auto, using(crate::specs::Parts::mixed_within))]
fn mixed(a: u32, x: u32, y: u32, amount: u32) -> u32
    requires alpha { a ≤ 32768 }
    requires first { x ≤ a }
    requires second { y ≤ a }
    requires amount { amount ≤ 10000 }
    ensures value { result ≡ (x * (10000 - amount) + y * amount + 5000) / 10000 }
    ensures within { result ≤ a }
{
    (x * (10000 - amount) + y * amount + 5000) / 10000
}

impl<const MAX: u32> Recolor<MAX> for Tint {
    ghost recolored = { λ tint. tinted_by tint.amount tint.red.black tint.red.white tint.green.black tint.green.white tint.blue.black tint.blue.white };

    fn recolor(&self, pixel: Pixel<MAX>) -> Pixel<MAX>
        requires { IsDepth MAX }
        ensures { result ≡ tinted_by self.now.amount self.now.red.black self.now.red.white self.now.green.black self.now.green.white self.now.blue.black self.now.blue.white pixel.entry }
    {
        let a = pixel.a();
        let luma = pixel.luma();
        Pixel::of_channels(
            a,
            tint_part(self.red, self.amount, a, luma, pixel.r()),
            tint_part(self.green, self.amount, a, luma, pixel.g()),
            tint_part(self.blue, self.amount, a, luma, pixel.b()),
        )
    }
}
