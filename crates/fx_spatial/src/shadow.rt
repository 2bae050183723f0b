ghost use Rattle.std.specs.Prelude.{◌≡◌, ◌≤◌, ◌*◌, length};
ghost use Rattle.argb_pixel.specs.Depth.{IsDepth};
ghost use Rattle.argb_pixel.specs.Pixel.{rounded};
ghost use Rattle.comp_stack.specs.Layers.{plane_of};
ghost use Rattle.fx_spatial.specs.Rows.{drawn_span, IsNearRow};
ghost use Rattle.fx_spatial.specs.Shadow.{shadow_of, shadowed_at};

use crate::rows::{DrawRow, less};
use argb_pixel::Pixel;
use argb_world::World;
use fx_color::{Recolor, recolor_each};
use transfer_mode::{Mode, blend_row};

/// How much of alpha a shadow has, and its colour, all in 1/10000.
#[derive(Clone, Copy)]
pub(crate) struct Cast {
    pub opacity: u32,
    pub red: u32,
    pub green: u32,
    pub blue: u32,
    pub ghost opacity_in_range: { opacity ≤ 10000 },
    pub ghost red_in_range: { red ≤ 10000 },
    pub ghost green_in_range: { green ≤ 10000 },
    pub ghost blue_in_range: { blue ≤ 10000 },
}

// The part of a channel, in 1/10000.
#[tactic(auto, using(argb_pixel::proofs::Rounded::rounded_part_le))]
fn share(channel: u32, part: u32) -> u32
    requires channel { channel ≤ 32768 }
    requires part { part ≤ 10000 }
    ensures value { result ≡ rounded (channel * part) 10000 }
    ensures within { result ≤ channel }
{
    (channel * part + 5000) / 10000
}

impl<const MAX: u32> Recolor<MAX> for Cast {
    ghost recolored = { λ cast. shadow_of cast.opacity cast.red cast.green cast.blue };

    fn recolor(&self, pixel: Pixel<MAX>) -> Pixel<MAX>
        requires { IsDepth MAX }
        ensures { result ≡ shadow_of self.now.opacity self.now.red self.now.green self.now.blue pixel.entry }
    {
        let a = share(pixel.a(), self.opacity);
        Pixel::of_channels(
            a,
            share(a, self.red),
            share(a, self.green),
            share(a, self.blue),
        )
    }
}

/// A picture over its shadow, which lies `dx` to the right and `dy` down.
#[derive(Drop)]
pub(crate) struct Shadowed<'a, const MAX: u32> {
    pub input: &'a World<MAX>,
    pub dx: i32,
    pub dy: i32,
    pub cast: Cast,
}

impl<'a, const MAX: u32> DrawRow<MAX> for Shadowed<'a, MAX> {
    ghost drawing = { λ rule. shadowed_at MAX rule.dx rule.dy (shadow_of rule.cast.opacity rule.cast.red rule.cast.green rule.cast.blue) (plane_of rule.input.now) };

    fn draw_row(&self, x: i32, y: i32, spare: &mut [Pixel<MAX>], into: &mut [Pixel<MAX>])
        requires depth { IsDepth MAX }
        requires near { IsNearRow x y (length into.old) }
        requires room { length spare.old ≡ length into.old }
        ensures { into.new ≡ drawn_span (shadowed_at MAX self.now.dx self.now.dy
            (shadow_of self.now.cast.opacity self.now.cast.red self.now.cast.green self.now.cast.blue) (plane_of self.now.input.now)) x y (length into.old) }
    {
        self.input
            .read_span(less(x, self.dx), less(y, self.dy), into);
        recolor_each(&self.cast, into);
        self.input.read_span(x as i64, y as i64, spare);
        blend_row(Mode::Normal, spare, into);
    }
}
