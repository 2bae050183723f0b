ghost use Rattle.std.specs.Prelude.{◌≡◌, map};
ghost use Rattle.argb_pixel.specs.Depth.{IsDepth};
ghost use Rattle.argb_pixel.specs.Pixel.{Argb};

use argb_pixel::Pixel;

/// What becomes of a pixel. The loops over rows stand once, for every such rule.
pub trait Recolor<const MAX: u32> {
    ghost recolored: { Self → Argb → Argb };

    /// The pixel that it becomes.
    fn recolor(&self, pixel: Pixel<MAX>) -> Pixel<MAX>
        requires { IsDepth MAX }
        ensures { result ≡ recolored self.now pixel.entry };
}

/// Each pixel of a row becomes what the rule makes of it.
pub fn recolor_each<R: Recolor<MAX>, const MAX: u32>(rule: &R, row: &mut [Pixel<MAX>])
    requires { IsDepth MAX }
    ensures { row.new ≡ map (R.recolored rule.now) row.old }
{
    for pixel in row.iter_mut() {
        *pixel = rule.recolor(*pixel);
    }
}
