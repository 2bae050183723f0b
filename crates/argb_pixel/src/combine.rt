//! Two pixels made into one, for a pixel and along a row.
ghost use Rattle.std.specs.Prelude.{◌≡◌, map, length};
ghost use lib.Lanes.{zip2};
ghost use Rattle.argb_pixel.specs.Depth.{IsDepth};
ghost use Rattle.argb_pixel.specs.Pixel.{Argb};

use crate::Pixel;

/// What is made of two pixels. The loops over rows stand once, for every such rule.
pub trait Combine<const MAX: u32> {
    ghost combined: { Argb → Argb → Argb };

    /// The pixel made of a source and a destination.
    fn combine(source: Pixel<MAX>, destination: Pixel<MAX>) -> Pixel<MAX>
        requires { IsDepth MAX }
        ensures { result ≡ combined source.entry destination.entry };
}

/// The pixel made of a source and a destination.
pub fn combine_pixel<C: Combine<MAX>, const MAX: u32>(
    source: Pixel<MAX>,
    destination: Pixel<MAX>,
) -> Pixel<MAX>
    requires { IsDepth MAX }
    ensures { result ≡ C.combined source.entry destination.entry }
{
    C::combine(source, destination)
}

/// Each pixel of a destination row becomes what is made of it and of the source's pixel at its place. The rows are
/// equally long.
pub fn combine_row<C: Combine<MAX>, const MAX: u32>(
    source: &[Pixel<MAX>],
    destination: &mut [Pixel<MAX>],
)
    requires depth { IsDepth MAX }
    requires long { length source.now ≡ length destination.old }
    ensures { destination.new ≡ zip2 C.combined source.now destination.old }
{
    for i in 0..destination.len() {
        destination[i] = C::combine(source[i], destination[i]);
    }
}

/// Each pixel of a destination row becomes what is made of it and of one source pixel.
pub fn combine_each<C: Combine<MAX>, const MAX: u32>(
    source: Pixel<MAX>,
    destination: &mut [Pixel<MAX>],
)
    requires { IsDepth MAX }
    ensures { destination.new ≡ map (C.combined source.entry) destination.old }
{
    for pixel in destination.iter_mut() {
        *pixel = C::combine(source, *pixel);
    }
}
