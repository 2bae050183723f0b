//! The sums of a picture's channels.
ghost use Rattle.std.specs.Prelude.{◌≡◌, ◌≤◌, ◌*◌, ◌^◌, ◌∷◌, [], pos, length};
ghost use Rattle.geom_rect.specs.Rect.{frame_rect, width_of};
ghost use Rattle.argb_pixel.specs.Depth.{IsDepth};
ghost use Rattle.argb_world.specs.Picture.{HasRow, row_of};
ghost use Rattle.frame_span.specs.Sums.{AreAtMost, both_sums, first_rows, sums_of};

use argb_pixel::{Pixel, pixel_in};
use argb_world::World;

/// The sum of each channel over some pixels.
#[derive(Clone, Copy, Debug, PartialEq, Eq)]
pub(crate) struct Sums {
    pub(crate) a: u64,
    pub(crate) r: u64,
    pub(crate) g: u64,
    pub(crate) b: u64,
}

impl Sums {
    // No pixel.
    const NONE: Sums = Sums {
        a: 0,
        r: 0,
        g: 0,
        b: 0,
    };

    // One pixel.
    fn of_pixel<const MAX: u32>(pixel: Pixel<MAX>) -> Sums
        ensures { result ≡ sums_of (pixel.entry ∷ []) }
    {
        Sums {
            a: pixel.a() as u64,
            r: pixel.r() as u64,
            g: pixel.g() as u64,
            b: pixel.b() as u64,
        }
    }

    // With the pixels of the other.
    fn with(self, other: Sums) -> Sums
        requires few { AreAtMost (2 ^ 62) self }
        requires few_more { AreAtMost (2 ^ 62) other }
        ensures { result ≡ both_sums self other }
    {
        Sums {
            a: self.a + other.a,
            r: self.r + other.r,
            g: self.g + other.g,
            b: self.b + other.b,
        }
    }
}

// The row at a height.
fn row_sums<const MAX: u32>(world: &World<MAX>, width: u32, y: i32) -> Sums
    requires depth { IsDepth MAX }
    requires width { width_of world.now.part ≡ width }
    requires row { HasRow world.now.part y }
    ensures { result ≡ sums_of (row_of world.now y) }
{
    let row = world.packed_row(y);
    let mut sums = Sums::NONE;
    'pixels: for x in 0..width as usize {
        sums = sums.with(Sums::of_pixel(pixel_in::<MAX>(row, x)));
    }
    sums
}

/// The picture over a frame of this width and height.
pub(crate) fn picture_sums<const MAX: u32>(world: &World<MAX>, width: u32, height: u32) -> Sums
    requires part { world.now.part ≡ frame_rect width height }
    ensures { result ≡ sums_of (first_rows world.now height) }
{
    let _part = world.part();
    let mut sums = Sums::NONE;
    'rows: for y in 0..height {
        sums = sums.with(row_sums(world, width, y as i32));
    }
    sums
}
