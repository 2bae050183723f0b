//! A packed row of pixels over another one.
ghost use Rattle.std.specs.Prelude.{◌≡◌, ◌≤◌, ◌*◌, All, IsTrue, length};
ghost use lib.Lanes.{zip2};
ghost use Rattle.argb_pixel.specs.Depth.{IsDepth};
ghost use Rattle.argb_pixel.specs.Packed.{pixel_size, pixels_of, IsPacked};
ghost use Rattle.transfer_mode.specs.Transfer.{blend_of};

use argb_pixel::pixel_in;
use transfer_mode::{Mode, blend_packed};

// A number that no alpha of the row's is less than: the greatest value where all are opaque.
fn least_alpha<const MAX: u32>(row: &[u8], count: usize) -> u32
    requires depth { IsDepth MAX }
    requires packed { IsPacked MAX row.now }
    requires long { length row.now ≡ pixel_size MAX * count }
    ensures { All (λ p. result ≤ p.a) (pixels_of MAX row.now) }
{
    let mut least = MAX;
    for i in 0..count {
        least = least.min(pixel_in::<MAX>(row, i).a());
    }
    least
}

// Whether all pixels of the row are opaque. It looks at no other where the first one is not.
fn is_opaque<const MAX: u32>(row: &[u8], count: usize) -> bool
    requires depth { IsDepth MAX }
    requires packed { IsPacked MAX row.now }
    requires long { length row.now ≡ pixel_size MAX * count }
    ensures { IsTrue result → All (λ p. MAX ≤ p.a) (pixels_of MAX row.now) }
{
    if count == 0 || pixel_in::<MAX>(row, 0).a() < MAX {
        return false;
    }
    least_alpha::<MAX>(row, count) == MAX
}

/// Blends a packed row of so many pixels over another one. In Normal mode an opaque row hides what is below it.
pub(crate) fn lay_row<const MAX: u32>(mode: Mode, row: &[u8], count: usize, into: &mut [u8])
    requires depth { IsDepth MAX }
    requires row { IsPacked MAX row.now }
    requires long { length row.now ≡ pixel_size MAX * count }
    requires into { IsPacked MAX into.old }
    requires same { length into.old ≡ length row.now }
    ensures long { length into.new ≡ length into.old }
    ensures packed { IsPacked MAX into.new }
    ensures value { pixels_of MAX into.new ≡ zip2 (blend_of MAX mode) (pixels_of MAX row.now) (pixels_of MAX into.old) }
{
    match mode {
        Mode::Normal if is_opaque::<MAX>(row, count) => into.copy_from_slice(row),
        _ => blend_packed::<MAX>(mode, row, into),
    }
}
