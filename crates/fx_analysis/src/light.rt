ghost use Rattle.std.specs.Prelude.{◌≡◌, ◌≤◌, ◌<◌, ◌+ℤ◌, pos, sum_by};
ghost use Rattle.geom_rect.specs.Rect.{count_between};
ghost use Rattle.argb_pixel.specs.Depth.{IsDepth};
ghost use Rattle.argb_pixel.specs.Pixel.{luma_of};
ghost use Rattle.comp_stack.specs.Layers.{plane_of};
ghost use Rattle.fx_analysis.specs.Sums.{line_of, pixels_in};

use crate::lines::{packed_line, row_count, row_length};
use argb_pixel::pixel_in;
use argb_world::World;

/// How bright pixels are together, and their alpha together.
#[derive(Clone, Copy, Debug, PartialEq, Eq)]
pub struct Light {
    pub luma: u64,
    pub alpha: u64,
}

impl Light {
    /// No light.
    pub const NONE: Light = Light { luma: 0, alpha: 0 };
}

// The light of the row that is `k` below the top.
fn row_light<const MAX: u32>(world: &World<MAX>, k: u32) -> Light
    requires depth { IsDepth MAX }
    requires whole { world.now.part ≡ world.now.extent }
    requires there { k < count_between world.now.extent.top world.now.extent.bottom }
    ensures luma { result.luma ≡ sum_by luma_of (line_of (plane_of world.now) (world.now.extent.top +ℤ pos k)) }
    ensures alpha { result.alpha ≡ sum_by (λ p. p.a) (line_of (plane_of world.now) (world.now.extent.top +ℤ pos k)) }
{
    let row = packed_line(world, k);
    let mut luma = 0u64;
    let mut alpha = 0u64;
    for i in 0..row_length(world) {
        let pixel = pixel_in::<MAX>(row, i);
        let a = pixel.a();
        luma += pixel.luma() as u64;
        alpha += a as u64;
    }
    Light { luma, alpha }
}

/// The light of a whole world.
pub(crate) fn world_light<const MAX: u32>(world: &World<MAX>) -> Light
    requires whole { world.now.part ≡ world.now.extent }
    ensures luma { result.luma ≡ sum_by luma_of (pixels_in (plane_of world.now)) }
    ensures alpha { result.alpha ≡ sum_by (λ p. p.a) (pixels_in (plane_of world.now)) }
{
    let _part = world.part();
    let mut luma = 0u64;
    let mut alpha = 0u64;
    'rows: for k in 0..row_count(world) {
        let row = row_light(world, k);
        luma += row.luma;
        alpha += row.alpha;
    }
    Light { luma, alpha }
}
