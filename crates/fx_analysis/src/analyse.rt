ghost use Rattle.std.specs.Prelude.{◌≡◌, ℕ, ◌+◌, ◌≤◌, ◌<◌, ◌^◌, [], length, slice_index, slice_set, IfOk, if◌then◌else◌, ◌==◌};
ghost use Rattle.geom_rect.specs.Rect.{count_between};
ghost use Rattle.argb_pixel.specs.Depth.{IsDepth};
ghost use Rattle.argb_pixel.specs.Pixel.{IsPremultiplied};
ghost use Rattle.comp_stack.specs.Layers.{plane_of};
ghost use Rattle.fx_analysis.specs.Sums.{level_of, histogram_of, light_of, rows_of, pixels_in, class_sums};

use crate::light::world_light;
use crate::lines::{packed_line, row_count, row_length};
use argb_pixel::{Pixel, pixel_in};
use argb_world::World;
use host_io::Memory;
use std::alloc::Global;

// Room for the counts of 256 levels.
fn no_counts(alloc: Global) -> Result<Vec<u64>, Memory>
    ensures { IfOk result (λ counts. counts.items ≡ histogram_of []) }
{
    Ok(vec![in alloc; 0; 256]?)
}

// The level of a pixel that is not transparent.
fn level<const MAX: u32>(pixel: Pixel<MAX>) -> usize
    requires depth { IsDepth MAX }
    requires some { 0 < pixel.a }
    ensures value { result ≡ level_of pixel.entry }
    ensures within { result < 256 }
{
    let a = pixel.a();
    let bright = pixel.luma() * 255;
    if a == MAX {
        (bright / MAX) as usize
    } else {
        (bright / a) as usize
    }
}

// One pixel more is counted, where it is not transparent.
fn count_pixel<const MAX: u32>(pixel: Pixel<MAX>, counts: &mut [u64])
    requires depth { IsDepth MAX }
    requires levels { length counts.old ≡ 256 }
    requires room { (k : ℕ) → slice_index counts.old k < 2 ^ 63 }
    ensures counted { counts.new ≡ if pixel.entry.a == 0 then counts.old
        else slice_set counts.old (level_of pixel.entry) (slice_index counts.old (level_of pixel.entry) + 1) }
    ensures premultiplied { IsPremultiplied MAX pixel.entry }
{
    if pixel.a() != 0 {
        counts[level(pixel)] += 1;
    }
}

// The pixels of the row that is `k` below the top are counted.
fn count_row<const MAX: u32>(world: &World<MAX>, k: u32, counts: &mut [u64])
    requires depth { IsDepth MAX }
    requires whole { world.now.part ≡ world.now.extent }
    requires there { k < count_between world.now.extent.top world.now.extent.bottom }
    requires so_far { counts.old ≡ histogram_of (rows_of (plane_of world.now) k) }
    ensures { counts.new ≡ histogram_of (rows_of (plane_of world.now) (k + 1)) }
{
    let _part = world.part();
    let row = packed_line(world, k);
    for i in 0..row_length(world) {
        count_pixel(pixel_in::<MAX>(row, i), counts);
    }
}

// The pixels of a whole world are counted.
fn count_rows<const MAX: u32>(world: &World<MAX>, counts: &mut [u64])
    requires depth { IsDepth MAX }
    requires whole { world.now.part ≡ world.now.extent }
    requires none { counts.old ≡ histogram_of [] }
    ensures { counts.new ≡ histogram_of (pixels_in (plane_of world.now)) }
{
    'rows: for k in 0..row_count(world) {
        count_row(world, k, counts);
    }
}

// How many pixels are at each of the 256 levels.
fn histogram<const MAX: u32>(alloc: Global, world: &World<MAX>) -> Result<Vec<u64>, Memory>
    requires depth { IsDepth MAX }
    requires whole { world.now.part ≡ world.now.extent }
    ensures { IfOk result (λ sums. sums.items ≡ histogram_of (pixels_in (plane_of world.now))) }
{
    let mut counts = no_counts(alloc)?;
    count_rows(world, &mut counts);
    Ok(counts)
}

// The sums of luma and of alpha.
fn light<const MAX: u32>(alloc: Global, world: &World<MAX>) -> Result<Vec<u64>, Memory>
    requires { world.now.part ≡ world.now.extent }
    ensures { IfOk result (λ sums. sums.items ≡ light_of (pixels_in (plane_of world.now))) }
{
    let light = world_light(world);
    let mut sums = Vec::new(alloc);
    sums.push(light.luma)?;
    sums.push(light.alpha)?;
    Ok(sums)
}

/// The sums of a whole plane that a class answers: of class 1, `histogram`, how many pixels are at each level from 0 to 255,
/// `floor(luma*255 / alpha)`, where those that are transparent count nowhere; of class 2, `light`, the sum of the luma and the
/// sum of alpha. It goes over the plane once. Both are this project's own.
pub fn analyse_plane<const MAX: u32>(
    alloc: Global,
    class: u8,
    world: &World<MAX>,
) -> Result<Vec<u64>, Memory>
    requires depth { IsDepth MAX }
    requires class_low { 1 ≤ class }
    requires class_high { class ≤ 2 }
    requires whole { world.now.part ≡ world.now.extent }
    ensures { IfOk result (λ sums. sums.items ≡ class_sums class (plane_of world.now)) }
{
    if class == 1 {
        histogram(alloc, world)
    } else {
        light(alloc, world)
    }
}
