ghost use Rattle.std.specs.Prelude.{◌≡◌, ◌*◌, ◌/◌, ◌<◌, ◌++◌, pos, ◌+ℤ◌, ◌<ℤ◌, length, IfOk, OnOk};
ghost use Rattle.argb_pixel.specs.Depth.{IsDepth};
ghost use Rattle.argb_pixel.specs.Packed.{pixel_size};
ghost use Rattle.argb_world.specs.Picture.{HasRow};
ghost use Rattle.geom_rect.specs.Rect.{area_of, count_between, width_of};
ghost use Rattle.frame_file.specs.Afr as afr;

use argb_pixel::pixel_size;
use argb_world::World;
use geom_rect::Rect;
use host_io::Memory;
use rayon::prelude::*;
use std::alloc::Global;
use std::thread::Threads;

// The fewest pixels of a picture whose rows are copied in several threads.
const SHARED_PIXELS: u64 = 65_536;

/// The pixels of a picture, its rows from top to bottom, each from left to right: alpha, red, green and blue, with one byte a
/// channel where `MAX` is 255 and two, big endian, where it is 32768. The picture's part is its whole extent. A picture of at
/// least 65,536 pixels is copied in several threads, which gives the same bytes.
pub fn frame_bytes<R: Threads + Sync, const MAX: u32>(
    rt: &R,
    alloc: Global,
    world: &World<MAX>,
) -> Result<Vec<u8>, Memory>
    requires whole { world.now.part ≡ world.now.extent }
    ensures { IfOk result (λ bytes. bytes.items ≡ afr.world_bytes MAX world.now) }
{
    if world.part().area() < SHARED_PIXELS {
        rows_in_turn(alloc, world)
    } else {
        rows_in_threads(rt, alloc, world)
    }
}

// The rows of a picture, one after another.
fn rows_in_turn<const MAX: u32>(alloc: Global, world: &World<MAX>) -> Result<Vec<u8>, Memory>
    ensures { IfOk result (λ bytes. bytes.items ≡ afr.world_bytes MAX world.now) }
{
    let part = world.part();
    let mut bytes = Vec::with_capacity(alloc, part.area() as usize * pixel_size::<MAX>())?;
    for k in 0..count(part.top, part.bottom) {
        push_row(world, row_at(part.top, part.bottom, k), &mut bytes)?;
    }
    Ok(bytes)
}

// The same of a picture that has pixels, in several threads.
fn rows_in_threads<R: Threads + Sync, const MAX: u32>(
    rt: &R,
    alloc: Global,
    world: &World<MAX>,
) -> Result<Vec<u8>, Memory>
    requires { 0 < area_of world.now.part }
    ensures { IfOk result (λ bytes. bytes.items ≡ afr.world_bytes MAX world.now) }
{
    let mut bytes = zeros(alloc, world.part().area() as usize * pixel_size::<MAX>())?;
    copy_rows(rt, world, &mut bytes);
    Ok(bytes)
}

/// The pixels of a picture's part, as `frame_bytes` has them, in the memory of the picture. It takes none.
pub fn into_frame_bytes<const MAX: u32>(world: World<MAX>) -> Vec<u8>
    ensures { result.items ≡ afr.world_bytes MAX world.entry }
{
    world.into_packed()
}

// How many whole numbers there are from `low`, inclusive, to `high`, exclusive.
fn count(low: i32, high: i32) -> usize
    ensures { result ≡ count_between low high }
{
    if low < high {
        (high as i64 - low as i64) as usize
    } else {
        0
    }
}

// The height of a row, by its number from the top.
fn row_at(top: i32, bottom: i32, k: usize) -> i32
    requires { k < count_between top bottom }
    ensures value { result ≡ (top +ℤ pos k) }
    ensures above { result <ℤ bottom }
{
    (top as i64 + k as i64) as i32
}

// Adds the bytes of the picture's row at the height `y`, as they are kept.
fn push_row<const MAX: u32>(world: &World<MAX>, y: i32, bytes: &mut Vec<u8>) -> Result<(), Memory>
    requires depth { IsDepth MAX }
    requires height { HasRow world.now.part y }
    ensures { OnOk result (bytes.new.items ≡ bytes.old.items ++ afr.world_row_bytes MAX world.now y) }
{
    bytes.extend_from_slice(world.packed_row(y))?;
    Ok(())
}

// Room for so many bytes.
fn zeros(alloc: Global, count: usize) -> Result<Vec<u8>, Memory>
    ensures { IfOk result (λ bytes. length bytes.items ≡ count) }
{
    Ok(vec![in alloc; 0u8; count]?)
}

// Writes the rows of a picture that has pixels over these bytes, in several threads.
fn copy_rows<R: Threads + Sync, const MAX: u32>(rt: &R, world: &World<MAX>, into: &mut [u8])
    requires some { 0 < area_of world.now.part }
    requires long { length into.old ≡ area_of world.now.part * pixel_size MAX }
    ensures { into.new ≡ afr.world_bytes MAX world.now }
{
    let size = row_size(world);
    par_chunks_mut_for_each(
        rt,
        into,
        size,
        |start: usize, row: &mut [u8]|
            requires some { 0 < size }
            requires height { start / size < count_between world.now.part.top world.now.part.bottom }
            requires long { length row.now ≡ pixel_size MAX * width_of world.now.part }
            ensures { row.exit.now ≡ afr.world_row_bytes MAX world.entry.now (world.entry.now.part.top +ℤ pos (start / size)) }
        { copy_row(world, start / size, row) },
    );
}

// How many bytes a row has.
fn row_size<const MAX: u32>(world: &World<MAX>) -> usize
    ensures { result ≡ pixel_size MAX * width_of world.now.part }
{
    let part = world.part();
    pixel_size::<MAX>() * count(part.left, part.right)
}

// Writes a row, by its number from the top, over these bytes.
fn copy_row<const MAX: u32>(world: &World<MAX>, k: usize, into: &mut [u8])
    requires height { k < count_between world.now.part.top world.now.part.bottom }
    requires long { length into.old ≡ pixel_size MAX * width_of world.now.part }
    ensures { into.new ≡ afr.world_row_bytes MAX world.now (world.now.part.top +ℤ pos k) }
{
    let part = world.part();
    into.copy_from_slice(world.packed_row(row_at(part.top, part.bottom, k)));
}
