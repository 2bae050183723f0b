//! Pictures as the bytes of files.

ghost use Rattle.std.specs.Prelude.{◌≡◌, IfOk};
ghost use Rattle.argb_world.specs.Picture.{SameExtentAndPart};

use argb_pixel::Pixel;
use argb_world::World;
use frame_file::{frame_bytes, into_frame_bytes};
use geom_rect::Rect;
use std::alloc::Global;
use std::test::Fail;

// The left side of the pictures.
const LEFT: i32 = -100;

// Their top.
const TOP: i32 = 7;

// Sets the pixel at a point that the picture has.
fn set_at(world: &mut World<255>, x: i32, y: i32, pixel: Pixel<255>)
    ensures { SameExtentAndPart world.old world.new }
{
    let part = world.part();
    if part.has(x, y) {
        world.set(x, y, pixel);
    }
}

// The pixel of a column and a row, which has both as its colours.
fn pixel_of(column: u8, row: u8) -> Pixel<255> {
    Pixel::of_channels(255, u32::from(column), u32::from(row), 9)
}

// A picture of 256 rows, with the columns from 0 to the last.
fn picture(alloc: Global, last: u8) -> Result<World<255>, Fail>
    ensures { IfOk result (λ world. world.part ≡ world.extent) }
{
    let extent = Rect {
        left: LEFT,
        top: TOP,
        right: LEFT + i32::from(last) + 1,
        bottom: TOP + 256,
    };
    let mut world = World::blank(alloc, extent, extent)?;
    for row in 0..=255u8 {
        for column in 0..=last {
            let x = LEFT + i32::from(column);
            let y = TOP + i32::from(row);
            set_at(&mut world, x, y, pixel_of(column, row));
        }
    }
    Ok(world)
}

// Its bytes, by the columns and the rows.
fn bytes_of(alloc: Global, last: u8) -> Result<Vec<u8>, Fail> {
    let mut bytes = Vec::new(alloc);
    for row in 0..=255u8 {
        for column in 0..=last {
            bytes.extend_from_slice(&[255, column, row, 9])?;
        }
    }
    Ok(bytes)
}

// 65,536 pixels are copied in several threads, and 65,280 in one.
#[test]
fn large_and_small_pictures_are_copied_alike(rt: HostRuntime) -> Result<(), Fail> {
    for last in [255, 254] {
        let world = picture(rt.alloc(), last)?;
        let want = bytes_of(rt.alloc(), last)?;
        let copied = frame_bytes(&rt, rt.alloc(), &world)?;
        assert!(rt; copied == want, "copied, up to column {last}");
        assert!(rt;
            into_frame_bytes(world) == want,
            "moved, up to column {last}"
        );
    }
    Ok(())
}
