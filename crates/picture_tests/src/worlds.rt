ghost use Rattle.argb_pixel.specs.Depth.{IsDepth};

use argb_pixel::{Pixel, Transparent, pixel_size};
use argb_world::World;
use geom_rect::Rect;
use std::alloc::Global;
use std::process::Abort;
use std::test::Fail;

type Eight = Pixel<255>;

type Sixteen = Pixel<32768>;

const EXTENT: Rect = Rect {
    left: -5,
    top: -4,
    right: 6,
    bottom: 5,
};

// Five points wide and three high.
const PART: Rect = Rect {
    left: -3,
    top: -2,
    right: 2,
    bottom: 1,
};

fn paints<const MAX: u32>(
    rt: &impl Abort,
    alloc: Global,
    p: Pixel<MAX>,
    q: Pixel<MAX>,
) -> Result<(), Fail>
    requires { IsDepth MAX }
{
    let none = Pixel::CLEAR;
    let mut world = World::<MAX>::blank(alloc, EXTENT, PART)?;
    assert_eq!(rt; world.extent(), EXTENT);
    assert_eq!(rt; world.part(), PART);
    for (x, y) in [(-3, -2), (0, 0), (1, 0), (-4, -2), (2, 0), (9, 9)] {
        assert_eq!(rt; world.at(x, y), none, "at {x} {y}");
    }
    world.set(-3, -2, p);
    world.set(1, 0, q);
    for (x, y, want) in [
        (-3, -2, p),
        (1, 0, q),
        (-2, -2, none),
        (0, 0, none),
        (2, 0, none),
        (-4, -2, none),
        (1, 1, none),
        (-2, -3, none),
    ] {
        assert_eq!(rt; world.at(x, y), want, "at {x} {y}");
    }
    world.set_row(-1, &[p, q, none, q, p]);
    let mut row = [none; 5];
    world.row(-2, &mut row);
    assert_eq!(rt; row, [p, none, none, none, none]);
    world.row(-1, &mut row);
    assert_eq!(rt; row, [p, q, none, q, p]);
    world.row(0, &mut row);
    assert_eq!(rt; row, [none, none, none, none, q]);
    assert_eq!(rt; world.at(-2, -1), q);
    assert_eq!(rt; world.at(1, -1), p);
    Ok(())
}

// A row of five points, of which the first and the last are `p`, as its bytes.
fn packs<const MAX: u32>(
    rt: &impl Abort,
    alloc: Global,
    p: Pixel<MAX>,
    bytes: &[u8],
) -> Result<(), Fail>
    requires { IsDepth MAX }
{
    let none = Pixel::CLEAR;
    let mut world = World::<MAX>::blank(alloc, EXTENT, PART)?;
    let mut copy = World::<MAX>::blank(alloc, EXTENT, PART)?;
    world.set(-3, -1, p);
    world.set(1, -1, p);
    copy.set_packed_row(0, world.packed_row(-1));
    assert_eq!(rt; world.packed_row(-1), bytes);
    assert_eq!(rt; copy.packed_row(0), bytes);
    assert_eq!(rt; copy.packed_row(-1), world.packed_row(-2));
    for (x, y, want) in [(-3, 0, p), (-2, 0, none), (1, 0, p), (-3, -1, none)] {
        assert_eq!(rt; copy.at(x, y), want, "at {x} {y}");
    }
    assert_eq!(rt; world.packed_span(-3, -1, 5), Some(bytes));
    assert_eq!(rt; world.packed_span(-4, -1, 3), None);
    // The last of three rows.
    let all = copy.into_packed();
    assert_eq!(rt; all.len(), 3 * 5 * pixel_size::<MAX>());
    assert!(rt; all.as_slice().ends_with(bytes));
    Ok(())
}

#[test]
fn packs_a_row_of_depth_8(rt: HostRuntime) -> Result<(), Fail> {
    let bytes = [
        255, 1, 2, 3, 0, 0, 0, 0, 0, 0, 0, 0, 0, 0, 0, 0, 255, 1, 2, 3,
    ];
    packs(&rt, rt.alloc(), Eight::of_channels(255, 1, 2, 3), &bytes)
}

#[test]
fn packs_a_row_of_depth_16(rt: HostRuntime) -> Result<(), Fail> {
    let bytes = [
        128, 0, 64, 0, 0, 0, 0, 1, 0, 0, 0, 0, 0, 0, 0, 0, 0, 0, 0, 0, 0, 0, 0, 0, 0, 0, 0, 0, 0,
        0, 0, 0, 128, 0, 64, 0, 0, 0, 0, 1,
    ];
    packs(
        &rt,
        rt.alloc(),
        Sixteen::of_channels(32768, 16384, 0, 1),
        &bytes,
    )
}

#[test]
fn paints_a_picture_of_depth_8(rt: HostRuntime) -> Result<(), Fail> {
    paints(
        &rt,
        rt.alloc(),
        Eight::of_channels(255, 1, 2, 3),
        Eight::of_channels(7, 6, 5, 4),
    )
}

#[test]
fn paints_a_picture_of_depth_16(rt: HostRuntime) -> Result<(), Fail> {
    paints(
        &rt,
        rt.alloc(),
        Sixteen::of_channels(32768, 1, 2, 3),
        Sixteen::of_channels(700, 600, 500, 400),
    )
}

#[test]
fn keeps_nothing_of_an_empty_part(rt: HostRuntime) -> Result<(), Fail> {
    let part = Rect {
        left: 3,
        top: -2,
        right: 3,
        bottom: 1,
    };
    let world = World::<255>::blank(rt.alloc(), EXTENT, part)?;
    assert_eq!(rt; world.part(), part);
    assert_eq!(rt; world.at(3, 0), Pixel::CLEAR);
    world.row(0, &mut []);
    Ok(())
}

#[test]
fn makes_a_large_picture(rt: HostRuntime) -> Result<(), Fail> {
    let frame = Rect {
        left: 0,
        top: 0,
        right: 4096,
        bottom: 2160,
    };
    let mut world = World::<32768>::blank(rt.alloc(), frame, frame)?;
    let pixel = Sixteen::of_channels(32768, 1, 2, 3);
    world.set(4095, 2159, pixel);
    assert_eq!(rt; world.at(4095, 2159), pixel);
    assert_eq!(rt; world.at(4094, 2159), Pixel::CLEAR);
    Ok(())
}

#[test]
fn keeps_a_solid(rt: HostRuntime) -> Result<(), Fail> {
    let colour = Eight::of_channels(200, 1, 2, 3);
    let solid = World::solid(rt.alloc(), EXTENT, colour)?;
    assert_eq!(rt; solid.colour(), Some(colour));
    assert_eq!(rt; solid.part(), EXTENT);
    let none = Pixel::CLEAR;
    let mut span = [none; 4];
    solid.read_span(4, 0, &mut span);
    assert_eq!(rt; span, [colour, colour, none, none]);
    assert_eq!(rt; solid.covered(4, 0, 4), (0, 2));
    Ok(())
}

#[test]
fn crops_a_solid(rt: HostRuntime) -> Result<(), Fail> {
    let colour = Eight::of_channels(200, 1, 2, 3);
    let solid = World::solid(rt.alloc(), EXTENT, colour)?;
    let part = solid.part();
    let cropped = solid.crop(rt.alloc(), part)?;
    assert_eq!(rt; cropped.extent(), EXTENT);
    assert_eq!(rt; cropped.at(5, 4), colour);
    assert_eq!(rt; cropped.at(6, 4), Pixel::CLEAR);
    Ok(())
}

#[test]
fn copies_what_was_set(rt: HostRuntime) -> Result<(), Fail> {
    let colour = Eight::of_channels(200, 1, 2, 3);
    let mut world = World::<255>::blank(rt.alloc(), EXTENT, PART)?;
    world.set_span(-1, 0, &[colour, colour]);
    let mut copy = World::<255>::blank(rt.alloc(), EXTENT, EXTENT)?;
    copy.copy_from(&world);
    assert_eq!(rt; copy.at(-2, 0), Pixel::CLEAR);
    assert_eq!(rt; copy.at(-1, 0), colour);
    assert_eq!(rt; copy.at(0, 0), colour);
    assert_eq!(rt; copy.at(1, 0), Pixel::CLEAR);
    Ok(())
}
