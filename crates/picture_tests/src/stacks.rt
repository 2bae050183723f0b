use argb_pixel::{Pixel, Transparent};
use argb_world::World;
use comp_stack::{Placed, Shown, stack};
use geom_rect::Rect;
use std::test::Fail;
use track_matte::Matte;
use transfer_mode::Mode;

type Eight = Pixel<255>;

type Sixteen = Pixel<32768>;

const FRAME: Rect = Rect {
    left: 0,
    top: 0,
    right: 3,
    bottom: 2,
};

const POINT: Rect = Rect {
    left: 0,
    top: 0,
    right: 1,
    bottom: 1,
};

const LONG: Rect = Rect {
    left: -10,
    top: 0,
    right: 600,
    bottom: 1,
};

#[test]
fn stacks_layers_with_mode_matte_and_opacity(rt: HostRuntime) -> Result<(), Fail> {
    let black = Eight::of_channels(255, 0, 0, 0);
    let grey = Eight::of_channels(255, 128, 128, 128);
    let orange = Eight::of_channels(255, 200, 100, 0);
    let background = Placed {
        layer: Shown {
            world: World::solid(rt.alloc(), FRAME, black)?,
            x: 0,
            y: 0,
            opacity: 10000,
        },
        mode: Mode::Normal,
        matte: Matte::None,
        over: None,
    };
    let masked = Placed {
        layer: Shown {
            world: World::solid(rt.alloc(), POINT, orange)?,
            x: 1,
            y: 1,
            opacity: 5000,
        },
        mode: Mode::Add,
        matte: Matte::LumaInverted,
        over: Some(Shown {
            world: World::solid(rt.alloc(), POINT, grey)?,
            x: 1,
            y: 1,
            opacity: 10000,
        }),
    };
    let mut ground = World::<255>::blank(rt.alloc(), FRAME, FRAME)?;
    stack(&mut ground, &[masked, background]);
    for (x, y) in [(0, 0), (1, 0), (2, 0), (0, 1), (2, 1)] {
        assert_eq!(rt; ground.at(x, y), black, "at {x} {y}");
    }
    // the matte lets 127/255 through: (127, 100, 50, 0), half of which is (64, 50, 25, 0)
    assert_eq!(rt; ground.at(1, 1), Eight::of_channels(255, 50, 25, 0));
    Ok(())
}

#[test]
fn stacks_a_long_row(rt: HostRuntime) -> Result<(), Fail> {
    let mut world = World::<32768>::blank(rt.alloc(), LONG, LONG)?;
    let pixel = Sixteen::of_channels(32768, 16384, 0, 1);
    world.set(-10, 0, pixel);
    world.set(599, 0, pixel);
    let layer = Placed {
        layer: Shown {
            world,
            x: 20,
            y: 0,
            opacity: 10000,
        },
        mode: Mode::Normal,
        matte: Matte::None,
        over: None,
    };
    let right = Rect {
        left: 0,
        top: -1,
        right: 700,
        bottom: 2,
    };
    let mut ground = World::<32768>::blank(rt.alloc(), right, right)?;
    stack(&mut ground, &[layer]);
    for (x, y, want) in [
        (9, 0, Sixteen::CLEAR),
        (10, 0, pixel),
        (11, 0, Sixteen::CLEAR),
        (618, 0, Sixteen::CLEAR),
        (619, 0, pixel),
        (620, 0, Sixteen::CLEAR),
        (10, 1, Sixteen::CLEAR),
        (619, -1, Sixteen::CLEAR),
    ] {
        assert_eq!(rt; ground.at(x, y), want, "at {x} {y}");
    }
    Ok(())
}

#[test]
fn a_stencil_takes_what_it_does_not_cover(rt: HostRuntime) -> Result<(), Fail> {
    let white = Eight::of_channels(255, 255, 255, 255);
    let mut ground = World::solid(rt.alloc(), FRAME, white)?;
    let stencil = Placed {
        layer: Shown {
            world: World::solid(rt.alloc(), POINT, white)?,
            x: 2,
            y: 0,
            opacity: 10000,
        },
        mode: Mode::StencilAlpha,
        matte: Matte::None,
        over: None,
    };
    stack(&mut ground, &[stencil]);
    for (x, y, want) in [
        (2, 0, white),
        (0, 0, Eight::CLEAR),
        (1, 0, Eight::CLEAR),
        (2, 1, Eight::CLEAR),
    ] {
        assert_eq!(rt; ground.at(x, y), want, "at {x} {y}");
    }
    Ok(())
}
