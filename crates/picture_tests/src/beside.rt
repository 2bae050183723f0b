//! The stack beside a plain program, which draws the same layers a pixel after another.
ghost use Rattle.std.specs.Prelude.{◌≤◌, All, IfOk};
ghost use Rattle.argb_pixel.specs.Depth.{IsDepth};
ghost use Rattle.comp_stack.specs.Layers.{IsPlaced};

use argb_pixel::{Pixel, Transparent};
use argb_world::World;
use comp_stack::{Placed, Shown, stack};
use geom_rect::Rect;
use std::alloc::Global;
use std::process::Abort;
use std::test::Fail;
use track_matte::{Matte, matte_value};
use transfer_mode::{Mode, blend};

// Wider than the rows that the stack works on at once, and odd.
const FRAME: Rect = Rect {
    left: 0,
    top: 0,
    right: 301,
    bottom: 3,
};

const MODES: &[Mode] = &[
    Mode::Normal,
    Mode::Multiply,
    Mode::HardLight,
    Mode::ColorBurn,
    Mode::StencilAlpha,
    Mode::SilhouetteLuma,
];

const MATTES: &[Matte] = &[
    Matte::None,
    Matte::Alpha,
    Matte::AlphaInverted,
    Matte::Luma,
    Matte::LumaInverted,
];

// A pixel by its place: alphas and colours that rise and fall, and are often clear or opaque. All of row 0 is opaque.
fn wave<const MAX: u32>(number: u32, x: i32, y: i32) -> Pixel<MAX>
    requires { IsDepth MAX }
{
    let place = x
        .unsigned_abs()
        .wrapping_add(y.unsigned_abs().wrapping_mul(97));
    let rise = |across: u32, shift: u32| {
        place
            .wrapping_mul(across)
            .wrapping_add(number.wrapping_mul(shift))
            .wrapping_mul(MAX / 255)
    };
    let a = if y == 0 {
        MAX
    } else {
        (rise(7, 7) % (2 * MAX)).saturating_sub(MAX / 4).min(MAX)
    };
    let colour = |number: u32| (number % (2 * a + 1)).min(a);
    match Pixel::new(
        a,
        colour(rise(3, 11)),
        colour(rise(1, 17)),
        colour(rise(11, 5)),
    ) {
        Some(pixel) => pixel,
        None => Pixel::CLEAR,
    }
}

// Sets the pixel at a point of the part.
fn set_wave<const MAX: u32>(world: &mut World<MAX>, number: u32, x: i32, y: i32)
    requires { IsDepth MAX }
{
    let part = world.part();
    if part.has(x, y) {
        world.set(x, y, wave(number, x, y));
    }
}

// A picture of such pixels over the frame.
fn picture<const MAX: u32>(alloc: Global, number: u32) -> Result<World<MAX>, Fail>
    requires { IsDepth MAX }
{
    let mut world = World::<MAX>::blank(alloc, FRAME, FRAME)?;
    for y in 0..3 {
        for x in 0..301 {
            set_wave(&mut world, number, x, y);
        }
    }
    Ok(world)
}

// A layer that is partly outside of the frame, with a matte that is partly outside of the layer.
fn layer<const MAX: u32>(
    alloc: Global,
    mode: Mode,
    matte: Matte,
    opacity: u32,
) -> Result<Placed<MAX>, Fail>
    requires depth { IsDepth MAX }
    requires part { opacity ≤ 10000 }
    ensures { IfOk result IsPlaced }
{
    let world = picture(alloc, 1)?;
    let over = picture(alloc, 2)?;
    Ok(Placed {
        layer: Shown {
            world,
            x: -7,
            y: 1,
            opacity,
        },
        mode,
        matte,
        over: Some(Shown {
            world: over,
            x: 30,
            y: 0,
            opacity: 9000,
        }),
    })
}

// A layer of one colour over the whole frame.
fn solid_layer<const MAX: u32>(alloc: Global, mode: Mode) -> Result<Placed<MAX>, Fail>
    requires { IsDepth MAX }
    ensures { IfOk result IsPlaced }
{
    let world = World::solid(alloc, FRAME, wave(3, 40, 0))?;
    Ok(Placed {
        layer: Shown {
            world,
            x: 0,
            y: 0,
            opacity: 10000,
        },
        mode,
        matte: Matte::None,
        over: None,
    })
}

// The pixel of a picture at its position.
fn shown_at<const MAX: u32>(shown: &Shown<MAX>, x: i32, y: i32) -> Pixel<MAX>
    requires { IsDepth MAX }
{
    shown
        .world
        .at(x.wrapping_sub(shown.x), y.wrapping_sub(shown.y))
}

// What a layer makes of a pixel below it.
fn step<const MAX: u32>(placed: &Placed<MAX>, x: i32, y: i32, below: Pixel<MAX>) -> Pixel<MAX>
    requires { IsDepth MAX }
{
    let matte = match &placed.over {
        Some(shown) => shown_at(shown, x, y).scale(shown.opacity.min(10000)),
        None => Pixel::CLEAR,
    };
    let seen = shown_at(&placed.layer, x, y).mul(matte_value(placed.matte, matte));
    let source = seen.scale(placed.layer.opacity.min(10000));
    blend(placed.mode, source, below)
}

// Draws the layers both ways over the same picture.
fn agree<const MAX: u32>(rt: &impl Abort, alloc: Global, layers: &[Placed<MAX>]) -> Result<(), Fail>
    requires depth { IsDepth MAX }
    requires layers { All IsPlaced layers.now }
{
    let below = picture::<MAX>(alloc, 5)?;
    let mut ground = picture::<MAX>(alloc, 5)?;
    stack(&mut ground, layers);
    for y in 0..3 {
        for x in 0..301 {
            let mut want = below.at(x, y);
            for layer in layers.iter().rev() {
                want = step(layer, x, y, want);
            }
            assert_eq!(rt; ground.at(x, y), want, "at {x} {y}");
        }
    }
    Ok(())
}

// Layers over one another, in some of the modes, with each kind of matte and without.
fn agree_in_each_mode<const MAX: u32>(rt: &impl Abort, alloc: Global) -> Result<(), Fail>
    requires { IsDepth MAX }
{
    for mode in MODES {
        for matte in MATTES {
            let top = layer(alloc, *mode, *matte, 3333)?;
            let lower = layer(alloc, *mode, Matte::None, 10000)?;
            let lowest = solid_layer(alloc, *mode)?;
            agree::<MAX>(rt, alloc, &[top, lower, lowest])?;
        }
    }
    Ok(())
}

#[test]
fn the_plain_program_agrees_at_8_bit(rt: HostRuntime) -> Result<(), Fail> {
    agree_in_each_mode::<255>(&rt, rt.alloc())
}

#[test]
fn the_plain_program_agrees_at_16_bit(rt: HostRuntime) -> Result<(), Fail> {
    agree_in_each_mode::<32768>(&rt, rt.alloc())
}
