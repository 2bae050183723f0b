//! The spatial effects of the stock, worked by hand.
ghost use Rattle.std.specs.Prelude.{◌≡◌};

use crate::calls::{drawn, prepared};
use crate::uses::{BASE, steady};
use argb_pixel::Pixel;
use argb_world::World;
use effect_api::Moment;
use fx_stock::Stock;
use geom_rect::Rect;
use rational_time::Tick;
use std::test::Fail;

// The first frame, of one tick.
const START: Moment = Moment {
    base: BASE,
    tick: Tick(0),
    frame: 1,
};

fn rect(left: i32, top: i32, right: i32, bottom: i32) -> Rect
    ensures { result ≡ record { left = left; top = top; right = right; bottom = bottom } }
{
    Rect {
        left,
        top,
        right,
        bottom,
    }
}

fn pixel(a: u32, r: u32, g: u32, b: u32) -> Result<Pixel<255>, Fail> {
    match Pixel::<255>::new(a, r, g, b) {
        Some(pixel) => Ok(pixel),
        None => Err("a pixel")?,
    }
}

// Of the 25 points around the second one, five are white: (5 * 255 + 12) / 25 = 51. Around its neighbours four are.
#[test]
fn a_blurred_row_has_means(rt: HostRuntime) -> Result<(), Fail> {
    let fx = steady(rt.alloc(), 7, &[2], &[])?;
    let input = World::solid(rt.alloc(), rect(-1, 0, 4, 1), pixel(255, 255, 255, 255)?)?;
    let mut target = World::<255>::blank(rt.alloc(), rect(-3, -2, 6, 3), rect(0, 0, 3, 1))?;
    drawn(rt.alloc(), &Stock, &fx, START, input, &mut target)?;
    assert_eq!(rt; target.at(0, 0), pixel(41, 41, 41, 41)?);
    assert_eq!(rt; target.at(1, 0), pixel(51, 51, 51, 51)?);
    assert_eq!(rt; target.at(2, 0), pixel(41, 41, 41, 41)?);
    Ok(())
}

// Half of 255 is 128, a half up.
#[test]
fn a_red_square_casts_a_black_shadow(rt: HostRuntime) -> Result<(), Fail> {
    let fx = steady(rt.alloc(), 9, &[1, 0, 5000, 0, 0, 0], &[])?;
    let input = World::solid(rt.alloc(), rect(0, 0, 1, 1), pixel(255, 255, 0, 0)?)?;
    let mut target = World::<255>::blank(rt.alloc(), rect(0, 0, 2, 1), rect(0, 0, 2, 1))?;
    drawn(rt.alloc(), &Stock, &fx, START, input, &mut target)?;
    assert_eq!(rt; target.at(0, 0), pixel(255, 255, 0, 0)?);
    assert_eq!(rt; target.at(1, 0), pixel(128, 0, 0, 0)?);
    Ok(())
}

#[test]
fn what_is_moved_out_comes_in_again(rt: HostRuntime) -> Result<(), Fail> {
    let fx = steady(rt.alloc(), 6, &[-4, 0], &[])?;
    let mut input = World::<255>::blank(rt.alloc(), rect(0, 0, 3, 1), rect(0, 0, 3, 1))?;
    input.set(0, 0, pixel(255, 1, 0, 0)?);
    input.set(1, 0, pixel(255, 2, 0, 0)?);
    input.set(2, 0, pixel(255, 3, 0, 0)?);
    let mut target = World::<255>::blank(rt.alloc(), rect(-1, 0, 4, 1), rect(-1, 0, 4, 1))?;
    drawn(rt.alloc(), &Stock, &fx, START, input, &mut target)?;
    assert_eq!(rt; target.at(-1, 0).a(), 0);
    assert_eq!(rt; target.at(0, 0).r(), 2);
    assert_eq!(rt; target.at(1, 0).r(), 3);
    assert_eq!(rt; target.at(2, 0).r(), 1);
    assert_eq!(rt; target.at(3, 0).a(), 0);
    Ok(())
}

// Blocks of 2 by 2 begin at the left top of 5 by 3 points, and are cut at the right and below.
#[test]
fn a_mosaic_draws_whole_blocks(rt: HostRuntime) -> Result<(), Fail> {
    let fx = steady(rt.alloc(), 8, &[2], &[])?;
    let part = prepared(
        rt.alloc(),
        &Stock,
        &fx,
        START,
        rect(0, 0, 5, 3),
        rect(1, 0, 2, 1),
    )?;
    assert_eq!(rt; part.result_rect, rect(0, 0, 2, 2));
    assert!(rt; part.extra);
    let whole = prepared(
        rt.alloc(),
        &Stock,
        &fx,
        START,
        rect(0, 0, 5, 3),
        rect(2, 2, 5, 3),
    )?;
    assert_eq!(rt; whole.result_rect, rect(2, 2, 5, 3));
    assert!(rt; !whole.extra);
    Ok(())
}
