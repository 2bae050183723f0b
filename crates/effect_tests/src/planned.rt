//! What a request needs.
ghost use Rattle.std.specs.Prelude.{◌≡◌};
ghost use Rattle.effect_api.specs.Planes.{HasSides};

use crate::calls::needed;
use crate::sparing::{drawn_sparingly, one_colour};
use crate::uses::{BASE, steady};
use crate::wide::{Wide, wide_use};
use argb_pixel::Pixel;
use effect_api::Moment;
use fx_stock::Stock;
use geom_rect::Rect;
use rational_time::Tick;
use smart_plan::DrawPlan;
use std::test::Fail;

// The sixth frame, of one tick.
const LATER: Moment = Moment {
    base: BASE,
    tick: Tick(5),
    frame: 1,
};

fn rect(left: i32, top: i32, right: i32, bottom: i32) -> Rect
    ensures { result ≡ record { left = left; top = top; right = right; bottom = bottom } }
{
    Rect {
        left,
        top,
        right,
        bottom,
    }
}

// What Invert needs for a request, over an extent of 4 by 2.
fn inverted(rt: &HostRuntime, request: Rect) -> Result<DrawPlan, Fail>
    requires { HasSides request }
{
    let fx = steady(rt.alloc(), 0, &[0], &[])?;
    Ok(needed::<255, Stock>(rt.alloc(), &Stock, &fx, LATER, &[rect(0, 0, 4, 2)], request)?)
}

#[test]
fn a_colour_effect_needs_what_it_draws(rt: HostRuntime) -> Result<(), Fail> {
    let plan = inverted(&rt, rect(-5, 1, 2, 9))?;
    assert_eq!(rt; plan.part(), rect(0, 1, 2, 2));
    assert_eq!(rt; plan.asks.len(), 0);
    assert_eq!(rt; plan.whole.as_slice(), [false].as_slice());
    assert_eq!(rt; plan.pre.checkouts.len(), 1);
    for checkout in plan.pre.checkouts.iter() {
        assert_eq!(rt; checkout.request, rect(0, 1, 2, 2));
    }
    Ok(())
}

#[test]
fn of_nothing_nothing_is_needed(rt: HostRuntime) -> Result<(), Fail> {
    let plan = inverted(&rt, rect(7, 0, 9, 2))?;
    assert_eq!(rt; plan.part(), Rect::ORIGIN);
    for checkout in plan.pre.checkouts.iter() {
        assert_eq!(rt; checkout.request, Rect::ORIGIN);
    }
    Ok(())
}

// It looks two points further, so that of the extent 0..10 by 0..3 columns 2 to 6 are needed. At tick 0 all is.
#[test]
fn more_is_needed_than_is_drawn(rt: HostRuntime) -> Result<(), Fail> {
    let fx = wide_use(rt.alloc());
    let extents = [rect(0, 0, 10, 3), rect(-20, -20, 20, 20)];
    let plan = needed::<255, Wide>(rt.alloc(), &Wide, &fx, LATER, &extents, rect(4, 1, 5, 2))?;
    assert_eq!(rt; plan.part(), rect(4, 1, 5, 2));
    assert_eq!(rt; plan.whole.as_slice(), [false, true].as_slice());
    let requests = [rect(2, 0, 7, 3), rect(-20, -20, 20, 20)];
    assert_eq!(rt; plan.pre.checkouts.len(), 2);
    for (number, checkout) in plan.pre.checkouts.iter().enumerate() {
        assert_eq!(rt; checkout.id as usize, number);
        assert_eq!(rt; checkout.request, requests[number]);
    }
    assert_eq!(rt; plan.asks.len(), 1);
    for ask in plan.asks.iter() {
        assert_eq!(rt; (ask.class, ask.ask, ask.want.tick), (1, 7, Tick(5)));
    }
    Ok(())
}

// Of the input 0..4 by 0..2 only columns 1 and 2 of the upper row are drawn.
#[test]
fn a_part_of_the_input_is_enough(rt: HostRuntime) -> Result<(), Fail> {
    let fx = steady(rt.alloc(), 0, &[0], &[])?;
    let red = match Pixel::<255>::new(255, 255, 0, 0) {
        Some(red) => red,
        None => return Err("a pixel")?,
    };
    let input = one_colour(rt.alloc(), rect(0, 0, 4, 2), red)?;
    let request = rect(1, 0, 3, 1);
    let drawn = drawn_sparingly::<255, Stock>(rt.alloc(), &Stock, &fx, LATER, &input, request)?;
    assert_eq!(rt; (drawn.extent(), drawn.part()), (rect(0, 0, 4, 2), request));
    for x in 1..3 {
        let cyan = drawn.at(x, 0);
        assert_eq!(rt;
            (cyan.a(), cyan.r(), cyan.g(), cyan.b()),
            (255, 0, 255, 255)
        );
    }
    assert_eq!(rt; drawn.at(0, 0).a(), 0);
    Ok(())
}
