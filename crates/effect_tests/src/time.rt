//! The effects of time, worked by hand.
ghost use Rattle.std.specs.Prelude.{◌≡◌, ◌-◌, ◌*◌, pos, neg_ℤ, ◌≤ℤ◌, length, IfOk};
ghost use Rattle.std.specs.List.{All};
ghost use Rattle.sequence_data.specs.Sequence.{Fits};
ghost use Rattle.project_model.specs.Effects.{use_of};
ghost use Rattle.effect_api.specs.Fits.{FitsSchema, IsBased};
ghost use Rattle.effect_api.specs.Planes.{HasSides};
ghost use Rattle.effect_api.specs.Checked.{IsShared};
ghost use Rattle.fx_time.specs.Time.{time_schema, want_count};
ghost use Rattle.effect_tests.specs.Uses.{AreConstants, AreWithin};

use crate::calls::Nothing;
use crate::uses::{BASE, constants};
use argb_pixel::Pixel;
use argb_world::World;
use effect_api::{Checkouts, Moment, Pixels};
use fx_time::{TimeKind, draw_time, time_wants};
use geom_rect::Rect;
use host_io::Memory;
use project_model::{Collection, FxUse};
use rational_time::Tick;
use std::alloc::Global;

/// A use of an effect of time, by its values, which its schema takes.
pub fn timed(alloc: Global, kind: TimeKind, values: &[i32]) -> Result<FxUse, Memory>
    requires values { AreWithin (time_schema kind).params values.now }
    requires layers { (time_schema kind).layers ≡ 0 }
    requires sequence { Fits (time_schema kind).sequence 0 }
    ensures fits { IfOk result (λ fx. FitsSchema (time_schema kind) (use_of fx)) }
    ensures based { IfOk result (λ fx. All (λ curve. curve.base ≡ 24) fx.params) }
    ensures values { IfOk result (λ fx. AreConstants values.now fx.params) }
{
    let params = Collection::from_vec(constants(alloc, values)?);
    Ok(FxUse {
        kind: 0,
        params,
        layers: Collection::from_vec(Vec::new(alloc)),
        sequence: Collection::from_vec(Vec::new(alloc)),
    })
}

/// The ticks at which an effect of time, by its values, wants its input.
pub fn seen(
    alloc: Global,
    kind: TimeKind,
    values: &[i32],
    tick: i64,
    frame: i64,
) -> Result<Vec<i64>, Memory>
    requires values { AreWithin (time_schema kind).params values.now }
    requires layers { (time_schema kind).layers ≡ 0 }
    requires sequence { Fits (time_schema kind).sequence 0 }
    requires frame { pos 1 ≤ℤ frame }
{
    let fx = timed(alloc, kind, values)?;
    let at = Moment {
        base: BASE,
        tick: Tick(tick),
        frame,
    };
    let wants = time_wants(alloc, kind, &fx, at)?;
    let mut ticks = Vec::new(alloc);
    for want in wants.iter() {
        ticks.push(want.tick.0)?;
    }
    Ok(ticks)
}

// The last pair is let go, which was drawn for this call.
fn let_go(pixels: &mut Checkouts<255, Nothing<255>>)
    requires { All (λ pair. ¬ IsShared pair.1) pixels.old.pairs }
    ensures rest { All (λ pair. ¬ IsShared pair.1) pixels.new.pairs }
    ensures fewer { length pixels.new.pairs ≡ length pixels.old.pairs - 1 }
{
    match pixels.take() {
        Some((_, Pixels::Drawn(_))) => {}
        Some((_, Pixels::Shared(_receipt))) => unreachable!(),
        None => {}
    }
}

/// Draws an effect that wants two planes, at the first tick of all: an earlier one is held to it.
pub fn drawn_of_two(
    alloc: Global,
    kind: TimeKind,
    fx: &FxUse,
    at: Moment,
    worlds: (World<255>, World<255>),
    target: &mut World<255>,
) -> Result<(), Memory>
    requires fits { FitsSchema (time_schema kind) (use_of fx.now) }
    requires based { IsBased fx.now at }
    requires lowest { at.tick.0 ≡ neg_ℤ (pos (36000 * at.base.ticks)) }
    requires frame { pos 1 ≤ℤ at.frame }
    requires two { want_count kind (use_of fx.now) at ≡ 2 }
    requires near { HasSides worlds.0.extent }
    requires also { HasSides worlds.1.extent }
{
    let mut pixels = Checkouts::<255, Nothing<255>>::with_room(alloc, 2)?;
    pixels.put(0, Pixels::Drawn(worlds.0));
    pixels.put(1, Pixels::Drawn(worlds.1));
    let done = draw_time(alloc, kind, fx, at, &pixels, target);
    let_go(&mut pixels);
    let_go(&mut pixels);
    pixels.end();
    done
}

// The first tick of all, in frames of one tick.
const FIRST: Moment = Moment {
    base: BASE,
    tick: Tick(-864000),
    frame: 1,
};

const POINT: Rect = Rect {
    left: 0,
    top: 0,
    right: 1,
    bottom: 1,
};

// A world of one point.
fn point(alloc: Global, pixel: Pixel<255>) -> Result<World<255>, Memory>
    ensures { IfOk result (λ world. HasSides world.extent) }
{
    World::solid(alloc, POINT, pixel)
}

/// A pixel over one echo of half its strength, which another pixel stands for.
pub fn echoed_once(
    alloc: Global,
    first: Pixel<255>,
    second: Pixel<255>,
) -> Result<Pixel<255>, Memory> {
    let fx = timed(alloc, TimeKind::Echo, &[1, 1, 5000])?;
    let worlds = (point(alloc, first)?, point(alloc, second)?);
    let mut target = World::<255>::blank(alloc, POINT, POINT)?;
    drawn_of_two(alloc, TimeKind::Echo, &fx, FIRST, worlds, &mut target)?;
    Ok(target.at(0, 0))
}

/// How far two pixels are apart.
pub fn apart(alloc: Global, first: Pixel<255>, second: Pixel<255>) -> Result<Pixel<255>, Memory> {
    let fx = timed(alloc, TimeKind::FrameDifference, &[1])?;
    let worlds = (point(alloc, first)?, point(alloc, second)?);
    let mut target = World::<255>::blank(alloc, POINT, POINT)?;
    drawn_of_two(
        alloc,
        TimeKind::FrameDifference,
        &fx,
        FIRST,
        worlds,
        &mut target,
    )?;
    Ok(target.at(0, 0))
}

#[cfg(test)]
mod tests {
    use super::*;
    use fx_time::{pre_render_time, time_schemas};
    use std::test::Fail;

    #[test]
    fn each_effect_sees_its_ticks(rt: HostRuntime) -> Result<(), Fail> {
        let echo = seen(rt.alloc(), TimeKind::Echo, &[3, 1, 5000], 5, 1)?;
        assert_eq!(rt; echo.as_slice(), [5, 4, 3, 2].as_slice());
        let difference = seen(rt.alloc(), TimeKind::FrameDifference, &[2], 1, 3)?;
        assert_eq!(rt; difference.as_slice(), [1, -5].as_slice());
        let mean = seen(rt.alloc(), TimeKind::TimeMean, &[1], 0, 2)?;
        assert_eq!(rt; mean.as_slice(), [-2, 0, 2].as_slice());
        let own = seen(rt.alloc(), TimeKind::TimeMean, &[0], 7, 2)?;
        assert_eq!(rt; own.as_slice(), [7].as_slice());
        Ok(())
    }

    // Spans of four ticks begin at -4, 0 and 4, those of three frames of two ticks at -12, -6 and 0.
    #[test]
    fn spans_are_counted_from_zero_both_ways(rt: HostRuntime) -> Result<(), Fail> {
        let after = seen(rt.alloc(), TimeKind::PosterizeTime, &[4], 7, 1)?;
        assert_eq!(rt; after.as_slice(), [4].as_slice());
        let before = seen(rt.alloc(), TimeKind::PosterizeTime, &[4], -3, 1)?;
        assert_eq!(rt; before.as_slice(), [-4].as_slice());
        let begins = seen(rt.alloc(), TimeKind::PosterizeTime, &[4], -4, 1)?;
        assert_eq!(rt; begins.as_slice(), [-4].as_slice());
        let longer = seen(rt.alloc(), TimeKind::PosterizeTime, &[3], -7, 2)?;
        assert_eq!(rt; longer.as_slice(), [-12].as_slice());
        Ok(())
    }

    // The first tick of all is 36,000 seconds before zero.
    #[test]
    fn ticks_are_held(rt: HostRuntime) -> Result<(), Fail> {
        let echo = seen(rt.alloc(), TimeKind::Echo, &[2, 4, 0], -863994, 1)?;
        assert_eq!(rt; echo.as_slice(), [-863994, -863998, -864000].as_slice());
        let mean = seen(rt.alloc(), TimeKind::TimeMean, &[1], 863999, 5)?;
        assert_eq!(rt; mean.as_slice(), [863994, 863999, 864000].as_slice());
        Ok(())
    }

    fn pixel(a: u32, r: u32, g: u32, b: u32) -> Result<Pixel<255>, Fail> {
        match Pixel::<255>::new(a, r, g, b) {
            Some(pixel) => Ok(pixel),
            None => Err("a pixel")?,
        }
    }

    // Half of 100 is 50, of which (255 - 100) / 255 is seen: 30.
    #[test]
    fn a_solid_lies_over_its_echo(rt: HostRuntime) -> Result<(), Fail> {
        let solid = pixel(100, 100, 0, 0)?;
        let over = echoed_once(rt.alloc(), solid, solid)?;
        assert_eq!(rt; over, pixel(130, 130, 0, 0)?);
        let alone = echoed_once(rt.alloc(), solid, pixel(0, 0, 0, 0)?)?;
        assert_eq!(rt; alone, solid);
        Ok(())
    }

    #[test]
    fn colours_are_apart_both_ways(rt: HostRuntime) -> Result<(), Fail> {
        let bright = pixel(200, 10, 50, 0)?;
        let other = pixel(100, 60, 50, 100)?;
        assert_eq!(rt; apart(rt.alloc(), bright, other)?, pixel(200, 50, 0, 100)?);
        assert_eq!(rt; apart(rt.alloc(), other, bright)?, pixel(200, 50, 0, 100)?);
        Ok(())
    }

    fn rect(left: i32, top: i32, right: i32, bottom: i32) -> Rect
        ensures { result ≡ record { left = left; top = top; right = right; bottom = bottom } }
    {
        Rect {
            left,
            top,
            right,
            bottom,
        }
    }

    // Two inputs lie beside each other, and the request is met with what covers both.
    #[test]
    fn each_input_is_asked_within_its_extent(rt: HostRuntime) -> Result<(), Fail> {
        assert_eq!(rt; time_schemas(rt.alloc())?.len(), 4);
        let fx = timed(rt.alloc(), TimeKind::FrameDifference, &[1])?;
        let pre = pre_render_time(
            rt.alloc(),
            TimeKind::FrameDifference,
            &fx,
            FIRST,
            &[rect(0, 0, 2, 2), rect(4, 0, 6, 2)],
            rect(1, 0, 5, 5),
        )?;
        assert_eq!(rt; pre.max_result_rect, rect(0, 0, 6, 2));
        assert_eq!(rt; pre.result_rect, rect(1, 0, 5, 2));
        assert!(rt; !pre.extra);
        let requests = [rect(1, 0, 2, 2), rect(4, 0, 5, 2)];
        assert_eq!(rt; pre.checkouts.len(), 2);
        for (number, checkout) in pre.checkouts.iter().enumerate() {
            assert_eq!(rt; checkout.request, requests[number]);
        }
        Ok(())
    }
}
