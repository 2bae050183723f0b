//! The analyses, and what is drawn from them.
ghost use Rattle.std.specs.Prelude.{◌≡◌, ◌≤◌, ◌≤ℤ◌, pos, IfOk};
ghost use Rattle.std.specs.List.{All};
ghost use Rattle.project_model.specs.Effects.{use_of};
ghost use Rattle.effect_api.specs.Fits.{FitsSchema};
ghost use Rattle.fx_analysis.specs.Analysis.{deflicker_schema};

use crate::uses::constant;
use argb_world::World;
use fx_analysis::{analyse_plane, equalize_world, level_world};
use host_io::Memory;
use project_model::{Collection, FxUse};
use std::alloc::Global;

/// A use of Deflicker, whose radius does not change.
pub fn flickering(alloc: Global, radius: i32) -> Result<FxUse, Memory>
    requires low { pos 0 ≤ℤ radius }
    requires high { radius ≤ℤ pos 4 }
    ensures fits { IfOk result (λ fx. FitsSchema deflicker_schema (use_of fx)) }
    ensures based { IfOk result (λ fx. All (λ curve. curve.base ≡ 24) fx.params) }
{
    let mut params = Vec::new(alloc);
    params.push(constant(alloc, radius)?)?;
    Ok(FxUse {
        kind: 2,
        params: Collection::from_vec(params),
        layers: Collection::from_vec(Vec::new(alloc)),
        sequence: Collection::from_vec(Vec::new(alloc)),
    })
}

/// The levels of a picture spread, by its own histogram.
pub fn levelled(
    alloc: Global,
    clip: u32,
    input: &World<255>,
    target: &mut World<255>,
) -> Result<(), Memory>
    requires clip { clip ≤ 10000 }
    requires whole { input.now.part ≡ input.now.extent }
{
    let _part = input.part();
    let counts = analyse_plane(alloc, 1, input)?;
    level_world(alloc, clip, &counts, input, target)
}

/// A picture equalized, by its own histogram.
pub fn equalized(alloc: Global, input: &World<255>, target: &mut World<255>) -> Result<(), Memory>
    requires { input.now.part ≡ input.now.extent }
{
    let _part = input.part();
    let counts = analyse_plane(alloc, 1, input)?;
    equalize_world(alloc, &counts, input, target)
}

#[cfg(test)]
mod tests {
    use super::*;
    use crate::uses::BASE;
    use argb_pixel::Pixel;
    use effect_api::{Ask, Moment, Want};
    use fx_analysis::{AnalysisKind, Light, analysis_asks, deflicker_world};
    use geom_rect::Rect;
    use rational_time::Tick;
    use std::test::Fail;

    fn frame(width: i32) -> Rect
        ensures { result ≡ record { left = pos 0; top = pos 0; right = width; bottom = pos 1 } }
    {
        Rect {
            left: 0,
            top: 0,
            right: width,
            bottom: 1,
        }
    }

    fn eight(a: u32, r: u32, g: u32, b: u32) -> Result<Pixel<255>, Fail> {
        match Pixel::new(a, r, g, b) {
            Some(pixel) => Ok(pixel),
            None => Err("a premultiplied pixel")?,
        }
    }

    fn sixteen(a: u32, r: u32, g: u32, b: u32) -> Result<Pixel<32768>, Fail> {
        match Pixel::new(a, r, g, b) {
            Some(pixel) => Ok(pixel),
            None => Err("a premultiplied pixel")?,
        }
    }

    // From the levels 50 to 150: 255 * (50 - 50) / 100 and 255 * (150 - 50) / 100. One of two pixels is at level 50 or below.
    #[test]
    fn two_greys_become_black_and_white(rt: HostRuntime) -> Result<(), Fail> {
        let mut input = World::<255>::blank(rt.alloc(), frame(2), frame(2))?;
        input.set(0, 0, eight(255, 50, 50, 50)?);
        input.set(1, 0, eight(255, 150, 150, 150)?);
        let mut target = World::<255>::blank(rt.alloc(), frame(2), frame(2))?;
        levelled(rt.alloc(), 0, &input, &mut target)?;
        assert_eq!(rt; target.at(0, 0), eight(255, 0, 0, 0)?);
        assert_eq!(rt; target.at(1, 0), eight(255, 255, 255, 255)?);
        equalized(rt.alloc(), &input, &mut target)?;
        assert_eq!(rt; target.at(0, 0), eight(255, 127, 127, 127)?);
        assert_eq!(rt; target.at(1, 0), eight(255, 255, 255, 255)?);
        Ok(())
    }

    // What is transparent counts nowhere. The luma of the last is 100, all of its alpha.
    #[test]
    fn levels_are_beside_alpha(rt: HostRuntime) -> Result<(), Fail> {
        let mut input = World::<255>::blank(rt.alloc(), frame(3), frame(3))?;
        input.set(1, 0, eight(255, 50, 50, 50)?);
        input.set(2, 0, eight(100, 100, 100, 100)?);
        let counts = analyse_plane(rt.alloc(), 1, &input)?;
        assert_eq!(rt; counts.len(), 256);
        assert_eq!(rt; counts.as_slice().get(0).copied(), Some(0));
        assert_eq!(rt; counts.as_slice().get(50).copied(), Some(1));
        assert_eq!(rt; counts.as_slice().get(255).copied(), Some(1));
        let light = analyse_plane(rt.alloc(), 2, &input)?;
        assert_eq!(rt; light.as_slice(), [150, 355].as_slice());
        Ok(())
    }

    // The luma are 16384 and (77 * 16384 + 128) / 256 = 4928, the levels 127 and 4928 * 255 / 16384 = 76.
    #[test]
    fn deep_pixels_have_256_levels_too(rt: HostRuntime) -> Result<(), Fail> {
        let mut input = World::<32768>::blank(rt.alloc(), frame(2), frame(2))?;
        input.set(0, 0, sixteen(32768, 16384, 16384, 16384)?);
        input.set(1, 0, sixteen(16384, 16384, 0, 0)?);
        let counts = analyse_plane(rt.alloc(), 1, &input)?;
        assert_eq!(rt; counts.as_slice().get(127).copied(), Some(1));
        assert_eq!(rt; counts.as_slice().get(76).copied(), Some(1));
        let light = analyse_plane(rt.alloc(), 2, &input)?;
        assert_eq!(rt; light.as_slice(), [21312, 49152].as_slice());
        Ok(())
    }

    // The light of all is 300 of 510, that of the middle 100 of 255: half as bright again, and at most alpha.
    #[test]
    fn a_dark_frame_becomes_brighter(rt: HostRuntime) -> Result<(), Fail> {
        let input = World::solid(rt.alloc(), frame(1), eight(255, 100, 200, 51)?)?;
        let mut target = World::<255>::blank(rt.alloc(), frame(1), frame(1))?;
        let all = Light {
            luma: 300,
            alpha: 510,
        };
        let dark = Light {
            luma: 100,
            alpha: 255,
        };
        deflicker_world(rt.alloc(), all, dark, &input, &mut target)?;
        assert_eq!(rt; target.at(0, 0), eight(255, 150, 255, 76)?);
        deflicker_world(rt.alloc(), all, Light::NONE, &input, &mut target)?;
        assert_eq!(rt; target.at(0, 0), eight(255, 100, 200, 51)?);
        Ok(())
    }

    fn light_at(tick: i64) -> Ask {
        Ask {
            class: 2,
            ask: 0,
            want: Want {
                input: 0,
                tick: Tick(tick),
            },
        }
    }

    // 36,000 seconds before zero are 864,000 ticks.
    #[test]
    fn light_is_asked_for_around(rt: HostRuntime) -> Result<(), Fail> {
        let fx = flickering(rt.alloc(), 2)?;
        let at = Moment {
            base: BASE,
            tick: Tick(-863999),
            frame: 1,
        };
        let asks = analysis_asks(rt.alloc(), AnalysisKind::Deflicker, &fx, at)?;
        assert_eq!(rt; asks.len(), 5);
        assert_eq!(rt; asks.as_slice().get(0).copied(), Some(light_at(-864000)));
        assert_eq!(rt; asks.as_slice().get(1).copied(), Some(light_at(-864000)));
        assert_eq!(rt; asks.as_slice().get(2).copied(), Some(light_at(-863999)));
        assert_eq!(rt; asks.as_slice().get(4).copied(), Some(light_at(-863997)));
        Ok(())
    }
}
