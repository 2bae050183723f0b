//! Drawing from no more than is needed.
ghost use Rattle.std.specs.Prelude.{◌≡◌, ◌≤◌, ◌∷◌, [], IfOk};
ghost use Rattle.geom_rect.specs.Rect.{area_of};
ghost use Rattle.argb_pixel.specs.Depth.{IsDepth};
ghost use Rattle.argb_pixel.specs.Pixel.{IsPremultiplied};
ghost use Rattle.argb_world.specs.Picture.{greatest_part};
ghost use Rattle.comp_stack.specs.Layers.{plane_of};
ghost use Rattle.project_model.specs.Effects.{use_of};
ghost use Rattle.effect_api.specs.Fits.{IsBased, IsGiven};
ghost use Rattle.effect_api.specs.Planes.{IsPlane, HasSides};
ghost use Rattle.effect_api.specs.Effects.{Shows};
ghost use Rattle.effect_api.specs.Own.{own_wants};

use crate::calls::drawn;
use argb_pixel::Pixel;
use argb_world::World;
use effect_api::{Draw, Moment};
use geom_rect::Rect;
use host_io::Memory;
use project_model::FxUse;
use smart_plan::plan;
use std::alloc::Global;

/// A picture of one colour, as an input.
pub fn one_colour(alloc: Global, extent: Rect, colour: Pixel<255>) -> Result<World<255>, Memory>
    requires area { area_of extent ≤ greatest_part }
    requires colour { IsPremultiplied 255 colour }
    ensures extent { IfOk result (λ world. world.extent ≡ extent) }
    ensures whole { IfOk result (λ world. world.part ≡ world.extent) }
    ensures plane { IfOk result (λ world. IsPlane 255 (plane_of world)) }
{
    World::solid(alloc, extent, colour)
}

/// Draws what is requested of a use that wants its input alone and asks for nothing. It is drawn from what is needed of the
/// input, and shows what is drawn from the whole input.
pub fn drawn_sparingly<const MAX: u32, E: Draw<MAX>>(
    alloc: Global,
    effects: &E,
    fx: &FxUse,
    at: Moment,
    input: &World<MAX>,
    request: Rect,
) -> Result<World<MAX>, Memory>
    requires depth { IsDepth MAX }
    requires given { IsGiven E.schemas (use_of fx.now) at }
    requires based { IsBased fx.now at }
    requires wants { E.wants (use_of fx.now) at ≡ own_wants at }
    requires asks { E.asks (use_of fx.now) at ≡ [] }
    requires whole { input.now.part ≡ input.now.extent }
    requires plane { IsPlane MAX (plane_of input.now) }
    requires extent { HasSides input.now.extent }
    requires request { HasSides request }
    requires bounds { HasSides (E.bounds (use_of fx.now) at (input.now.extent ∷ [])) }
    requires area { area_of (E.bounds (use_of fx.now) at (input.now.extent ∷ [])) ≤ greatest_part }
    ensures { IfOk result (Shows request (E.draws (use_of fx.now) at (plane_of input.now ∷ []) [])) }
{
    let extent = input.extent();
    let plan = plan(alloc, effects, fx, at, &[extent], request)?;
    let part = input.crop(alloc, plan.pre.checkouts[0].request)?;
    let mut target = World::blank(alloc, plan.pre.max_result_rect, plan.part())?;
    drawn(alloc, effects, fx, at, part, &mut target)?;
    Ok(target)
}
