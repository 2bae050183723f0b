//! What an effect draws from what was drawn for it.
ghost use Rattle.std.specs.Prelude.{◌≡◌, ◌≤◌, IfOk};
ghost use Rattle.geom_rect.specs.Rect.{IsWithin, area_of};
ghost use Rattle.argb_pixel.specs.Depth.{IsDepth};
ghost use Rattle.argb_world.specs.Picture.{greatest_part};
ghost use Rattle.project_model.specs.Effects.{use_of};
ghost use Rattle.effect_api.specs.Checked.{AreChecked, AreSums, IsSumsValue, planes_of, sums_in};
ghost use Rattle.effect_api.specs.Fits.{IsBased, IsGiven};
ghost use Rattle.comp_stack.specs.Layers.{plane_of};
ghost use Rattle.effect_api.specs.Planes.{HasSides, IsPlane};
ghost use Rattle.effect_api.specs.declared.checkouts.PixelsOf.TheVariants.{Drawn};
ghost use Rattle.std.specs.Prelude.{◌++◌};
ghost use Rattle.compute_cache.specs.Suite.{IsOf};
ghost use Rattle.scene_cache.specs.Sharing.{AreGivenBack, AreOpenHere, receipts_of};
ghost use Rattle.std.specs.List.{AllZip};
ghost use Rattle.std.specs.Prelude.{◌<◌, length, take};
ghost use Rattle.project_model.specs.Bounds.{most_of};
ghost use Rattle.project_model.specs.Plain.{plain_comp, plain_fx, plain_layer};
ghost use Rattle.project_model.specs.Uses.{AreUses};
ghost use Rattle.scene_meaning.specs.Parts.{IsLayerIn, drawn_from, wanted_by};
ghost use Rattle.scene_meaning.specs.Shown.{fx_plane, plane_behind};
ghost use Rattle.frame_draw.specs.Areas.{StandsFor};
ghost use Rattle.frame_draw.specs.Planned.{IsTaken, effect_plane};
ghost use Rattle.frame_draw.specs.Uses.{AreWanted, IsAnswer, IsDrawnPart};
ghost use Rattle.std.specs.List.{All};

use crate::context::Context;
use argb_world::World;
use compute_cache::{Keeps, Pass, Receipt};
use effect_api::{Checkouts, Draw, Moment, Pixels, Value, drawing_is_lawful, set_is_lawful};
use geom_rect::Rect;
use host_io::Memory;
use project_model::{Comp, FxUse, Layer};
use rational_time::Tick;
use scene_cache::{checkin_all, checkin_pixels};
use scene_meaning::{HasSet, Means};
use smart_plan::{DrawPlan, requests_are_shown, worlds_stand_for_planes};
use std::sync::Wait;

/// What an effect is drawn from: pixels of what it wants, and the sums that it asks for, each in order.
pub(crate) struct Taken<const MAX: u32, K: Keeps<Value = Value<MAX>>> {
    pub(crate) pixels: Checkouts<MAX, K>,
    pub(crate) sums: Vec<Receipt<K>>,
}

/// The plane of a layer behind its effect of a number, drawn by a plan from what was taken for it, which is given back.
pub(crate) fn draw_taken<'d, R: Wait, E: Draw<MAX>, K: Keeps<Value = Value<MAX>>, const MAX: u32>(
    context: &Context<'d, R, E, K>,
    pass: &mut Pass<K>,
    of: u32,
    comp: &Comp,
    layer: &Layer,
    number: usize,
    fx: &FxUse,
    tick: Tick,
    at: Moment,
    extents: &[Rect],
    plan: &DrawPlan,
    request: Rect,
    taken: Taken<MAX, K>,
) -> Result<World<MAX>, Memory>
    requires taken { IsTaken ⟦<E as HasSet>⟧.set ⟦<E as Means<MAX>>⟧.drawing context.now.scene.now of comp.now layer.now number fx.now tick at extents.now request plan.now taken.pixels.pairs taken.sums.items }
    requires own { IsOf context.now.cache.now pass.old }
    requires opened { AreOpenHere context.now.cache.now pass.old (receipts_of taken.pixels.pairs ++ taken.sums.items) }
    ensures stands { IfOk result (StandsFor request (effect_plane ⟦<E as HasSet>⟧.set ⟦<E as Means<MAX>>⟧.drawing context.now.scene.now comp.now layer.now number fx.now tick.0)) }
    ensures back { AreGivenBack context.now.cache.now (receipts_of taken.pixels.pairs ++ taken.sums.items) pass.old pass.new }
{
    set_is_lawful::<E>();
    drawing_is_lawful::<E, MAX>();
    context.scene.planes_are_boxed::<E, MAX>();
    worlds_stand_for_planes();
    requests_are_shown();
    let Taken { pixels, sums } = taken;
    draw_effect(
        context,
        pass,
        fx,
        at,
        plan.pre.max_result_rect,
        plan.part(),
        pixels,
        sums,
    )
}

// What an effect draws over a part of its bounds, from what was checked out for it and the sums that it asked for. All of these are
// given back, also where it is not drawn.
fn draw_effect<'d, R: Wait, E: Draw<MAX>, K: Keeps<Value = Value<MAX>>, const MAX: u32>(
    context: &Context<'d, R, E, K>,
    pass: &mut Pass<K>,
    fx: &FxUse,
    at: Moment,
    bounds: Rect,
    part: Rect,
    pixels: Checkouts<MAX, K>,
    sums: Vec<Receipt<K>>,
) -> Result<World<MAX>, Memory>
    requires depth { IsDepth MAX }
    requires given { IsGiven E.schemas (use_of fx.now) at }
    requires based { IsBased fx.now at }
    requires checked { AreChecked (E.wants (use_of fx.now) at) at pixels.pairs }
    requires receipts { All (λ receipt. IsSumsValue receipt.value) sums.items }
    requires sums { AreSums MAX E.sums_of (E.asks (use_of fx.now) at) (sums_in sums.items) }
    requires inside { IsWithin part bounds }
    requires near { HasSides part }
    requires few { area_of part ≤ greatest_part }
    requires own { IsOf context.now.cache.now pass.old }
    requires opened { AreOpenHere context.now.cache.now pass.old (receipts_of pixels.pairs ++ sums.items) }
    ensures drawn { IfOk result (IsDrawnPart bounds part (E.draws (use_of fx.now) at (planes_of pixels.pairs) (sums_in sums.items))) }
    ensures back { AreGivenBack context.now.cache.now (receipts_of pixels.pairs ++ sums.items) pass.old pass.new }
{
    let drawn = draw_part(context, fx, at, bounds, part, &pixels, &sums);
    checkin_all(context.rt, context.cache, pass, sums);
    checkin_pixels(context.rt, context.cache, pass, pixels);
    drawn
}

// The part itself.
fn draw_part<'d, R, E: Draw<MAX>, K: Keeps<Value = Value<MAX>>, const MAX: u32>(
    context: &Context<'d, R, E, K>,
    fx: &FxUse,
    at: Moment,
    bounds: Rect,
    part: Rect,
    pixels: &Checkouts<MAX, K>,
    sums: &[Receipt<K>],
) -> Result<World<MAX>, Memory>
    requires depth { IsDepth MAX }
    requires given { IsGiven E.schemas (use_of fx.now) at }
    requires based { IsBased fx.now at }
    requires checked { AreChecked (E.wants (use_of fx.now) at) at pixels.now.pairs }
    requires receipts { All (λ receipt. IsSumsValue receipt.value) sums.now }
    requires sums { AreSums MAX E.sums_of (E.asks (use_of fx.now) at) (sums_in sums.now) }
    requires inside { IsWithin part bounds }
    requires near { HasSides part }
    requires few { area_of part ≤ greatest_part }
    ensures { IfOk result (IsDrawnPart bounds part (E.draws (use_of fx.now) at (planes_of pixels.now.pairs) (sums_in sums.now))) }
{
    let mut target = World::blank(context.alloc, bounds, part)?;
    context
        .effects
        .smart_render(context.alloc, fx, at, pixels, sums, &mut target)?;
    Ok(target)
}

/// A world as pixels that were drawn: it is premultiplied, and transparent outside its extent.
pub(crate) fn drawn<K: Keeps<Value = Value<MAX>>, const MAX: u32>(
    world: World<MAX>,
) -> Pixels<MAX, K>
    ensures world { result ≡ Drawn world.entry }
    ensures plane { IsPlane MAX (plane_of world.entry) }
{
    let _part = world.part();
    Pixels::Drawn(world)
}
