//! What compositions show, drawn.
ghost use Rattle.std.specs.Prelude.{◌≡◌, ◌<◌, ◌≤◌, ◌<ℤ◌, ℤ, ◌+◌, length, take, slice_get, IfOk, OnOk, Some};
ghost use Rattle.geom_rect.specs.Rect.{Has};
ghost use Rattle.argb_world.specs.Picture.{SameExtentAndPart, at};
ghost use Rattle.comp_stack.specs.Stack.{stack_over};
ghost use Rattle.comp_stack.specs.Layers.{plane_of};
ghost use Rattle.project_model.specs.Plain.{plain_comp, plain_fx, plain_layer, plain_of};
ghost use Rattle.project_model.specs.declared.node.NodeId.TheVariants.{Stack};
ghost use Rattle.effect_api.specs.Fits.{IsHeld};
ghost use Rattle.scene_meaning.specs.Shown.{base_in, plane, plane_behind, plane_in, source_plane, end_of_comp, fx_plane};
ghost use Rattle.frame_draw.specs.Areas.{IsArea, StandsFor, area_in};
ghost use Rattle.effect_api.specs.Planes.{HasSides};
ghost use Rattle.frame_draw.specs.Kept.{AreRight};
ghost use Rattle.scene_meaning.specs.Parts.{IsCompOf, IsLayerOf, IsLayerIn, drawn_from};
ghost use Rattle.frame_draw.specs.Layers.{IsShownOn, IsOfMatte, IsOfLayer, brought};
ghost use Rattle.frame_draw.specs.Uses.{IsDrawable};
ghost use Rattle.frame_draw.specs.Levels.{comp_level};
ghost use Rattle.frame_draw.specs.Planned.{IsPlanned, effect_plane};
ghost use Rattle.std.specs.Prelude.{◌*◌, ◌-◌};
ghost use Rattle.project_model.specs.Nesting.{source_rank, stack_rank};
ghost use Rattle.compute_cache.specs.Suite.{IsAsBefore, job_of};
ghost use Rattle.scene_cache.specs.Sharing.{IsSharing};

use crate::clips::clip_world;
use crate::context::Context;
use crate::effects::draw_taken;
use crate::layers::{
    area_in, has_matte, is_in_time, is_seen, position_of, serves_as_matte, since_start, solid_world,
};
use crate::planes::{Kept, Planes, find_kept, part_of, spend_use};
use crate::take::take_all;
use argb_pixel::Pixel;
use argb_world::World;
use comp_stack::{Placed, Shown, stack};
use compute_cache::Pass;
use effect_api::{Draw, Moment, set_is_lawful};
use geom_rect::Rect;
use host_io::Memory;
use project_model::{Comp, FxUse, Item, Layer};
use rational_time::Tick;
use scene_meaning::{
    HasSet, Means, SceneJob, base_of, comp_at, frame_rect, layer_at, moment_of, wanted_extents,
};
use smart_plan::{DrawPlan, plan};
use std::sync::Wait;

/// What the composition of an index shows at a tick, drawn where its frame meets the request.
#[cycle(draw)]
pub(crate) fn draw_comp<'d, 'a, R: Wait, E: Draw<MAX>, const MAX: u32>(
    context: &Context<'d, R, E, SceneJob<'a, E, MAX>>,
    planes: &mut Planes<MAX>,
    pass: &mut Pass<SceneJob<'a, E, MAX>>,
    index: u32,
    tick: Tick,
    request: Rect,
) -> Result<World<MAX>, Memory>
    requires ready { IsDrawable MAX ⟦<E as HasSet>⟧.set context.now.scene.now (job_of context.now.cache.now).scene.now }
    requires comp { index < length context.now.scene.now.project.comps }
    requires held { IsHeld (base_in (plain_of context.now.scene.now.project)) tick.0 }
    requires shared { IsSharing (plain_of context.now.scene.now.project) (length E.class_names) (comp_level (plain_of context.now.scene.now.project) index 210) context.now.cache.now pass.old }
    requires kept { AreRight (⟦<E as Means<MAX>>⟧.scene context.now.scene.now) planes.old.kept.items }
    ensures stands { IfOk result (StandsFor request (plane (⟦<E as Means<MAX>>⟧.scene context.now.scene.now) (Stack index) tick.0)) }
    ensures part { IfOk result (λ world. world.part ≡ area_in world.extent request) }
    ensures kept { OnOk result (AreRight (⟦<E as Means<MAX>>⟧.scene context.now.scene.now) planes.new.kept.items) }
    ensures pass { IsAsBefore pass.old pass.new }
{
    let comp = comp_at(context.scene, index);
    let frame = frame_rect(comp.width, comp.height);
    let mut ground = World::blank(context.alloc, frame, area_in(&frame, &request))?;
    if !is_in_time(base_of(context.scene), comp, tick) {
        return Ok(ground);
    }
    let count = comp.layers.as_slice().len();
    for done in 0..count {
        let at = count - 1 - done;
        draw_layer(context, planes, pass, index, comp, at, tick, &mut ground)?;
    }
    Ok(ground)
}

// Draws the layer of an index over the ground, where it is seen at a tick before the end of its composition, and is no matte.
#[cycle(draw)]
fn draw_layer<'d, 'a, R: Wait, E: Draw<MAX>, const MAX: u32>(
    context: &Context<'d, R, E, SceneJob<'a, E, MAX>>,
    planes: &mut Planes<MAX>,
    pass: &mut Pass<SceneJob<'a, E, MAX>>,
    of: u32,
    comp: &Comp,
    index: usize,
    tick: Tick,
    ground: &mut World<MAX>,
) -> Result<(), Memory>
    requires ready { IsDrawable MAX ⟦<E as HasSet>⟧.set context.now.scene.now (job_of context.now.cache.now).scene.now }
    requires here { slice_get context.now.scene.now.project.comps of ≡ Some comp.now }
    requires sound { IsCompOf context.now.scene.now.project comp.now }
    requires layer { index < length comp.now.layers }
    requires within { tick.0 <ℤ end_of_comp (base_in (plain_of context.now.scene.now.project)) (plain_comp comp.now) }
    requires held { IsHeld (base_in (plain_of context.now.scene.now.project)) tick.0 }
    requires area { IsArea ground.old.part }
    requires shared { IsSharing (plain_of context.now.scene.now.project) (length E.class_names) (comp_level (plain_of context.now.scene.now.project) of 209) context.now.cache.now pass.old }
    requires kept { AreRight (⟦<E as Means<MAX>>⟧.scene context.now.scene.now) planes.old.kept.items }
    ensures frame { OnOk result (SameExtentAndPart ground.old ground.new) }
    ensures drawn { OnOk result ((layer : Layer) → slice_get comp.now.layers index ≡ Some layer → (x y : ℤ) → Has ground.old.part x y → at ground.new x y
        ≡ stack_over MAX (brought (drawn_from (⟦<E as Means<MAX>>⟧.scene context.now.scene.now)) (plain_comp comp.now) tick.0 index (plain_layer layer)) x y (at ground.old x y)) }
    ensures kept { OnOk result (AreRight (⟦<E as Means<MAX>>⟧.scene context.now.scene.now) planes.new.kept.items) }
    ensures pass { IsAsBefore pass.old pass.new }
{
    let layer = layer_at(context.scene, of, index);
    if !is_seen(base_of(context.scene), comp, layer, tick) || serves_as_matte(comp, index) {
        return Ok(());
    }
    let area = ground.part();
    let placed = [place_layer(context, planes, pass, of, comp, index, layer, tick, area)?];
    stack(ground, &placed);
    Ok(())
}

// The layer of an index at a tick before the end of its composition, with what its matte is taken from.
#[cycle(draw)]
fn place_layer<'d, 'a, R: Wait, E: Draw<MAX>, const MAX: u32>(
    context: &Context<'d, R, E, SceneJob<'a, E, MAX>>,
    planes: &mut Planes<MAX>,
    pass: &mut Pass<SceneJob<'a, E, MAX>>,
    of: u32,
    comp: &Comp,
    index: usize,
    layer: &Layer,
    tick: Tick,
    area: Rect,
) -> Result<Placed<MAX>, Memory>
    requires ready { IsDrawable MAX ⟦<E as HasSet>⟧.set context.now.scene.now (job_of context.now.cache.now).scene.now }
    requires sound { IsCompOf context.now.scene.now.project comp.now }
    requires place { slice_get comp.now.layers index ≡ Some layer.now }
    requires layer { IsLayerIn context.now.scene.now.project of comp.now layer.now }
    requires within { tick.0 <ℤ end_of_comp (base_in (plain_of context.now.scene.now.project)) (plain_comp comp.now) }
    requires held { IsHeld (base_in (plain_of context.now.scene.now.project)) tick.0 }
    requires area { IsArea area }
    requires shared { IsSharing (plain_of context.now.scene.now.project) (length E.class_names) (comp_level (plain_of context.now.scene.now.project) of 208) context.now.cache.now pass.old }
    requires kept { AreRight (⟦<E as Means<MAX>>⟧.scene context.now.scene.now) planes.old.kept.items }
    ensures placed { IfOk result (IsOfLayer area (drawn_from (⟦<E as Means<MAX>>⟧.scene context.now.scene.now)) tick.0 (plain_comp comp.now) index (plain_layer layer.now)) }
    ensures kept { OnOk result (AreRight (⟦<E as Means<MAX>>⟧.scene context.now.scene.now) planes.new.kept.items) }
    ensures pass { IsAsBefore pass.old pass.new }
{
    let over = show_matte(context, planes, pass, of, comp, index, layer, tick, area)?;
    Ok(Placed {
        layer: show_layer(context, planes, pass, of, comp, index, layer, tick, area)?,
        mode: layer.mode,
        matte: layer.matte,
        over,
    })
}

// What the matte of the layer of an index is taken from: the layer above, where it is seen at a tick before the end of the
// composition.
#[cycle(draw)]
fn show_matte<'d, 'a, R: Wait, E: Draw<MAX>, const MAX: u32>(
    context: &Context<'d, R, E, SceneJob<'a, E, MAX>>,
    planes: &mut Planes<MAX>,
    pass: &mut Pass<SceneJob<'a, E, MAX>>,
    of: u32,
    comp: &Comp,
    index: usize,
    layer: &Layer,
    tick: Tick,
    area: Rect,
) -> Result<Option<Shown<MAX>>, Memory>
    requires ready { IsDrawable MAX ⟦<E as HasSet>⟧.set context.now.scene.now (job_of context.now.cache.now).scene.now }
    requires here { slice_get context.now.scene.now.project.comps of ≡ Some comp.now }
    requires sound { IsCompOf context.now.scene.now.project comp.now }
    requires layer { slice_get comp.now.layers index ≡ Some layer.now }
    requires within { tick.0 <ℤ end_of_comp (base_in (plain_of context.now.scene.now.project)) (plain_comp comp.now) }
    requires held { IsHeld (base_in (plain_of context.now.scene.now.project)) tick.0 }
    requires area { IsArea area }
    requires shared { IsSharing (plain_of context.now.scene.now.project) (length E.class_names) (comp_level (plain_of context.now.scene.now.project) of 207) context.now.cache.now pass.old }
    requires kept { AreRight (⟦<E as Means<MAX>>⟧.scene context.now.scene.now) planes.old.kept.items }
    ensures matte { IfOk result (IsOfMatte area (drawn_from (⟦<E as Means<MAX>>⟧.scene context.now.scene.now)) tick.0 (plain_comp comp.now) index (plain_layer layer.now)) }
    ensures kept { OnOk result (AreRight (⟦<E as Means<MAX>>⟧.scene context.now.scene.now) planes.new.kept.items) }
    ensures pass { IsAsBefore pass.old pass.new }
{
    if index == 0 || !has_matte(layer) {
        return Ok(None);
    }
    let above = layer_at(context.scene, of, index - 1);
    if !is_seen(base_of(context.scene), comp, above, tick) {
        return Ok(None);
    }
    Ok(Some(show_layer(
        context,
        planes,
        pass,
        of,
        comp,
        index - 1,
        above,
        tick,
        area,
    )?))
}

// A layer's picture behind its effects, where its streams put it at a tick, drawn where the area shows it.
#[cycle(draw)]
fn show_layer<'d, 'a, R: Wait, E: Draw<MAX>, const MAX: u32>(
    context: &Context<'d, R, E, SceneJob<'a, E, MAX>>,
    planes: &mut Planes<MAX>,
    pass: &mut Pass<SceneJob<'a, E, MAX>>,
    of: u32,
    comp: &Comp,
    index: usize,
    layer: &Layer,
    tick: Tick,
    area: Rect,
) -> Result<Shown<MAX>, Memory>
    requires ready { IsDrawable MAX ⟦<E as HasSet>⟧.set context.now.scene.now (job_of context.now.cache.now).scene.now }
    requires sound { IsCompOf context.now.scene.now.project comp.now }
    requires place { slice_get comp.now.layers index ≡ Some layer.now }
    requires layer { IsLayerIn context.now.scene.now.project of comp.now layer.now }
    requires held { IsHeld (base_in (plain_of context.now.scene.now.project)) tick.0 }
    requires area { IsArea area }
    requires shared { IsSharing (plain_of context.now.scene.now.project) (length E.class_names) (comp_level (plain_of context.now.scene.now.project) of 206) context.now.cache.now pass.old }
    requires kept { AreRight (⟦<E as Means<MAX>>⟧.scene context.now.scene.now) planes.old.kept.items }
    ensures shown { IfOk result (IsShownOn area (plane_in (drawn_from (⟦<E as Means<MAX>>⟧.scene context.now.scene.now)) (plain_comp comp.now) tick.0 (plain_layer layer.now))) }
    ensures kept { OnOk result (AreRight (⟦<E as Means<MAX>>⟧.scene context.now.scene.now) planes.new.kept.items) }
    ensures pass { IsAsBefore pass.old pass.new }
{
    let position = position_of(base_of(context.scene), layer, tick);
    let request = position.request(area);
    let count = layer.effects.as_slice().len();
    let world = layer_world(
        context, planes, pass, of, comp, index, layer, count, tick, request,
    )?;
    Ok(position.shown(world))
}

/// The plane of a layer at a tick, behind so many of its effects, drawn on a request.
#[cycle(draw)]
pub(crate) fn layer_world<'d, 'a, R: Wait, E: Draw<MAX>, const MAX: u32>(
    context: &Context<'d, R, E, SceneJob<'a, E, MAX>>,
    planes: &mut Planes<MAX>,
    pass: &mut Pass<SceneJob<'a, E, MAX>>,
    of: u32,
    comp: &Comp,
    index: usize,
    layer: &Layer,
    count: usize,
    tick: Tick,
    request: Rect,
) -> Result<World<MAX>, Memory>
    requires ready { IsDrawable MAX ⟦<E as HasSet>⟧.set context.now.scene.now (job_of context.now.cache.now).scene.now }
    requires sound { IsCompOf context.now.scene.now.project comp.now }
    requires place { slice_get comp.now.layers index ≡ Some layer.now }
    requires layer { IsLayerIn context.now.scene.now.project of comp.now layer.now }
    requires count { count ≤ length layer.now.effects }
    requires held { IsHeld (base_in (plain_of context.now.scene.now.project)) tick.0 }
    requires request { HasSides request }
    requires shared { IsSharing (plain_of context.now.scene.now.project) (length E.class_names) (comp_level (plain_of context.now.scene.now.project) of (16 * count + 2)) context.now.cache.now pass.old }
    requires kept { AreRight (⟦<E as Means<MAX>>⟧.scene context.now.scene.now) planes.old.kept.items }
    ensures stands { IfOk result (StandsFor request
        (plane_behind (drawn_from (⟦<E as Means<MAX>>⟧.scene context.now.scene.now)) (plain_comp comp.now) (plain_layer layer.now) (take count (plain_layer layer.now).effects) tick.0)) }
    ensures kept { OnOk result (AreRight (⟦<E as Means<MAX>>⟧.scene context.now.scene.now) planes.new.kept.items) }
    ensures pass { IsAsBefore pass.old pass.new }
{
    if count == 0 {
        source_world(context, planes, pass, layer, tick, request)
    } else {
        effect_world(
            context,
            planes,
            pass,
            of,
            comp,
            index,
            layer,
            count - 1,
            tick,
            request,
        )
    }
}

// The plane of a layer at a tick, behind its effect of a number, drawn on a request by a plan of what that needs.
#[cycle(draw)]
fn effect_world<'d, 'a, R: Wait, E: Draw<MAX>, const MAX: u32>(
    context: &Context<'d, R, E, SceneJob<'a, E, MAX>>,
    planes: &mut Planes<MAX>,
    pass: &mut Pass<SceneJob<'a, E, MAX>>,
    of: u32,
    comp: &Comp,
    index: usize,
    layer: &Layer,
    number: usize,
    tick: Tick,
    request: Rect,
) -> Result<World<MAX>, Memory>
    requires ready { IsDrawable MAX ⟦<E as HasSet>⟧.set context.now.scene.now (job_of context.now.cache.now).scene.now }
    requires sound { IsCompOf context.now.scene.now.project comp.now }
    requires place { slice_get comp.now.layers index ≡ Some layer.now }
    requires layer { IsLayerIn context.now.scene.now.project of comp.now layer.now }
    requires number { number < length layer.now.effects }
    requires held { IsHeld (base_in (plain_of context.now.scene.now.project)) tick.0 }
    requires request { HasSides request }
    requires shared { IsSharing (plain_of context.now.scene.now.project) (length E.class_names) (comp_level (plain_of context.now.scene.now.project) of (16 * number + 12)) context.now.cache.now pass.old }
    requires kept { AreRight (⟦<E as Means<MAX>>⟧.scene context.now.scene.now) planes.old.kept.items }
    ensures stands { (fx : FxUse) → slice_get layer.now.effects number ≡ Some fx → IfOk result (StandsFor request
        (fx_plane (drawn_from (⟦<E as Means<MAX>>⟧.scene context.now.scene.now)) (plain_comp comp.now)
        (plane_behind (drawn_from (⟦<E as Means<MAX>>⟧.scene context.now.scene.now)) (plain_comp comp.now) (plain_layer layer.now) (take number (plain_layer layer.now).effects)) (plain_fx fx) tick.0)) }
    ensures kept { OnOk result (AreRight (⟦<E as Means<MAX>>⟧.scene context.now.scene.now) planes.new.kept.items) }
    ensures pass { IsAsBefore pass.old pass.new }
{
    set_is_lawful::<E>();
    let fx = &layer.effects.as_slice()[number];
    let at = moment_of(base_of(context.scene), comp, tick);
    let wants = context.effects.list_wants(context.alloc, fx, at)?;
    let extents = wanted_extents(
        context.alloc,
        context.scene,
        context.effects,
        of,
        comp,
        layer,
        number,
        fx,
        &wants,
    )?;
    let plan = plan(context.alloc, context.effects, fx, at, &extents, request)?;
    draw_planned(
        context, planes, pass, of, comp, index, layer, number, fx, tick, at, &extents, &plan,
        request,
    )
}

// The same, by a plan that was made from these extents.
#[cycle(draw)]
fn draw_planned<'d, 'a, R: Wait, E: Draw<MAX>, const MAX: u32>(
    context: &Context<'d, R, E, SceneJob<'a, E, MAX>>,
    planes: &mut Planes<MAX>,
    pass: &mut Pass<SceneJob<'a, E, MAX>>,
    of: u32,
    comp: &Comp,
    index: usize,
    layer: &Layer,
    number: usize,
    fx: &FxUse,
    tick: Tick,
    at: Moment,
    extents: &[Rect],
    plan: &DrawPlan,
    request: Rect,
) -> Result<World<MAX>, Memory>
    requires ready { IsDrawable MAX ⟦<E as HasSet>⟧.set context.now.scene.now (job_of context.now.cache.now).scene.now }
    requires sound { IsCompOf context.now.scene.now.project comp.now }
    requires place { slice_get comp.now.layers index ≡ Some layer.now }
    requires layer { IsLayerIn context.now.scene.now.project of comp.now layer.now }
    requires number { number < length layer.now.effects }
    requires planned { IsPlanned MAX ⟦<E as HasSet>⟧.set ⟦<E as Means<MAX>>⟧.drawing context.now.scene.now comp.now layer.now number fx.now tick.0 at extents.now request plan.now }
    requires shared { IsSharing (plain_of context.now.scene.now.project) (length E.class_names) (comp_level (plain_of context.now.scene.now.project) of (16 * number + 11)) context.now.cache.now pass.old }
    requires kept { AreRight (⟦<E as Means<MAX>>⟧.scene context.now.scene.now) planes.old.kept.items }
    ensures stands { IfOk result (StandsFor request (effect_plane ⟦<E as HasSet>⟧.set ⟦<E as Means<MAX>>⟧.drawing context.now.scene.now comp.now layer.now number fx.now tick.0)) }
    ensures kept { OnOk result (AreRight (⟦<E as Means<MAX>>⟧.scene context.now.scene.now) planes.new.kept.items) }
    ensures pass { IsAsBefore pass.old pass.new }
{
    let taken = take_all(
        context, planes, pass, of, comp, index, layer, number, fx, tick, at, extents, plan, request,
    )?;
    draw_taken(
        context, pass, of, comp, layer, number, fx, tick, at, extents, plan, request, taken,
    )
}

/// The plane of a layer's source at a tick, drawn on a request.
#[cycle(draw)]
pub(crate) fn source_world<'d, 'a, R: Wait, E: Draw<MAX>, const MAX: u32>(
    context: &Context<'d, R, E, SceneJob<'a, E, MAX>>,
    planes: &mut Planes<MAX>,
    pass: &mut Pass<SceneJob<'a, E, MAX>>,
    layer: &Layer,
    tick: Tick,
    request: Rect,
) -> Result<World<MAX>, Memory>
    requires ready { IsDrawable MAX ⟦<E as HasSet>⟧.set context.now.scene.now (job_of context.now.cache.now).scene.now }
    requires layer { IsLayerOf context.now.scene.now.project layer.now }
    requires request { HasSides request }
    requires shared { IsSharing (plain_of context.now.scene.now.project) (length E.class_names) (256 * source_rank (stack_rank (plain_of context.now.scene.now.project)) layer.now.source) context.now.cache.now pass.old }
    requires kept { AreRight (⟦<E as Means<MAX>>⟧.scene context.now.scene.now) planes.old.kept.items }
    ensures stands { IfOk result (StandsFor request (source_plane (drawn_from (⟦<E as Means<MAX>>⟧.scene context.now.scene.now)) (plain_layer layer.now) tick.0)) }
    ensures kept { OnOk result (AreRight (⟦<E as Means<MAX>>⟧.scene context.now.scene.now) planes.new.kept.items) }
    ensures pass { IsAsBefore pass.old pass.new }
{
    let since = since_start(base_of(context.scene), layer, tick);
    match layer.source {
        Item::Solid {
            width,
            height,
            a,
            r,
            g,
            b,
        } => solid_world(context.alloc, width, height, Pixel::of_channels(a, r, g, b)),
        Item::Clip(index) => clip_world(context.alloc, context.scene, index, since, request),
        Item::Comp(index) => comp_world(context, planes, pass, index, since, request),
    }
}

// What the composition of an index shows at a tick, on a request: as it was kept, or drawn; and kept as a whole where this frame uses it
// again.
#[cycle(draw)]
fn comp_world<'d, 'a, R: Wait, E: Draw<MAX>, const MAX: u32>(
    context: &Context<'d, R, E, SceneJob<'a, E, MAX>>,
    planes: &mut Planes<MAX>,
    pass: &mut Pass<SceneJob<'a, E, MAX>>,
    index: u32,
    tick: Tick,
    request: Rect,
) -> Result<World<MAX>, Memory>
    requires ready { IsDrawable MAX ⟦<E as HasSet>⟧.set context.now.scene.now (job_of context.now.cache.now).scene.now }
    requires comp { index < length context.now.scene.now.project.comps }
    requires held { IsHeld (base_in (plain_of context.now.scene.now.project)) tick.0 }
    requires request { HasSides request }
    requires shared { IsSharing (plain_of context.now.scene.now.project) (length E.class_names) (comp_level (plain_of context.now.scene.now.project) index 212) context.now.cache.now pass.old }
    requires kept { AreRight (⟦<E as Means<MAX>>⟧.scene context.now.scene.now) planes.old.kept.items }
    ensures stands { IfOk result (StandsFor request (plane (⟦<E as Means<MAX>>⟧.scene context.now.scene.now) (Stack index) tick.0)) }
    ensures kept { OnOk result (AreRight (⟦<E as Means<MAX>>⟧.scene context.now.scene.now) planes.new.kept.items) }
    ensures pass { IsAsBefore pass.old pass.new }
{
    let again = spend_use(&mut planes.uses, index, tick);
    if let Some(place) = find_kept(&planes.kept, index, tick) {
        if again {
            return part_of(context.alloc, &planes.kept[place].world, request);
        }
        return Ok(planes.kept.remove(place).world);
    }
    if !again {
        return draw_comp(context, planes, pass, index, tick, request);
    }
    let world = whole_comp(context, planes, pass, index, tick)?;
    let part = part_of(context.alloc, &world, request)?;
    planes.kept.push(Kept {
        comp: index,
        tick,
        world,
    })?;
    Ok(part)
}

/// What the composition of an index shows at a tick, over its frame.
#[cycle(draw)]
pub(crate) fn whole_comp<'d, 'a, R: Wait, E: Draw<MAX>, const MAX: u32>(
    context: &Context<'d, R, E, SceneJob<'a, E, MAX>>,
    planes: &mut Planes<MAX>,
    pass: &mut Pass<SceneJob<'a, E, MAX>>,
    index: u32,
    tick: Tick,
) -> Result<World<MAX>, Memory>
    requires ready { IsDrawable MAX ⟦<E as HasSet>⟧.set context.now.scene.now (job_of context.now.cache.now).scene.now }
    requires comp { index < length context.now.scene.now.project.comps }
    requires held { IsHeld (base_in (plain_of context.now.scene.now.project)) tick.0 }
    requires shared { IsSharing (plain_of context.now.scene.now.project) (length E.class_names) (comp_level (plain_of context.now.scene.now.project) index 211) context.now.cache.now pass.old }
    requires kept { AreRight (⟦<E as Means<MAX>>⟧.scene context.now.scene.now) planes.old.kept.items }
    ensures plane { IfOk result (λ world. plane_of world ≡ plane (⟦<E as Means<MAX>>⟧.scene context.now.scene.now) (Stack index) tick.0) }
    ensures part { IfOk result (λ world. world.part ≡ world.extent) }
    ensures kept { OnOk result (AreRight (⟦<E as Means<MAX>>⟧.scene context.now.scene.now) planes.new.kept.items) }
    ensures pass { IsAsBefore pass.old pass.new }
{
    let comp = comp_at(context.scene, index);
    let frame = frame_rect(comp.width, comp.height);
    draw_comp(context, planes, pass, index, tick, frame)
}
