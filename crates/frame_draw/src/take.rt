//! What effects are drawn from, taken.
ghost use Rattle.std.specs.Prelude.{◌≡◌, ◌<◌, ◌≤◌, ◌+◌, length, slice_get, IfOk, OnOk, Some};
ghost use Rattle.std.specs.List.{All};
ghost use Rattle.comp_stack.specs.Layers.{plane_of};
ghost use Rattle.project_model.specs.Plain.{plain_comp, plain_layer, plain_of};
ghost use Rattle.effect_api.specs.Fits.{IsHeld};
ghost use Rattle.scene_meaning.specs.Shown.{base_in, plane};
ghost use Rattle.frame_draw.specs.Areas.{StandsFor};
ghost use Rattle.effect_api.specs.Planes.{HasSides};
ghost use Rattle.frame_draw.specs.Kept.{AreRight};
ghost use Rattle.scene_meaning.specs.Parts.{IsCompOf, IsLayerIn, drawn_from, wanted_by};
ghost use Rattle.frame_draw.specs.Uses.{AreWanted, IsAnswer, IsDrawable, IsShareTaken, IsWanted, OpensAll};
ghost use Rattle.frame_draw.specs.Levels.{IsShareUnder, comp_level};
ghost use Rattle.frame_draw.specs.Planned.{IsPlanned, IsTaken};
ghost use Rattle.effect_api.specs.Wants.{IsAsk, IsWant};
ghost use Rattle.std.specs.List.{AllZip};
ghost use Rattle.std.specs.Prelude.{◌*◌, ◌-◌, ◌++◌, OnErr};
ghost use Rattle.compute_cache.specs.Suite.{IsAsBefore, job_of};
ghost use Rattle.scene_meaning.specs.Nodes as nodes;
ghost use Rattle.scene_cache.specs.Sharing.{IsShare, IsSharing, comp_of, effects_behind, level_in, receipt_of, receipts_of, value_of_share};

use crate::context::Context;
use crate::draw::{layer_world, source_world};
use crate::effects::{Taken, drawn};
use crate::planes::{Planes, whole_world};
use crate::shares::{
    ask_at, everywhere, is_now, node_is_boxed, place_of, push_taken, share_at, share_of, shares_of,
};
use argb_world::World;
use compute_cache::{Made, Pass, Receipt, Turn};
use effect_api::{Ask, Checkout, Checkouts, Draw, Moment, Pixels, Value, set_is_lawful};
use geom_rect::Rect;
use host_io::Memory;
use project_model::{Comp, FxUse, Layer, NodeId};
use rational_time::Tick;
use scene_cache::{
    Begin, Share, begin_share, checkin_all, checkin_one, checkin_pixels, end_share,
    kept_planes_show, kept_sums_are, made_plane, made_sums,
};
use scene_meaning::{HasSet, Means, SceneJob, comp_at, layer_at};
use smart_plan::DrawPlan;
use std::sync::Wait;

/// Takes all that an effect is drawn from by a plan: pixels of what it wants, and the sums that it asks for. What it shares is begun
/// first without waiting, so that what other passes compute is waited for only after all that this pass can compute of it.
#[cycle(draw)]
pub(crate) fn take_all<'d, 'a, R: Wait, E: Draw<MAX>, const MAX: u32>(
    context: &Context<'d, R, E, SceneJob<'a, E, MAX>>,
    planes: &mut Planes<MAX>,
    pass: &mut Pass<SceneJob<'a, E, MAX>>,
    of: u32,
    comp: &Comp,
    index: usize,
    layer: &Layer,
    number: usize,
    fx: &FxUse,
    tick: Tick,
    at: Moment,
    extents: &[Rect],
    plan: &DrawPlan,
    request: Rect,
) -> Result<Taken<MAX, SceneJob<'a, E, MAX>>, Memory>
    requires ready { IsDrawable MAX ⟦<E as HasSet>⟧.set context.now.scene.now (job_of context.now.cache.now).scene.now }
    requires sound { IsCompOf context.now.scene.now.project comp.now }
    requires place { slice_get comp.now.layers index ≡ Some layer.now }
    requires layer { IsLayerIn context.now.scene.now.project of comp.now layer.now }
    requires number { number < length layer.now.effects }
    requires planned { IsPlanned MAX ⟦<E as HasSet>⟧.set ⟦<E as Means<MAX>>⟧.drawing context.now.scene.now comp.now layer.now number fx.now tick.0 at extents.now request plan.now }
    requires shared { IsSharing (plain_of context.now.scene.now.project) (length E.class_names) (comp_level (plain_of context.now.scene.now.project) of (16 * number + 10)) context.now.cache.now pass.old }
    requires kept { AreRight (⟦<E as Means<MAX>>⟧.scene context.now.scene.now) planes.old.kept.items }
    ensures taken { IfOk result (λ taken. IsTaken ⟦<E as HasSet>⟧.set ⟦<E as Means<MAX>>⟧.drawing context.now.scene.now of comp.now layer.now number fx.now tick at extents.now request plan.now taken.pixels.pairs taken.sums.items) }
    ensures opened { IfOk result (λ taken. OpensAll context.now.cache.now pass.old (receipts_of taken.pixels.pairs ++ taken.sums.items) pass.new) }
    ensures refused { OnErr result (IsAsBefore pass.old pass.new) }
    ensures kept { OnOk result (AreRight (⟦<E as Means<MAX>>⟧.scene context.now.scene.now) planes.new.kept.items) }
{
    let shares = shares_of::<E>(
        context.alloc,
        context.scene,
        of,
        comp,
        index,
        layer,
        number,
        fx,
        tick,
        &plan.pre.checkouts,
        &plan.asks,
    )?;
    let early = begin_early(context, planes, pass, of, number, &shares)?;
    let taken = take_waiting(
        context, planes, pass, of, comp, index, layer, number, fx, tick, at, extents, plan, request,
    );
    checkin_all(context.rt, context.cache, pass, early);
    taken
}

// Begins shared values in order without waiting: those that are there, and those that it is this pass's turn to compute, are taken.
#[cycle(draw)]
fn begin_early<'d, 'a, R: Wait, E: Draw<MAX>, const MAX: u32>(
    context: &Context<'d, R, E, SceneJob<'a, E, MAX>>,
    planes: &mut Planes<MAX>,
    pass: &mut Pass<SceneJob<'a, E, MAX>>,
    of: u32,
    number: usize,
    shares: &[Share],
) -> Result<Vec<Receipt<SceneJob<'a, E, MAX>>>, Memory>
    requires ready { IsDrawable MAX ⟦<E as HasSet>⟧.set context.now.scene.now (job_of context.now.cache.now).scene.now }
    requires shares { All (IsShareUnder (plain_of context.now.scene.now.project) (length E.class_names) (comp_level (plain_of context.now.scene.now.project) of (16 * number + 7))) shares.now }
    requires shared { IsSharing (plain_of context.now.scene.now.project) (length E.class_names) (comp_level (plain_of context.now.scene.now.project) of (16 * number + 9)) context.now.cache.now pass.old }
    requires kept { AreRight (⟦<E as Means<MAX>>⟧.scene context.now.scene.now) planes.old.kept.items }
    ensures opened { IfOk result (λ early. OpensAll context.now.cache.now pass.old early.items pass.new) }
    ensures refused { OnErr result (IsAsBefore pass.old pass.new) }
    ensures kept { OnOk result (AreRight (⟦<E as Means<MAX>>⟧.scene context.now.scene.now) planes.new.kept.items) }
{
    let mut early = Vec::with_capacity(context.alloc, shares.len())?;
    for place in 0..shares.len() {
        let share = share_at(shares, place);
        match take_value(context, planes, pass, share, false) {
            Ok(taken) => push_taken(&mut early, taken),
            Err(Memory) => {
                checkin_all(context.rt, context.cache, pass, early);
                return Err(Memory);
            }
        }
    }
    Ok(early)
}

// Takes all that an effect is drawn from by a plan, in order: what another pass computes is waited for.
#[cycle(draw)]
fn take_waiting<'d, 'a, R: Wait, E: Draw<MAX>, const MAX: u32>(
    context: &Context<'d, R, E, SceneJob<'a, E, MAX>>,
    planes: &mut Planes<MAX>,
    pass: &mut Pass<SceneJob<'a, E, MAX>>,
    of: u32,
    comp: &Comp,
    index: usize,
    layer: &Layer,
    number: usize,
    fx: &FxUse,
    tick: Tick,
    at: Moment,
    extents: &[Rect],
    plan: &DrawPlan,
    request: Rect,
) -> Result<Taken<MAX, SceneJob<'a, E, MAX>>, Memory>
    requires ready { IsDrawable MAX ⟦<E as HasSet>⟧.set context.now.scene.now (job_of context.now.cache.now).scene.now }
    requires sound { IsCompOf context.now.scene.now.project comp.now }
    requires place { slice_get comp.now.layers index ≡ Some layer.now }
    requires layer { IsLayerIn context.now.scene.now.project of comp.now layer.now }
    requires number { number < length layer.now.effects }
    requires planned { IsPlanned MAX ⟦<E as HasSet>⟧.set ⟦<E as Means<MAX>>⟧.drawing context.now.scene.now comp.now layer.now number fx.now tick.0 at extents.now request plan.now }
    requires shared { IsSharing (plain_of context.now.scene.now.project) (length E.class_names) (comp_level (plain_of context.now.scene.now.project) of (16 * number + 10)) context.now.cache.now pass.old }
    requires kept { AreRight (⟦<E as Means<MAX>>⟧.scene context.now.scene.now) planes.old.kept.items }
    ensures taken { IfOk result (λ taken. IsTaken ⟦<E as HasSet>⟧.set ⟦<E as Means<MAX>>⟧.drawing context.now.scene.now of comp.now layer.now number fx.now tick at extents.now request plan.now taken.pixels.pairs taken.sums.items) }
    ensures opened { IfOk result (λ taken. OpensAll context.now.cache.now pass.old (receipts_of taken.pixels.pairs ++ taken.sums.items) pass.new) }
    ensures refused { OnErr result (IsAsBefore pass.old pass.new) }
    ensures kept { OnOk result (AreRight (⟦<E as Means<MAX>>⟧.scene context.now.scene.now) planes.new.kept.items) }
{
    set_is_lawful::<E>();
    let pixels = check_out(
        context,
        planes,
        pass,
        of,
        comp,
        index,
        layer,
        number,
        fx,
        tick,
        &plan.pre.checkouts,
    )?;
    match take_sums(
        context, planes, pass, of, comp, index, layer, number, fx, &plan.asks,
    ) {
        Ok(sums) => Ok(Taken { pixels, sums }),
        Err(Memory) => {
            checkin_pixels(context.rt, context.cache, pass, pixels);
            Err(Memory)
        }
    }
}

// Checks out what the effect of a number wants at a tick, in order: what is of that tick on what is requested of it, and what is of
// another one through the cache.
#[cycle(draw)]
fn check_out<'d, 'a, R: Wait, E: Draw<MAX>, const MAX: u32>(
    context: &Context<'d, R, E, SceneJob<'a, E, MAX>>,
    planes: &mut Planes<MAX>,
    pass: &mut Pass<SceneJob<'a, E, MAX>>,
    of: u32,
    comp: &Comp,
    index: usize,
    layer: &Layer,
    number: usize,
    fx: &FxUse,
    tick: Tick,
    checkouts: &[Checkout],
) -> Result<Checkouts<MAX, SceneJob<'a, E, MAX>>, Memory>
    requires ready { IsDrawable MAX ⟦<E as HasSet>⟧.set context.now.scene.now (job_of context.now.cache.now).scene.now }
    requires sound { IsCompOf context.now.scene.now.project comp.now }
    requires place { slice_get comp.now.layers index ≡ Some layer.now }
    requires layer { IsLayerIn context.now.scene.now.project of comp.now layer.now }
    requires number { number < length layer.now.effects }
    requires layers { All (λ index. index < length comp.now.layers) fx.now.layers }
    requires wants { All (λ checkout. IsWant (length fx.now.layers) (base_in (plain_of context.now.scene.now.project)) checkout.want) checkouts.now }
    requires requests { All (λ checkout. HasSides checkout.request) checkouts.now }
    requires few { length checkouts.now ≤ 16 }
    requires shared { IsSharing (plain_of context.now.scene.now.project) (length E.class_names) (comp_level (plain_of context.now.scene.now.project) of (16 * number + 9)) context.now.cache.now pass.old }
    requires kept { AreRight (⟦<E as Means<MAX>>⟧.scene context.now.scene.now) planes.old.kept.items }
    ensures wanted { IfOk result (λ pixels. AreWanted
        (wanted_by (drawn_from (⟦<E as Means<MAX>>⟧.scene context.now.scene.now)) (plain_comp comp.now) (plain_layer layer.now) number fx.now.layers) tick checkouts.now pixels.pairs) }
    ensures opened { IfOk result (λ pixels. OpensAll context.now.cache.now pass.old (receipts_of pixels.pairs) pass.new) }
    ensures refused { OnErr result (IsAsBefore pass.old pass.new) }
    ensures kept { OnOk result (AreRight (⟦<E as Means<MAX>>⟧.scene context.now.scene.now) planes.new.kept.items) }
{
    let mut pixels = Checkouts::with_room(context.alloc, checkouts.len())?;
    for place in 0..checkouts.len() {
        match take_pixels(
            context,
            planes,
            pass,
            of,
            comp,
            index,
            layer,
            number,
            fx,
            tick,
            checkouts[place],
        ) {
            Ok(taken) => pixels.put(place as u32, taken),
            Err(Memory) => {
                checkin_pixels(context.rt, context.cache, pass, pixels);
                return Err(Memory);
            }
        }
    }
    Ok(pixels)
}

// The pixels of one checkout: drawn where it is of this tick, and shared where it is of another one.
#[cycle(draw)]
fn take_pixels<'d, 'a, R: Wait, E: Draw<MAX>, const MAX: u32>(
    context: &Context<'d, R, E, SceneJob<'a, E, MAX>>,
    planes: &mut Planes<MAX>,
    pass: &mut Pass<SceneJob<'a, E, MAX>>,
    of: u32,
    comp: &Comp,
    index: usize,
    layer: &Layer,
    number: usize,
    fx: &FxUse,
    tick: Tick,
    checkout: Checkout,
) -> Result<Pixels<MAX, SceneJob<'a, E, MAX>>, Memory>
    requires ready { IsDrawable MAX ⟦<E as HasSet>⟧.set context.now.scene.now (job_of context.now.cache.now).scene.now }
    requires sound { IsCompOf context.now.scene.now.project comp.now }
    requires place { slice_get comp.now.layers index ≡ Some layer.now }
    requires layer { IsLayerIn context.now.scene.now.project of comp.now layer.now }
    requires number { number < length layer.now.effects }
    requires layers { All (λ index. index < length comp.now.layers) fx.now.layers }
    requires want { IsWant (length fx.now.layers) (base_in (plain_of context.now.scene.now.project)) checkout.want }
    requires request { HasSides checkout.request }
    requires shared { IsSharing (plain_of context.now.scene.now.project) (length E.class_names) (comp_level (plain_of context.now.scene.now.project) of (16 * number + 8)) context.now.cache.now pass.old }
    requires kept { AreRight (⟦<E as Means<MAX>>⟧.scene context.now.scene.now) planes.old.kept.items }
    ensures wanted { IfOk result (IsWanted (wanted_by (drawn_from (⟦<E as Means<MAX>>⟧.scene context.now.scene.now)) (plain_comp comp.now) (plain_layer layer.now) number fx.now.layers) tick checkout) }
    ensures opened { IfOk result (λ pixels. OpensAll context.now.cache.now pass.old (receipt_of pixels) pass.new) }
    ensures refused { OnErr result (IsAsBefore pass.old pass.new) }
    ensures kept { OnOk result (AreRight (⟦<E as Means<MAX>>⟧.scene context.now.scene.now) planes.new.kept.items) }
{
    let want = checkout.want;
    if is_now(&want, tick) {
        let world = wanted_world(
            context, planes, pass, of, comp, index, layer, number, fx, checkout,
        )?;
        return Ok(drawn(world));
    }
    kept_planes_show();
    let share = share_of(
        context.scene,
        of,
        comp,
        index,
        layer,
        number,
        fx,
        0,
        0,
        want,
    );
    node_is_boxed::<E, MAX>(context.scene, share.node, share.tick);
    match take_value(context, planes, pass, share, true)? {
        Some(receipt) => Ok(Pixels::Shared(receipt)),
        None => unreachable!(),
    }
}

// A plane that the effect of a number wants, drawn on what is requested of it: the layer behind the effects before it, or the source of
// a layer that it names.
#[cycle(draw)]
fn wanted_world<'d, 'a, R: Wait, E: Draw<MAX>, const MAX: u32>(
    context: &Context<'d, R, E, SceneJob<'a, E, MAX>>,
    planes: &mut Planes<MAX>,
    pass: &mut Pass<SceneJob<'a, E, MAX>>,
    of: u32,
    comp: &Comp,
    index: usize,
    layer: &Layer,
    number: usize,
    fx: &FxUse,
    checkout: Checkout,
) -> Result<World<MAX>, Memory>
    requires ready { IsDrawable MAX ⟦<E as HasSet>⟧.set context.now.scene.now (job_of context.now.cache.now).scene.now }
    requires sound { IsCompOf context.now.scene.now.project comp.now }
    requires place { slice_get comp.now.layers index ≡ Some layer.now }
    requires layer { IsLayerIn context.now.scene.now.project of comp.now layer.now }
    requires number { number < length layer.now.effects }
    requires layers { All (λ index. index < length comp.now.layers) fx.now.layers }
    requires want { IsWant (length fx.now.layers) (base_in (plain_of context.now.scene.now.project)) checkout.want }
    requires request { HasSides checkout.request }
    requires shared { IsSharing (plain_of context.now.scene.now.project) (length E.class_names) (comp_level (plain_of context.now.scene.now.project) of (16 * number + 3)) context.now.cache.now pass.old }
    requires kept { AreRight (⟦<E as Means<MAX>>⟧.scene context.now.scene.now) planes.old.kept.items }
    ensures stands { IfOk result (StandsFor checkout.request
        (wanted_by (drawn_from (⟦<E as Means<MAX>>⟧.scene context.now.scene.now)) (plain_comp comp.now) (plain_layer layer.now) number fx.now.layers checkout.want)) }
    ensures kept { OnOk result (AreRight (⟦<E as Means<MAX>>⟧.scene context.now.scene.now) planes.new.kept.items) }
    ensures pass { IsAsBefore pass.old pass.new }
{
    let want = checkout.want;
    if want.input == 0 {
        return layer_world(
            context,
            planes,
            pass,
            of,
            comp,
            index,
            layer,
            number,
            want.tick,
            checkout.request,
        );
    }
    let named = fx.layers.as_slice()[(want.input - 1) as usize];
    let other = layer_at(context.scene, of, named as usize);
    source_world(context, planes, pass, other, want.tick, checkout.request)
}

// Takes the sums that the effect of a number asks for, in order, through the cache.
#[cycle(draw)]
fn take_sums<'d, 'a, R: Wait, E: Draw<MAX>, const MAX: u32>(
    context: &Context<'d, R, E, SceneJob<'a, E, MAX>>,
    planes: &mut Planes<MAX>,
    pass: &mut Pass<SceneJob<'a, E, MAX>>,
    of: u32,
    comp: &Comp,
    index: usize,
    layer: &Layer,
    number: usize,
    fx: &FxUse,
    asks: &[Ask],
) -> Result<Vec<Receipt<SceneJob<'a, E, MAX>>>, Memory>
    requires ready { IsDrawable MAX ⟦<E as HasSet>⟧.set context.now.scene.now (job_of context.now.cache.now).scene.now }
    requires sound { IsCompOf context.now.scene.now.project comp.now }
    requires place { slice_get comp.now.layers index ≡ Some layer.now }
    requires layer { IsLayerIn context.now.scene.now.project of comp.now layer.now }
    requires number { number < length layer.now.effects }
    requires layers { All (λ index. index < length comp.now.layers) fx.now.layers }
    requires asks { All (IsAsk (length E.class_names) (length fx.now.layers) (base_in (plain_of context.now.scene.now.project))) asks.now }
    requires shared { IsSharing (plain_of context.now.scene.now.project) (length E.class_names) (comp_level (plain_of context.now.scene.now.project) of (16 * number + 9)) context.now.cache.now pass.old }
    requires kept { AreRight (⟦<E as Means<MAX>>⟧.scene context.now.scene.now) planes.old.kept.items }
    ensures asked { IfOk result (λ sums. AllZip (IsAnswer E.sums_of
        (wanted_by (drawn_from (⟦<E as Means<MAX>>⟧.scene context.now.scene.now)) (plain_comp comp.now) (plain_layer layer.now) number fx.now.layers)) asks.now sums.items) }
    ensures opened { IfOk result (λ sums. OpensAll context.now.cache.now pass.old sums.items pass.new) }
    ensures refused { OnErr result (IsAsBefore pass.old pass.new) }
    ensures kept { OnOk result (AreRight (⟦<E as Means<MAX>>⟧.scene context.now.scene.now) planes.new.kept.items) }
{
    kept_sums_are();
    let mut sums = Vec::with_capacity(context.alloc, asks.len())?;
    for place in 0..asks.len() {
        let ask = ask_at(asks, place);
        let share = share_of(
            context.scene,
            of,
            comp,
            index,
            layer,
            number,
            fx,
            ask.class,
            ask.ask,
            ask.want,
        );
        match take_value(context, planes, pass, share, true) {
            Ok(Some(taken)) => sums.push_reserved(taken),
            Ok(None) => unreachable!(),
            Err(Memory) => {
                checkin_all(context.rt, context.cache, pass, sums);
                return Err(Memory);
            }
        }
    }
    Ok(sums)
}

// Takes a shared value. Where another pass computes it, it is waited for, or passed over.
#[cycle(draw)]
fn take_value<'d, 'a, R: Wait, E: Draw<MAX>, const MAX: u32>(
    context: &Context<'d, R, E, SceneJob<'a, E, MAX>>,
    planes: &mut Planes<MAX>,
    pass: &mut Pass<SceneJob<'a, E, MAX>>,
    share: Share,
    wait: bool,
) -> Result<Option<Receipt<SceneJob<'a, E, MAX>>>, Memory>
    requires ready { IsDrawable MAX ⟦<E as HasSet>⟧.set context.now.scene.now (job_of context.now.cache.now).scene.now }
    requires share { IsShare (plain_of context.now.scene.now.project) (length E.class_names) share }
    requires shared { IsSharing (plain_of context.now.scene.now.project) (length E.class_names) (level_in (plain_of context.now.scene.now.project) share.class share.node) context.now.cache.now pass.old }
    requires kept { AreRight (⟦<E as Means<MAX>>⟧.scene context.now.scene.now) planes.old.kept.items }
    ensures taken { IfOk result (IsShareTaken (⟦<E as Means<MAX>>⟧.scene context.now.scene.now) share wait context.now.cache.now pass.old pass.new) }
    ensures refused { OnErr result (IsAsBefore pass.old pass.new) }
    ensures kept { OnOk result (AreRight (⟦<E as Means<MAX>>⟧.scene context.now.scene.now) planes.new.kept.items) }
{
    match begin_share(
        context.rt,
        context.alloc,
        context.scene,
        context.cache,
        pass,
        &share,
        wait,
    )? {
        Begin::Found(receipt) => Ok(Some(receipt)),
        Begin::Mine(turn) => {
            let made = compute_value(context, planes, pass, share, &turn);
            let receipt = end_share(
                context.rt,
                context.scene,
                context.cache,
                pass,
                &share,
                turn,
                made,
            )?;
            Ok(Some(receipt))
        }
        Begin::Theirs => Ok(None),
    }
}

// Computes a shared value in its turn.
#[cycle(draw)]
fn compute_value<'d, 'a, R: Wait, E: Draw<MAX>, const MAX: u32>(
    context: &Context<'d, R, E, SceneJob<'a, E, MAX>>,
    planes: &mut Planes<MAX>,
    pass: &mut Pass<SceneJob<'a, E, MAX>>,
    share: Share,
    turn: &Turn<SceneJob<'a, E, MAX>>,
) -> Result<Made<Value<MAX>>, Memory>
    requires ready { IsDrawable MAX ⟦<E as HasSet>⟧.set context.now.scene.now (job_of context.now.cache.now).scene.now }
    requires share { IsShare (plain_of context.now.scene.now.project) (length E.class_names) share }
    requires turn { turn.now.class ≡ share.class }
    requires shared { IsSharing (plain_of context.now.scene.now.project) (length E.class_names) (level_in (plain_of context.now.scene.now.project) share.class share.node - 1) context.now.cache.now pass.old }
    requires kept { AreRight (⟦<E as Means<MAX>>⟧.scene context.now.scene.now) planes.old.kept.items }
    ensures made { IfOk result (λ value. value_of_share (⟦<E as Means<MAX>>⟧.scene context.now.scene.now) share ≡ Some value) }
    ensures kept { OnOk result (AreRight (⟦<E as Means<MAX>>⟧.scene context.now.scene.now) planes.new.kept.items) }
    ensures pass { IsAsBefore pass.old pass.new }
{
    if share.class == 0 {
        let world = whole_node(context, planes, pass, share.node, share.tick)?;
        return made_plane(context.alloc, world);
    }
    kept_planes_show();
    node_is_boxed::<E, MAX>(context.scene, share.node, share.tick);
    let over = Share {
        class: 0,
        ask: 0,
        ..share
    };
    let Some(plane) = take_value(context, planes, pass, over, true)? else {
        unreachable!()
    };
    let sums = context
        .effects
        .analyse(context.alloc, turn, share.class, share.ask, &plane);
    checkin_one(context.rt, context.cache, pass, plane);
    made_sums(context.alloc, sums?)
}

// The plane of a source or an effect at a tick, all of it.
#[cycle(draw)]
fn whole_node<'d, 'a, R: Wait, E: Draw<MAX>, const MAX: u32>(
    context: &Context<'d, R, E, SceneJob<'a, E, MAX>>,
    planes: &mut Planes<MAX>,
    pass: &mut Pass<SceneJob<'a, E, MAX>>,
    node: NodeId,
    tick: Tick,
) -> Result<World<MAX>, Memory>
    requires ready { IsDrawable MAX ⟦<E as HasSet>⟧.set context.now.scene.now (job_of context.now.cache.now).scene.now }
    requires node { nodes.HasNode (plain_of context.now.scene.now.project) node }
    requires layer { nodes.IsOfLayer node }
    requires held { IsHeld (base_in (plain_of context.now.scene.now.project)) tick.0 }
    requires shared { IsSharing (plain_of context.now.scene.now.project) (length E.class_names) (comp_level (plain_of context.now.scene.now.project) (comp_of node) (16 * effects_behind node + 3)) context.now.cache.now pass.old }
    requires kept { AreRight (⟦<E as Means<MAX>>⟧.scene context.now.scene.now) planes.old.kept.items }
    ensures plane { IfOk result (λ world. plane_of world ≡ plane (⟦<E as Means<MAX>>⟧.scene context.now.scene.now) node tick.0) }
    ensures whole { IfOk result (λ world. world.part ≡ world.extent) }
    ensures kept { OnOk result (AreRight (⟦<E as Means<MAX>>⟧.scene context.now.scene.now) planes.new.kept.items) }
    ensures pass { IsAsBefore pass.old pass.new }
{
    node_is_boxed::<E, MAX>(context.scene, node, tick);
    let place = place_of(context.scene, node);
    let comp = comp_at(context.scene, place.comp);
    let layer = layer_at(context.scene, place.comp, place.layer);
    let world = layer_world(
        context,
        planes,
        pass,
        place.comp,
        comp,
        place.layer,
        layer,
        place.count,
        tick,
        everywhere(),
    )?;
    whole_world(context.alloc, world)
}
