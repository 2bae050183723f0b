//! What effects draw from through the cache.
ghost use Rattle.std.specs.Prelude.{◌≡◌, ◌↔◌, IsTrue, ◌<◌, ◌≤◌, ◌+◌, ◌*◌, ◌++◌, ℕ, length, slice_get, vec_capacity, Some, IfOk, OnOk};
ghost use Rattle.std.specs.List.{All};
ghost use Rattle.geom_rect.specs.declared.rect.Rect.{Rect};
ghost use Rattle.geom_rect.specs.Rect.{IsWithin};
ghost use Rattle.project_model.specs.Bounds.{most_of};
ghost use Rattle.project_model.specs.Nodes as nodes;
ghost use Rattle.project_model.specs.Uses.{AreUses};
ghost use Rattle.effect_api.specs.Fits.{IsHeld};
ghost use Rattle.frame_draw.specs.Areas.{IsNear};
ghost use Rattle.project_model.specs.Plain.{plain_comp, plain_layer, plain_of};
ghost use Rattle.project_model.specs.declared.comp.Comp.{Comp as CompValue};
ghost use Rattle.project_model.specs.declared.layer.Layer.{Layer as LayerValue};
ghost use Rattle.effect_api.specs.Planes.{HasSides};
ghost use Rattle.effect_api.specs.Sets.{EffectSet, Drawing};
ghost use Rattle.effect_api.specs.Wants.{IsAsk, IsWant};
ghost use Rattle.scene_meaning.specs.Boxes.{IsBoxed};
ghost use Rattle.scene_meaning.specs.Nodes.{HasNode, IsOfLayer};
ghost use Rattle.scene_meaning.specs.Parts.{IsLayerIn, drawn_from, wanted_by};
ghost use Rattle.scene_meaning.specs.Scene.{plain_scene};
ghost use Rattle.scene_meaning.specs.Shown.{base_in, plane};
ghost use Rattle.scene_cache.specs.Sharing.{IsShare, comp_of, effects_behind, level_in};
ghost use Rattle.frame_draw.specs.Levels.{IsShareUnder, comp_level};
ghost use Rattle.frame_draw.specs.Uses.{receipts_in};

use compute_cache::{Keeps, Receipt};
use effect_api::{Ask, Checkout, Draw, Effect, Want};
use geom_rect::Rect;
use host_io::Memory;
use project_model::{Comp, FxUse, Layer, NodeId};
use rational_time::Tick;
use scene_cache::Share;
use scene_meaning::{Means, Scene, comp_at, layer_at};
use std::alloc::Global;

/// All points at which a plane may have a pixel.
pub(crate) fn everywhere() -> Rect
    ensures near { HasSides result }
    ensures all { (count : ℕ) (rect : Rect) → count ≤ 8 → IsBoxed count rect → IsWithin rect result }
{
    Rect {
        left: -100000,
        top: -100000,
        right: 100000,
        bottom: 100000,
    }
}

/// Where a node stands: the indices of its composition and its layer, and how many of the layer's effects it is behind.
#[derive(Clone, Copy)]
pub(crate) struct NodePlace {
    pub(crate) comp: u32,
    pub(crate) layer: usize,
    pub(crate) count: usize,
}

/// Where a source or an effect of the scene stands.
pub(crate) fn place_of(scene: &Scene, node: NodeId) -> NodePlace
    requires node { HasNode (plain_of scene.now.project) node }
    requires layer { IsOfLayer node }
    ensures node { node ≡ nodes.node_behind result.comp result.layer result.count }
    ensures comp { result.comp ≡ comp_of node }
    ensures count { result.count ≡ effects_behind node }
    ensures there { result.comp < length scene.now.project.comps }
    ensures layer { (comp : CompValue) → slice_get scene.now.project.comps result.comp ≡ Some comp → result.layer < length comp.layers }
    ensures effects { (comp : CompValue) (layer : LayerValue) → slice_get scene.now.project.comps result.comp ≡ Some comp → slice_get comp.layers result.layer ≡ Some layer
        → result.count ≤ length layer.effects }
{
    let _project = scene.project();
    match node {
        NodeId::Source { comp, layer } => NodePlace {
            comp,
            layer: layer as usize,
            count: 0,
        },
        NodeId::Fx { comp, layer, index } => NodePlace {
            comp,
            layer: layer as usize,
            count: index as usize + 1,
        },
        NodeId::Stack { .. } => unreachable!(),
    }
}

/// What a source or an effect of the scene shows at a tick is a plane within a box. The call does nothing: its contract is the fact.
pub(crate) fn node_is_boxed<E: Draw<MAX>, const MAX: u32>(scene: &Scene, node: NodeId, tick: Tick)
    requires depth { MAX ≡ most_of scene.now.project.depth }
    requires uses { AreUses E.schemas scene.now.project }
    requires node { HasNode (plain_of scene.now.project) node }
    requires layer { IsOfLayer node }
    requires held { IsHeld (base_in (plain_of scene.now.project)) tick.0 }
    ensures { IsNear MAX (plane (⟦<E as Means<MAX>>⟧.scene scene.now) node tick.0) }
{
    scene.planes_are_boxed::<E, MAX>();
    let place = place_of(scene, node);
    let _comp = comp_at(scene, place.comp);
    let _layer = layer_at(scene, place.comp, place.layer);
}

// The node behind so many effects of a layer.
fn node_behind(comp: u32, layer: usize, count: usize) -> NodeId
    requires layer { layer < 128 }
    requires count { count ≤ 8 }
    ensures { result ≡ nodes.node_behind comp layer count }
{
    let layer = layer as u32;
    if count == 0 {
        NodeId::Source { comp, layer }
    } else {
        NodeId::Fx {
            comp,
            layer,
            index: count as u32 - 1,
        }
    }
}

/// Whether a want is of this tick.
pub(crate) fn is_now(want: &Want, tick: Tick) -> bool
    ensures { IsTrue result ↔ (want.now.tick ≡ tick) }
{
    want.tick == tick
}

/// The ask of a number.
pub(crate) fn ask_at(asks: &[Ask], number: usize) -> Ask
    requires { number < length asks.now }
    ensures { slice_get asks.now number ≡ Some result }
{
    asks[number]
}

/// What the effect of a number draws from through the cache: under class 0 the plane that is wanted itself, and under a class of the set
/// its answer to an ask over that plane.
pub(crate) fn share_of(
    scene: &Scene,
    of: u32,
    comp: &Comp,
    index: usize,
    layer: &Layer,
    number: usize,
    fx: &FxUse,
    class: u8,
    ask: u32,
    want: Want,
) -> Share
    requires ask { ask < 16777216 }
    requires plane { class ≡ 0 → ask ≡ 0 }
    requires place { slice_get comp.now.layers index ≡ Some layer.now }
    requires layer { IsLayerIn scene.now.project of comp.now layer.now }
    requires number { number < length layer.now.effects }
    requires layers { All (λ index. index < length comp.now.layers) fx.now.layers }
    requires want { IsWant (length fx.now.layers) (base_in (plain_of scene.now.project)) want }
    ensures class { result.class ≡ class }
    ensures ask { result.ask ≡ ask }
    ensures tick { result.tick ≡ want.tick }
    ensures share { (classes : ℕ) → class ≤ classes → IsShare (plain_of scene.now.project) classes result }
    ensures level { level_in (plain_of scene.now.project) result.class result.node ≤ comp_level (plain_of scene.now.project) of (16 * number + 7) }
    ensures wanted { (set : EffectSet) (drawing : Drawing) → plane (plain_scene scene.now set drawing) result.node result.tick.0
        ≡ wanted_by (drawn_from (plain_scene scene.now set drawing)) (plain_comp comp.now) (plain_layer layer.now) number fx.now.layers want }
{
    Share {
        class,
        node: node_of_want(scene, of, comp, index, layer, number, fx, want),
        ask,
        tick: want.tick,
    }
}

// The node that the effect of a number wants: its layer behind the effects before it, or the source of a layer that it names.
fn node_of_want(
    scene: &Scene,
    of: u32,
    comp: &Comp,
    index: usize,
    layer: &Layer,
    number: usize,
    fx: &FxUse,
    want: Want,
) -> NodeId
    requires place { slice_get comp.now.layers index ≡ Some layer.now }
    requires layer { IsLayerIn scene.now.project of comp.now layer.now }
    requires number { number < length layer.now.effects }
    requires layers { All (λ index. index < length comp.now.layers) fx.now.layers }
    requires want { IsWant (length fx.now.layers) (base_in (plain_of scene.now.project)) want }
    ensures node { HasNode (plain_of scene.now.project) result }
    ensures layer { IsOfLayer result }
    ensures comp { comp_of result ≡ of }
    ensures behind { effects_behind result ≤ number }
    ensures wanted { (set : EffectSet) (drawing : Drawing) → plane (plain_scene scene.now set drawing) result want.tick.0
        ≡ wanted_by (drawn_from (plain_scene scene.now set drawing)) (plain_comp comp.now) (plain_layer layer.now) number fx.now.layers want }
{
    if want.input == 0 {
        return node_behind(of, index, number);
    }
    let named = fx.layers.as_slice()[(want.input - 1) as usize];
    node_behind(of, named as usize, 0)
}

// The checkout of a number.
fn checkout_at(checkouts: &[Checkout], number: usize) -> Checkout
    requires { number < length checkouts.now }
    ensures { slice_get checkouts.now number ≡ Some result }
{
    checkouts[number]
}

/// The share of a number.
pub(crate) fn share_at(shares: &[Share], number: usize) -> Share
    requires { number < length shares.now }
    ensures { slice_get shares.now number ≡ Some result }
{
    shares[number]
}

/// All that the effect of a number draws from through the cache, in order: the planes that are checked out at another tick, and what it
/// asks for.
pub(crate) fn shares_of<E: Effect>(
    alloc: Global,
    scene: &Scene,
    of: u32,
    comp: &Comp,
    index: usize,
    layer: &Layer,
    number: usize,
    fx: &FxUse,
    tick: Tick,
    checkouts: &[Checkout],
    asks: &[Ask],
) -> Result<Vec<Share>, Memory>
    requires place { slice_get comp.now.layers index ≡ Some layer.now }
    requires layer { IsLayerIn scene.now.project of comp.now layer.now }
    requires number { number < length layer.now.effects }
    requires layers { All (λ index. index < length comp.now.layers) fx.now.layers }
    requires wants { All (λ checkout. IsWant (length fx.now.layers) (base_in (plain_of scene.now.project)) checkout.want) checkouts.now }
    requires asks { All (IsAsk (length E.class_names) (length fx.now.layers) (base_in (plain_of scene.now.project))) asks.now }
    ensures { IfOk result (λ shares. All (IsShareUnder (plain_of scene.now.project) (length E.class_names) (comp_level (plain_of scene.now.project) of (16 * number + 7))) shares.items) }
{
    let mut shares = Vec::new(alloc);
    add_planes::<E>(
        &mut shares,
        scene,
        of,
        comp,
        index,
        layer,
        number,
        fx,
        tick,
        checkouts,
    )?;
    add_sums::<E>(&mut shares, scene, of, comp, index, layer, number, fx, asks)?;
    Ok(shares)
}

// Adds the planes that are checked out at another tick.
fn add_planes<E: Effect>(
    shares: &mut Vec<Share>,
    scene: &Scene,
    of: u32,
    comp: &Comp,
    index: usize,
    layer: &Layer,
    number: usize,
    fx: &FxUse,
    tick: Tick,
    checkouts: &[Checkout],
) -> Result<(), Memory>
    requires place { slice_get comp.now.layers index ≡ Some layer.now }
    requires layer { IsLayerIn scene.now.project of comp.now layer.now }
    requires number { number < length layer.now.effects }
    requires layers { All (λ index. index < length comp.now.layers) fx.now.layers }
    requires wants { All (λ checkout. IsWant (length fx.now.layers) (base_in (plain_of scene.now.project)) checkout.want) checkouts.now }
    requires before { All (IsShareUnder (plain_of scene.now.project) (length E.class_names) (comp_level (plain_of scene.now.project) of (16 * number + 7))) shares.old.items }
    ensures { OnOk result (All (IsShareUnder (plain_of scene.now.project) (length E.class_names) (comp_level (plain_of scene.now.project) of (16 * number + 7))) shares.new.items) }
{
    for place in 0..checkouts.len() {
        let checkout = checkout_at(checkouts, place);
        if is_now(&checkout.want, tick) {
            continue;
        }
        let share = share_of(
            scene,
            of,
            comp,
            index,
            layer,
            number,
            fx,
            0,
            0,
            checkout.want,
        );
        shares.push(share)?;
    }
    Ok(())
}

// Adds what is asked for.
fn add_sums<E: Effect>(
    shares: &mut Vec<Share>,
    scene: &Scene,
    of: u32,
    comp: &Comp,
    index: usize,
    layer: &Layer,
    number: usize,
    fx: &FxUse,
    asks: &[Ask],
) -> Result<(), Memory>
    requires place { slice_get comp.now.layers index ≡ Some layer.now }
    requires layer { IsLayerIn scene.now.project of comp.now layer.now }
    requires number { number < length layer.now.effects }
    requires layers { All (λ index. index < length comp.now.layers) fx.now.layers }
    requires asks { All (IsAsk (length E.class_names) (length fx.now.layers) (base_in (plain_of scene.now.project))) asks.now }
    requires before { All (IsShareUnder (plain_of scene.now.project) (length E.class_names) (comp_level (plain_of scene.now.project) of (16 * number + 7))) shares.old.items }
    ensures { OnOk result (All (IsShareUnder (plain_of scene.now.project) (length E.class_names) (comp_level (plain_of scene.now.project) of (16 * number + 7))) shares.new.items) }
{
    for place in 0..asks.len() {
        let ask = ask_at(asks, place);
        let share = share_of(
            scene, of, comp, index, layer, number, fx, ask.class, ask.ask, ask.want,
        );
        shares.push(share)?;
    }
    Ok(())
}

/// Adds the receipt of what was taken, if there is one.
pub(crate) fn push_taken<K: Keeps>(early: &mut Vec<Receipt<K>>, taken: Option<Receipt<K>>)
    requires room { length early.old.items < vec_capacity early.old }
    ensures items { early.new.items ≡ early.old.items ++ receipts_in taken }
    ensures capacity { vec_capacity early.new ≡ vec_capacity early.old }
{
    match taken {
        Some(receipt) => early.push_reserved(receipt),
        None => {}
    }
}
