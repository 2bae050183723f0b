//! How far the planes of a scene's nodes reach.
ghost use Rattle.std.specs.Prelude.{◌≡◌, ◌<◌, ◌≤◌, ◌+◌, ℤ, length, IfOk, OnOk};
ghost use Rattle.std.specs.List.{All, AllZip};
ghost use Rattle.project_model.specs.declared.node.NodeId.TheVariants.{Fx, Source, Stack};
ghost use Rattle.project_model.specs.Effects.{use_of};
ghost use Rattle.project_model.specs.Plain.{plain_comp, plain_layer, plain_of};
ghost use Rattle.project_model.specs.Uses.{AreUses};
ghost use Rattle.effect_api.specs.Fits.{IsBased, IsGiven, IsHeld};
ghost use Rattle.effect_api.specs.Render.{AreExtents};
ghost use Rattle.effect_api.specs.Sets.{EffectSet};
ghost use Rattle.effect_api.specs.Wants.{IsWant};
ghost use Rattle.scene_meaning.specs.Boxes.{IsBoxed};
ghost use Rattle.scene_meaning.specs.Extents.{IsExtent, IsExtentBehind, IsSourceExtent, IsWantedExtent};
ghost use Rattle.scene_meaning.specs.Known.{AreKnown, KeepsExtent, known_at};
ghost use Rattle.scene_meaning.specs.Nodes.{HasNode};
ghost use Rattle.scene_meaning.specs.Parts.{IsCompOf, IsLayerIn, IsLayerOf};
ghost use Rattle.scene_meaning.specs.Shown.{base_in};

use crate::parts::{base_of, clip_use_at, comp_at, frame_rect, layer_at, moment_of};
use crate::{HasSet, Scene};
use effect_api::{Effect, Moment, Want, set_is_lawful};
use geom_rect::Rect;
use host_io::Memory;
use project_model::{Comp, FxUse, Item, Layer, NodeId};
use rational_time::Tick;
use std::alloc::Global;
use std::collections::BTreeMap;

// The extents of a layer's plane that were found, by how many of its effects it is behind and the tick: at most one for each effect
// and each tick at which what it draws is looked at. A look-up takes the logarithm of how many there are.
type KnownExtents = BTreeMap<(usize, i64), Rect>;

impl Scene {
    /// The extent of a node's plane at a tick, where the project's effects are of this set. It is told by what effects want and by their
    /// bounds alone: nothing is drawn. The scene has the node, and the tick is at most 36,000 seconds from zero.
    pub fn extent_of<E: Effect>(
        &self,
        alloc: Global,
        effects: &E,
        node: NodeId,
        tick: Tick,
    ) -> Result<Rect, Memory>
        requires uses { AreUses E.schemas self.now.project }
        requires node { HasNode (plain_of self.now.project) node }
        requires held { IsHeld (base_in (plain_of self.now.project)) tick.0 }
        ensures { IfOk result (IsExtent ⟦<E as HasSet>⟧.set self.now node tick.0) }
    {
        match node {
            NodeId::Source { comp, layer } => Ok(source_of(self, comp, layer)),
            NodeId::Fx { comp, layer, index } => {
                behind_effect(alloc, self, effects, comp, layer, index, tick)
            }
            NodeId::Stack { comp } => Ok(frame_of_comp(self, comp)),
        }
    }
}

// The frame of a composition.
fn frame_of_comp(scene: &Scene, index: u32) -> Rect
    requires { index < length scene.now.project.comps }
    ensures { (set : EffectSet) (t : ℤ) → IsExtent set scene.now (Stack index) t result }
{
    let comp = comp_at(scene, index);
    frame_rect(comp.width, comp.height)
}

// The extent of the source of the layer of these indices.
fn source_of(scene: &Scene, comp: u32, layer: u32) -> Rect
    requires { HasNode (plain_of scene.now.project) (Source comp layer) }
    ensures { (set : EffectSet) (t : ℤ) → IsExtent set scene.now (Source comp layer) t result }
{
    source_extent(scene, layer_at(scene, comp, layer as usize))
}

// The extent of the plane behind the effect of these indices.
fn behind_effect<E: Effect>(
    alloc: Global,
    scene: &Scene,
    effects: &E,
    of: u32,
    index: u32,
    number: u32,
    tick: Tick,
) -> Result<Rect, Memory>
    requires uses { AreUses E.schemas scene.now.project }
    requires node { HasNode (plain_of scene.now.project) (Fx of index number) }
    requires held { IsHeld (base_in (plain_of scene.now.project)) tick.0 }
    ensures { IfOk result (IsExtent ⟦<E as HasSet>⟧.set scene.now (Fx of index number) tick.0) }
{
    let comp = comp_at(scene, of);
    let layer = layer_at(scene, of, index as usize);
    let mut known = BTreeMap::new(alloc);
    layer_extent(
        alloc,
        scene,
        effects,
        of,
        comp,
        layer,
        number as usize + 1,
        tick,
        &mut known,
    )
}

// The extent of a layer's source, which is the same at each tick.
fn source_extent(scene: &Scene, layer: &Layer) -> Rect
    requires { IsLayerOf scene.now.project layer.now }
    ensures extent { (set : EffectSet) (t : ℤ) → IsSourceExtent set scene.now (plain_layer layer.now) t result }
    ensures boxed { IsBoxed 0 result }
{
    match layer.source {
        Item::Solid { width, height, .. } => frame_rect(width, height),
        Item::Clip(index) => {
            // The clip has the sides that are declared.
            let declared = clip_use_at(scene, index);
            let _clip = scene.clip(index);
            frame_rect(declared.width, declared.height)
        }
        Item::Comp(index) => {
            let comp = comp_at(scene, index);
            frame_rect(comp.width, comp.height)
        }
    }
}

// The extent that was found behind so many effects at a tick.
fn find_known(known: &KnownExtents, count: usize, tick: Tick) -> Option<Rect>
    ensures { result ≡ known_at known.now count tick.0 }
{
    match known.get(&(count, tick.0)) {
        Some(extent) => Some(*extent),
        None => None,
    }
}

// Keeps the extent behind so many effects at a tick.
fn keep_known(
    known: &mut KnownExtents,
    count: usize,
    tick: Tick,
    extent: Rect,
) -> Result<(), Memory>
    ensures { OnOk result (KeepsExtent count tick.0 extent known.old known.new) }
{
    known.insert((count, tick.0), extent)?;
    Ok(())
}

// The extent of a layer's plane at a tick, behind so many of its effects. What is known is not found again.
#[cycle(extent)]
fn layer_extent<E: Effect>(
    alloc: Global,
    scene: &Scene,
    effects: &E,
    of: u32,
    comp: &Comp,
    layer: &Layer,
    count: usize,
    tick: Tick,
    known: &mut KnownExtents,
) -> Result<Rect, Memory>
    requires uses { AreUses E.schemas scene.now.project }
    requires sound { IsCompOf scene.now.project comp.now }
    requires layer { IsLayerIn scene.now.project of comp.now layer.now }
    requires count { count ≤ length layer.now.effects }
    requires held { IsHeld (base_in (plain_of scene.now.project)) tick.0 }
    requires known { AreKnown ⟦<E as HasSet>⟧.set scene.now (plain_comp comp.now) (plain_layer layer.now) known.old }
    ensures extent { IfOk result (IsExtentBehind ⟦<E as HasSet>⟧.set scene.now (plain_comp comp.now) (plain_layer layer.now) count tick.0) }
    ensures known { OnOk result (AreKnown ⟦<E as HasSet>⟧.set scene.now (plain_comp comp.now) (plain_layer layer.now) known.new) }
{
    if count == 0 {
        return Ok(source_extent(scene, layer));
    }
    if let Some(extent) = find_known(known, count, tick) {
        return Ok(extent);
    }
    let number = count - 1;
    let extent = effect_extent(alloc, scene, effects, of, comp, layer, number, tick, known)?;
    keep_known(known, count, tick, extent)?;
    Ok(extent)
}

// The same, behind its effect of a number: the effect's bounds, by the extents of what it wants.
#[cycle(extent)]
fn effect_extent<E: Effect>(
    alloc: Global,
    scene: &Scene,
    effects: &E,
    of: u32,
    comp: &Comp,
    layer: &Layer,
    number: usize,
    tick: Tick,
    known: &mut KnownExtents,
) -> Result<Rect, Memory>
    requires uses { AreUses E.schemas scene.now.project }
    requires sound { IsCompOf scene.now.project comp.now }
    requires layer { IsLayerIn scene.now.project of comp.now layer.now }
    requires number { number < length layer.now.effects }
    requires held { IsHeld (base_in (plain_of scene.now.project)) tick.0 }
    requires known { AreKnown ⟦<E as HasSet>⟧.set scene.now (plain_comp comp.now) (plain_layer layer.now) known.old }
    ensures extent { IfOk result (IsExtentBehind ⟦<E as HasSet>⟧.set scene.now (plain_comp comp.now) (plain_layer layer.now) (number + 1) tick.0) }
    ensures known { OnOk result (AreKnown ⟦<E as HasSet>⟧.set scene.now (plain_comp comp.now) (plain_layer layer.now) known.new) }
{
    set_is_lawful::<E>();
    let fx = &layer.effects.as_slice()[number];
    let at = moment_of(base_of(scene), comp, tick);
    let wants = effects.list_wants(alloc, fx, at)?;
    let extents = extents_of_wants(
        alloc, scene, effects, of, comp, layer, number, fx, &wants, known,
    )?;
    bounds_of(alloc, effects, fx, at, &extents)
}

/// The extents of what the effect of a layer wants, in order, where it is the effect of this number. What is wanted twice is found
/// once.
pub fn wanted_extents<E: Effect>(
    alloc: Global,
    scene: &Scene,
    effects: &E,
    of: u32,
    comp: &Comp,
    layer: &Layer,
    number: usize,
    fx: &FxUse,
    wants: &[Want],
) -> Result<Vec<Rect>, Memory>
    requires uses { AreUses E.schemas scene.now.project }
    requires sound { IsCompOf scene.now.project comp.now }
    requires layer { IsLayerIn scene.now.project of comp.now layer.now }
    requires number { number < length layer.now.effects }
    requires layers { All (λ index. index < length comp.now.layers) fx.now.layers }
    requires wants { All (IsWant (length fx.now.layers) (base_in (plain_of scene.now.project))) wants.now }
    ensures { IfOk result (λ extents. AllZip
        (IsWantedExtent ⟦<E as HasSet>⟧.set scene.now (plain_comp comp.now) (plain_layer layer.now) number fx.now.layers) wants.now extents.items) }
{
    let mut known = BTreeMap::new(alloc);
    extents_of_wants(
        alloc, scene, effects, of, comp, layer, number, fx, wants, &mut known,
    )
}

// The same, where some extents are known.
#[cycle(extent)]
fn extents_of_wants<E: Effect>(
    alloc: Global,
    scene: &Scene,
    effects: &E,
    of: u32,
    comp: &Comp,
    layer: &Layer,
    number: usize,
    fx: &FxUse,
    wants: &[Want],
    known: &mut KnownExtents,
) -> Result<Vec<Rect>, Memory>
    requires uses { AreUses E.schemas scene.now.project }
    requires sound { IsCompOf scene.now.project comp.now }
    requires layer { IsLayerIn scene.now.project of comp.now layer.now }
    requires number { number < length layer.now.effects }
    requires layers { All (λ index. index < length comp.now.layers) fx.now.layers }
    requires wants { All (IsWant (length fx.now.layers) (base_in (plain_of scene.now.project))) wants.now }
    requires known { AreKnown ⟦<E as HasSet>⟧.set scene.now (plain_comp comp.now) (plain_layer layer.now) known.old }
    ensures extents { IfOk result (λ extents. AllZip
        (IsWantedExtent ⟦<E as HasSet>⟧.set scene.now (plain_comp comp.now) (plain_layer layer.now) number fx.now.layers) wants.now extents.items) }
    ensures known { OnOk result (AreKnown ⟦<E as HasSet>⟧.set scene.now (plain_comp comp.now) (plain_layer layer.now) known.new) }
{
    let mut extents = Vec::new(alloc);
    for place in 0..wants.len() {
        let want = wants[place];
        let extent = wanted_extent(
            alloc, scene, effects, of, comp, layer, number, fx, want, known,
        )?;
        extents.push(extent)?;
    }
    Ok(extents)
}

// The extent of what the effect of a number wants: of the layer behind the effects before it, or of the source of a layer that it names.
#[cycle(extent)]
fn wanted_extent<E: Effect>(
    alloc: Global,
    scene: &Scene,
    effects: &E,
    of: u32,
    comp: &Comp,
    layer: &Layer,
    number: usize,
    fx: &FxUse,
    want: Want,
    known: &mut KnownExtents,
) -> Result<Rect, Memory>
    requires uses { AreUses E.schemas scene.now.project }
    requires sound { IsCompOf scene.now.project comp.now }
    requires layer { IsLayerIn scene.now.project of comp.now layer.now }
    requires number { number < length layer.now.effects }
    requires layers { All (λ index. index < length comp.now.layers) fx.now.layers }
    requires want { IsWant (length fx.now.layers) (base_in (plain_of scene.now.project)) want }
    requires known { AreKnown ⟦<E as HasSet>⟧.set scene.now (plain_comp comp.now) (plain_layer layer.now) known.old }
    ensures extent { IfOk result (IsWantedExtent ⟦<E as HasSet>⟧.set scene.now (plain_comp comp.now) (plain_layer layer.now) number fx.now.layers want) }
    ensures known { OnOk result (AreKnown ⟦<E as HasSet>⟧.set scene.now (plain_comp comp.now) (plain_layer layer.now) known.new) }
{
    if want.input == 0 {
        let tick = want.tick;
        return layer_extent(alloc, scene, effects, of, comp, layer, number, tick, known);
    }
    let named = fx.layers.as_slice()[(want.input - 1) as usize];
    Ok(source_extent(scene, layer_at(scene, of, named as usize)))
}

// The bounds of an effect, by the extents of its wants.
fn bounds_of<E: Effect>(
    alloc: Global,
    effects: &E,
    fx: &FxUse,
    at: Moment,
    extents: &[Rect],
) -> Result<Rect, Memory>
    requires given { IsGiven E.schemas (use_of fx.now) at }
    requires based { IsBased fx.now at }
    requires extents { AreExtents (E.wants (use_of fx.now) at) extents.now }
    ensures { IfOk result (λ bounds. bounds ≡ E.bounds (use_of fx.now) at extents.now) }
{
    let nowhere = Rect {
        left: 0,
        top: 0,
        right: 0,
        bottom: 0,
    };
    let pre = effects.pre_render(alloc, fx, at, extents, nowhere)?;
    Ok(pre.max_result_rect)
}
