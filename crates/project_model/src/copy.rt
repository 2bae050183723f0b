//! What a project says, in plain parts.

ghost use Rattle.std.specs.Prelude.{◌≡◌, ◌≤◌, length, map, IfOk};
ghost use Rattle.std.specs.List.{All};
ghost use Rattle.project_model.specs.Bounds.{most_keys};
ghost use Rattle.project_model.specs.Form.{IsKeyCount, IsFormed, IsFormedComp, IsFormedLayer, IsFormedFx};
ghost use Rattle.project_model.specs.Plain.{plain_fx, plain_layer, plain_comp, plain_of};
ghost use Rattle.project_model.specs.Times.{key_times, fx_times, layer_times, comp_times};

use crate::{
    ClipUse, Collection, Comp, FxUse, Layer, PlainComp, PlainFx, PlainLayer, PlainProject, Project,
};
use host_io::Memory;
use param_stream::{Keyframe, Stream};
use std::alloc::Global;

/// The plain parts of the project.
pub fn plain_of(alloc: Global, project: &Project) -> Result<PlainProject, Memory>
    ensures plain { IfOk result (λ plain. plain ≡ plain_of project.now) }
    ensures formed { IfOk result IsFormed }
{
    let clips = copied_clips(alloc, project.clips.as_slice())?;
    let comps = plain_comps(alloc, project.comps.as_slice())?;
    Ok(PlainProject {
        depth: u32::from(project.depth),
        root: project.root,
        clips: Collection::from_vec(clips),
        comps: Collection::from_vec(comps),
    })
}

// The same clips.
fn copied_clips(alloc: Global, clips: &[ClipUse]) -> Result<Vec<ClipUse>, Memory>
    ensures { IfOk result (λ copies. copies.items ≡ clips.now) }
{
    let mut copies = Vec::new(alloc);
    for clip in clips {
        copies.push(clip.try_clone(alloc)?)?;
    }
    Ok(copies)
}

// The plain parts of the compositions.
fn plain_comps(alloc: Global, comps: &[Comp]) -> Result<Vec<PlainComp>, Memory>
    ensures plain { IfOk result (λ plain. plain.items ≡ map plain_comp comps.now) }
    ensures formed { IfOk result (λ plain. All IsFormedComp plain.items) }
    ensures scaled { IfOk result (λ plain. All (λ comp. All (λ time. 1 ≤ time.scale) (comp_times comp)) plain.items) }
{
    let mut plain = Vec::new(alloc);
    for comp in comps {
        plain.push(plain_comp(alloc, comp)?)?;
    }
    Ok(plain)
}

// Those of the composition.
fn plain_comp(alloc: Global, comp: &Comp) -> Result<PlainComp, Memory>
    ensures plain { IfOk result (λ plain. plain ≡ plain_comp comp.now) }
    ensures formed { IfOk result IsFormedComp }
    ensures scaled { IfOk result (λ plain. All (λ time. 1 ≤ time.scale) (comp_times plain)) }
{
    let mut layers = Vec::new(alloc);
    for layer in comp.layers.as_slice() {
        layers.push(plain_layer(alloc, layer)?)?;
    }
    Ok(PlainComp {
        width: comp.width,
        height: comp.height,
        frame: comp.frame,
        frames: comp.frames,
        layers: Collection::from_vec(layers),
    })
}

// Those of the layer.
fn plain_layer(alloc: Global, layer: &Layer) -> Result<PlainLayer, Memory>
    ensures plain { IfOk result (λ plain. plain ≡ plain_layer layer.now) }
    ensures formed { IfOk result IsFormedLayer }
    ensures scaled { IfOk result (λ plain. All (λ time. 1 ≤ time.scale) (layer_times plain)) }
{
    Ok(PlainLayer {
        source: layer.source,
        start: layer.start,
        in_point: layer.in_point,
        out_point: layer.out_point,
        mode: Some(layer.mode),
        matte: Some(layer.matte),
        opacity: plain_keys(alloc, &layer.opacity)?,
        x: plain_keys(alloc, &layer.x)?,
        y: plain_keys(alloc, &layer.y)?,
        effects: plain_effects(alloc, layer.effects.as_slice())?,
    })
}

// Those of the effects.
fn plain_effects(alloc: Global, effects: &[FxUse]) -> Result<Collection<PlainFx>, Memory>
    requires { All (λ fx. All (λ curve. length curve.keys ≤ most_keys) fx.params) effects.now }
    ensures plain { IfOk result (λ plain. plain ≡ map plain_fx effects.now) }
    ensures formed { IfOk result (All IsFormedFx) }
    ensures scaled { IfOk result (All (λ fx. All (λ time. 1 ≤ time.scale) (fx_times fx))) }
{
    let mut plain = Vec::new(alloc);
    for fx in effects {
        plain.push(plain_fx(alloc, fx)?)?;
    }
    Ok(Collection::from_vec(plain))
}

// Those of the effect.
fn plain_fx(alloc: Global, fx: &FxUse) -> Result<PlainFx, Memory>
    requires { All (λ curve. length curve.keys ≤ most_keys) fx.now.params }
    ensures plain { IfOk result (λ plain. plain ≡ plain_fx fx.now) }
    ensures formed { IfOk result IsFormedFx }
    ensures scaled { IfOk result (λ plain. All (λ time. 1 ≤ time.scale) (fx_times plain)) }
{
    let params = plain_params(alloc, fx.params.as_slice())?;
    let layers = fx.layers.as_slice().to_vec(alloc)?;
    let sequence = fx.sequence.as_slice().to_vec(alloc)?;
    Ok(PlainFx {
        kind: fx.kind,
        params: Collection::from_vec(params),
        layers: Collection::from_vec(layers),
        sequence: Some(Collection::from_vec(sequence)),
    })
}

// The keyframes of the streams.
fn plain_params(alloc: Global, params: &[Stream]) -> Result<Vec<Collection<Keyframe>>, Memory>
    requires { All (λ curve. length curve.keys ≤ most_keys) params.now }
    ensures plain { IfOk result (λ plain. plain.items ≡ map (λ curve. curve.keys) params.now) }
    ensures formed { IfOk result (λ plain. All IsKeyCount plain.items) }
    ensures scaled { IfOk result (λ plain. All (λ keys. All (λ time. 1 ≤ time.scale) (key_times keys)) plain.items) }
{
    let mut plain = Vec::new(alloc);
    for stream in params {
        plain.push(plain_keys(alloc, stream)?)?;
    }
    Ok(plain)
}

// The keyframes of the stream.
fn plain_keys(alloc: Global, stream: &Stream) -> Result<Collection<Keyframe>, Memory>
    ensures plain { IfOk result (λ keys. keys ≡ stream.now.keys) }
    ensures some { IfOk result (λ keys. 1 ≤ length keys) }
    ensures scaled { IfOk result (All (λ key. 1 ≤ key.time.scale)) }
{
    let keys = stream.keys().to_vec(alloc)?;
    Ok(Collection::from_vec(keys))
}
