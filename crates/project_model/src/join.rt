//! A project's parts, of plain parts that keep the rules.

ghost use Rattle.std.specs.Prelude.{◌≡◌, ◌≤◌, map, pos, IfOk};
ghost use Rattle.std.specs.List.{All};
ghost use Rattle.param_stream.specs.Curve.{IsBound};
ghost use Rattle.project_model.specs.Effects.{AreSchemas, IsParam};
ghost use Rattle.project_model.specs.Form.{IsFormed};
ghost use Rattle.project_model.specs.Plain.{plain_fx, plain_layer, plain_comp, plain_of};
ghost use Rattle.project_model.specs.Ready.{AreReady, AreReadyParams, IsReadyFx, IsReadyLayer, IsReadyComp, IsBasedFx, IsBasedLayer, IsBasedComp};

use crate::bounds::{FULL_OPACITY, GREATEST_POSITION, LEAST_POSITION};
use crate::{
    Collection, Comp, EffectSchema, FxUse, Layer, ParamSchema, PlainComp, PlainFx, PlainLayer,
    PlainProject, Project,
};
use host_io::Memory;
use param_stream::{Keyframe, Stream, StreamError};
use rational_time::TimeBase;
use std::alloc::Global;

/// The project of these parts, with this base.
pub fn project_of(
    alloc: Global,
    base: TimeBase,
    plain: PlainProject,
    schemas: &[EffectSchema],
) -> Result<Project, Memory>
    requires formed { IsFormed plain }
    requires schemas { AreSchemas schemas.now }
    requires ready { All (IsReadyComp schemas.now base.ticks) plain.comps }
    ensures plain { IfOk result (λ p. plain_of p ≡ plain) }
    ensures base { IfOk result (λ p. p.base ≡ base) }
    ensures based { IfOk result (λ p. All (IsBasedComp base.ticks) p.comps) }
{
    let PlainProject {
        depth,
        root,
        clips,
        comps,
    } = plain;
    let comps = comps_of(alloc, base, comps, schemas)?;
    Ok(Project {
        depth: depth as u8,
        root,
        base,
        clips,
        comps,
    })
}

// The compositions of these parts.
fn comps_of(
    alloc: Global,
    base: TimeBase,
    plain: Collection<PlainComp>,
    schemas: &[EffectSchema],
) -> Result<Collection<Comp>, Memory>
    requires schemas { AreSchemas schemas.now }
    requires ready { All (IsReadyComp schemas.now base.ticks) plain }
    ensures plain { IfOk result (λ comps. map plain_comp comps ≡ plain) }
    ensures based { IfOk result (All (IsBasedComp base.ticks)) }
{
    let mut comps = Vec::new(alloc);
    for comp in plain.into_vec() {
        comps.push(comp_of(alloc, base, comp, schemas)?)?;
    }
    Ok(Collection::from_vec(comps))
}

// The composition of these parts.
fn comp_of(
    alloc: Global,
    base: TimeBase,
    plain: PlainComp,
    schemas: &[EffectSchema],
) -> Result<Comp, Memory>
    requires schemas { AreSchemas schemas.now }
    requires ready { IsReadyComp schemas.now base.ticks plain }
    ensures plain { IfOk result (λ comp. plain_comp comp ≡ plain) }
    ensures based { IfOk result (IsBasedComp base.ticks) }
{
    let PlainComp {
        width,
        height,
        frame,
        frames,
        layers,
    } = plain;
    let layers = layers_of(alloc, base, layers, schemas)?;
    Ok(Comp {
        width,
        height,
        frame,
        frames,
        layers,
    })
}

// The layers of these parts.
fn layers_of(
    alloc: Global,
    base: TimeBase,
    plain: Collection<PlainLayer>,
    schemas: &[EffectSchema],
) -> Result<Collection<Layer>, Memory>
    requires schemas { AreSchemas schemas.now }
    requires ready { All (IsReadyLayer schemas.now base.ticks) plain }
    ensures plain { IfOk result (λ layers. map plain_layer layers ≡ plain) }
    ensures based { IfOk result (All (IsBasedLayer base.ticks)) }
{
    let mut layers = Vec::new(alloc);
    for layer in plain.into_vec() {
        layers.push(layer_of(alloc, base, layer, schemas)?)?;
    }
    Ok(Collection::from_vec(layers))
}

// The layer of these parts.
fn layer_of(
    alloc: Global,
    base: TimeBase,
    plain: PlainLayer,
    schemas: &[EffectSchema],
) -> Result<Layer, Memory>
    requires schemas { AreSchemas schemas.now }
    requires ready { IsReadyLayer schemas.now base.ticks plain }
    ensures plain { IfOk result (λ layer. plain_layer layer ≡ plain) }
    ensures based { IfOk result (IsBasedLayer base.ticks) }
{
    let PlainLayer {
        source,
        start,
        in_point,
        out_point,
        mode,
        matte,
        opacity,
        x,
        y,
        effects,
    } = plain;
    let opacity = stream_of(alloc, base, opacity, 0, FULL_OPACITY)?;
    let x = stream_of(alloc, base, x, LEAST_POSITION, GREATEST_POSITION)?;
    let y = stream_of(alloc, base, y, LEAST_POSITION, GREATEST_POSITION)?;
    let effects = effects_of(alloc, base, effects, schemas)?;
    Ok(Layer {
        source,
        start,
        in_point,
        out_point,
        mode: mode.unwrap(),
        matte: matte.unwrap(),
        opacity,
        x,
        y,
        effects,
    })
}

// The effects of these parts.
fn effects_of(
    alloc: Global,
    base: TimeBase,
    plain: Collection<PlainFx>,
    schemas: &[EffectSchema],
) -> Result<Collection<FxUse>, Memory>
    requires schemas { AreSchemas schemas.now }
    requires ready { All (IsReadyFx schemas.now base.ticks) plain }
    ensures plain { IfOk result (λ effects. map plain_fx effects ≡ plain) }
    ensures based { IfOk result (All (IsBasedFx base.ticks)) }
{
    let mut effects = Vec::new(alloc);
    for fx in plain.into_vec() {
        effects.push(fx_of(alloc, base, fx, schemas)?)?;
    }
    Ok(Collection::from_vec(effects))
}

// The effect of these parts.
fn fx_of(
    alloc: Global,
    base: TimeBase,
    plain: PlainFx,
    schemas: &[EffectSchema],
) -> Result<FxUse, Memory>
    requires schemas { AreSchemas schemas.now }
    requires ready { IsReadyFx schemas.now base.ticks plain }
    ensures plain { IfOk result (λ fx. plain_fx fx ≡ plain) }
    ensures based { IfOk result (IsBasedFx base.ticks) }
{
    let PlainFx {
        kind,
        params,
        layers,
        sequence,
    } = plain;
    let schema = &schemas[usize::from(kind)];
    let params = params_of(alloc, base, params, schema.params.as_slice())?;
    Ok(FxUse {
        kind,
        params,
        layers,
        sequence: sequence.unwrap(),
    })
}

// The streams of these parameters.
fn params_of(
    alloc: Global,
    base: TimeBase,
    plain: Collection<Collection<Keyframe>>,
    params: &[ParamSchema],
) -> Result<Collection<Stream>, Memory>
    requires params { All IsParam params.now }
    requires ready { AreReadyParams base.ticks params.now plain }
    ensures plain { IfOk result (λ streams. map (λ curve. curve.keys) streams ≡ plain) }
    ensures based { IfOk result (All (λ curve. curve.base ≡ base.ticks)) }
{
    let mut streams = Vec::new(alloc);
    for keys in plain.into_vec() {
        let param = &params[streams.len()];
        streams.push(param_stream(alloc, base, keys, param)?)?;
    }
    Ok(Collection::from_vec(streams))
}

// The stream of a parameter.
fn param_stream(
    alloc: Global,
    base: TimeBase,
    keys: Collection<Keyframe>,
    param: &ParamSchema,
) -> Result<Stream, Memory>
    requires param { IsParam param.now }
    requires ready { AreReady base.ticks param.now.least param.now.most keys }
    ensures keys { IfOk result (λ s. s.keys ≡ keys) }
    ensures base { IfOk result (λ s. s.base ≡ base.ticks) }
{
    stream_of(alloc, base, keys, param.least, param.most)
}

// The stream of these keyframes, which are moved into it.
fn stream_of(
    alloc: Global,
    base: TimeBase,
    keys: Collection<Keyframe>,
    least: i64,
    most: i64,
) -> Result<Stream, Memory>
    requires ready { AreReady base.ticks least most keys }
    requires least { IsBound least }
    requires most { IsBound most }
    ensures { IfOk result (λ s. s ≡ record { base = base.ticks; keys = keys; least = least; most = most }) }
{
    match Stream::new(alloc, base, keys.into_vec(), least, most) {
        Ok(stream) => Ok(stream),
        Err(refusal) => match refusal {
            StreamError::Memory => Err(Memory),
            _ => unreachable!(),
        },
    }
}
