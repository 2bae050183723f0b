ghost use Rattle.std.specs.Prelude.{◌≡◌, ◌≤◌, ◌&&◌, nat_le, None, IfOk, IfErr};
ghost use Rattle.std.specs.List.{All, list_all};
ghost use Rattle.rational_time.specs.Times.{common_base};
ghost use Rattle.project_model.specs.Bounds.{greatest_base};
ghost use Rattle.project_model.specs.Effects.{AreSchemas};
ghost use Rattle.project_model.specs.Sound.{IsSound};
ghost use Rattle.project_model.specs.Uses.{AreUses};
ghost use Rattle.project_model.specs.Plain.{plain_of};
ghost use Rattle.project_model.specs.Nesting.{ranks_of};
ghost use Rattle.project_model.specs.Checked.{breach_in, is_based_on, layer_is_based, fx_is_based, comp_of, layer_of, error_of, Refuses};

use crate::copy::plain_of;
use crate::graph::nesting_of;
use crate::ranks::ranks_of;
use crate::search::first_breach;
use crate::times::times_of;
use crate::{Breach, Comp, EffectSchema, FxUse, Layer, Place, Project, Ranks};
use rational_time::{Time, TimeBase, common_base};
use std::alloc::Global;
use thiserror::Error;

/// Why a project does not pass.
#[derive(Clone, Copy, Debug, Drop, PartialEq, Eq, Error)]
pub enum CheckError {
    /// The broken rule with the least number, at its first place: a composition's index, and a layer's in it.
    #[error("project rule {rule}")]
    RuleBroken {
        rule: u8,
        comp: Option<u32>,
        layer: Option<u32>,
    },
    #[error("out of memory")]
    Memory,
}

// The answer to a breach.
pub fn error_of(breach: Breach) -> CheckError
    ensures { result ≡ error_of breach }
{
    let (comp, layer) = match breach.place {
        Place::Project => (None, None),
        Place::Comp(comp) => (Some(comp), None),
        Place::Layer(comp, layer) => (Some(comp), Some(layer)),
    };
    CheckError::RuleBroken {
        rule: breach.number,
        comp,
        layer,
    }
}

/// The ranks of the project's nodes, where it keeps the rules from 16 on (see [`crate::Rule`]) and its effects are those of a set with
/// these schemas. Rule 25 asks here that `base` is the least common multiple of all scales, and that each stream was made with it.
pub fn check(
    alloc: Global,
    project: &Project,
    schemas: &[EffectSchema],
) -> Result<Ranks, CheckError>
    requires { AreSchemas schemas.now }
    ensures passed { IfOk result (λ _. breach_in schemas.now project.now ≡ None) }
    ensures sound { IfOk result (λ _. IsSound project.now) }
    ensures fits { IfOk result (λ _. AreUses schemas.now project.now) }
    ensures ranked { IfOk result (λ ranks. ranks ≡ ranks_of (plain_of project.now)) }
    ensures refused { IfErr result (λ e. Refuses e (breach_in schemas.now project.now)) }
{
    let Ok(plain) = plain_of(alloc, project) else {
        return Err(CheckError::Memory);
    };
    let Ok(times) = times_of(alloc, &plain) else {
        return Err(CheckError::Memory);
    };
    let Ok(nesting) = nesting_of(alloc, &plain) else {
        return Err(CheckError::Memory);
    };
    let is_based = keeps_base(&times, project);
    if let Some(breach) = first_breach(schemas, &plain, is_based, &nesting) {
        return Err(error_of(breach));
    }
    let Ok(ranks) = ranks_of(alloc, &plain, nesting.ranks) else {
        return Err(CheckError::Memory);
    };
    Ok(ranks)
}

// Whether the project's base is the least common multiple of the scales, which is small enough, and each of its
// streams was made with it.
fn keeps_base(times: &[Time], project: &Project) -> bool
    requires { All (λ time. 1 ≤ time.scale) times.now }
    ensures { result ≡ (nat_le (common_base times.now) greatest_base && is_based_on (common_base times.now) project.now) }
{
    match common_base(times) {
        Some(base) => project.base.ticks == base.ticks && all_made_with(project.base, project),
        None => false,
    }
}

// Whether each stream was made with the base.
fn all_made_with(base: TimeBase, project: &Project) -> bool
    ensures { result ≡ list_all (λ comp. list_all (layer_is_based base.ticks) comp.layers) project.now.comps }
{
    let comps = project.comps.as_slice();
    comps.iter().all(|comp| comp_made_with(base, comp))
}

// Whether each stream of the composition was.
fn comp_made_with(base: TimeBase, comp: &Comp) -> bool
    ensures { result ≡ list_all (layer_is_based base.ticks) comp.now.layers }
{
    let layers = comp.layers.as_slice();
    layers.iter().all(|layer| layer_made_with(base, layer))
}

// Whether those of the layer were.
fn layer_made_with(base: TimeBase, layer: &Layer) -> bool
    ensures { result ≡ layer_is_based base.ticks layer.now }
{
    layer.opacity.base().ticks == base.ticks
        && layer.x.base().ticks == base.ticks
        && layer.y.base().ticks == base.ticks
        && effects_made_with(base, layer.effects.as_slice())
}

// Whether those of the effects were.
fn effects_made_with(base: TimeBase, effects: &[FxUse]) -> bool
    ensures { result ≡ list_all (fx_is_based base.ticks) effects.now }
{
    effects.iter().all(|fx| fx_made_with(base, fx))
}

// Whether those of the effect were.
fn fx_made_with(base: TimeBase, fx: &FxUse) -> bool
    ensures { result ≡ fx_is_based base.ticks fx.now }
{
    let params = fx.params.as_slice();
    params
        .iter()
        .all(|stream| stream.base().ticks == base.ticks)
}
