//! The broken rule with the least number, at its first place.

ghost use Rattle.std.specs.Prelude.{◌≡◌};
ghost use Rattle.project_model.specs.Broken.{first_broken};
ghost use Rattle.project_model.specs.Form.{IsFormed, IsFormedComp};
ghost use Rattle.project_model.specs.Known.{IsKnown};
ghost use Rattle.project_model.specs.Given.{breaks_given, place_given, breach_given};
ghost use Rattle.project_model.specs.Places.{first_from, first_in_comp};
ghost use Rattle.project_model.specs.Rules.{number_of, breaks_comp as breaks_comp_of, breaks_layer as breaks_layer_of};

use crate::breaks::{breaks_comp, breaks_layer};
use crate::clip_rules::break_clips;
use crate::graph::Nesting;
use crate::{Breach, EffectSchema, Place, PlainComp, PlainProject, RULES, Rule};

/// The first broken rule, where it is known whether rule 25 is kept.
pub fn first_breach(
    schemas: &[EffectSchema],
    project: &PlainProject,
    is_based: bool,
    nesting: &Nesting,
) -> Option<Breach>
    requires formed { IsFormed project.now }
    requires known { IsKnown project.now nesting.now.loops.items nesting.now.ranks.items }
    ensures { result ≡ breach_given schemas.now project.now is_based }
{
    first_among(schemas, project, is_based, nesting, &RULES)
}

// The first of these rules that is broken.
fn first_among(
    schemas: &[EffectSchema],
    project: &PlainProject,
    is_based: bool,
    nesting: &Nesting,
    rules: &[Rule],
) -> Option<Breach>
    requires formed { IsFormed project.now }
    requires known { IsKnown project.now nesting.now.loops.items nesting.now.ranks.items }
    ensures { result ≡ first_broken number_of (place_given schemas.now project.now is_based) rules.now }
{
    for rule in rules {
        if let Some(place) = first_place(schemas, project, *rule, is_based, nesting) {
            return Some(Breach {
                number: rule.number(),
                place,
            });
        }
    }
    None
}

// The first place where the rule is broken.
fn first_place(
    schemas: &[EffectSchema],
    project: &PlainProject,
    rule: Rule,
    is_based: bool,
    nesting: &Nesting,
) -> Option<Place>
    requires formed { IsFormed project.now }
    requires known { IsKnown project.now nesting.now.loops.items nesting.now.ranks.items }
    ensures { result ≡ place_given schemas.now project.now is_based rule }
{
    if breaks_project(project, rule, is_based) {
        return Some(Place::Project);
    }
    for (index, comp) in project.comps.as_slice().iter().enumerate() {
        let place = place_in_comp(schemas, project, nesting, rule, index as u32, comp);
        if place.is_some() {
            return place;
        }
    }
    None
}

// Whether the rule is broken outside the compositions.
fn breaks_project(project: &PlainProject, rule: Rule, is_based: bool) -> bool
    requires { IsFormed project.now }
    ensures { result ≡ breaks_given project.now is_based rule }
{
    match rule {
        Rule::Root => project.root as usize >= project.comps.as_slice().len(),
        Rule::Base => !is_based,
        _ => break_clips(project.clips.as_slice(), rule),
    }
}

// The first place in the composition, which has this index.
fn place_in_comp(
    schemas: &[EffectSchema],
    project: &PlainProject,
    nesting: &Nesting,
    rule: Rule,
    index: u32,
    comp: &PlainComp,
) -> Option<Place>
    requires formed { IsFormed project.now }
    requires known { IsKnown project.now nesting.now.loops.items nesting.now.ranks.items }
    requires formed_comp { IsFormedComp comp.now }
    ensures { result
        ≡ first_in_comp (λ c. c.layers) (breaks_comp_of project.now rule) (breaks_layer_of schemas.now project.now rule) index comp.now }
{
    if breaks_comp(project, nesting, rule, index as usize, comp) {
        return Some(Place::Comp(index));
    }
    match first_layer(schemas, project, nesting, rule, comp) {
        Some(layer) => Some(Place::Layer(index, layer)),
        None => None,
    }
}

// The index of the first layer in which it is broken.
fn first_layer(
    schemas: &[EffectSchema],
    project: &PlainProject,
    nesting: &Nesting,
    rule: Rule,
    comp: &PlainComp,
) -> Option<u32>
    requires formed { IsFormed project.now }
    requires known { IsKnown project.now nesting.now.loops.items nesting.now.ranks.items }
    requires formed_comp { IsFormedComp comp.now }
    ensures { result ≡ first_from (breaks_layer_of schemas.now project.now rule comp.now) 0 comp.now.layers }
{
    for (index, layer) in comp.layers.as_slice().iter().enumerate() {
        if breaks_layer(schemas, project, nesting, rule, comp, index, layer) {
            return Some(index as u32);
        }
    }
    None
}
