ghost use Rattle.std.specs.Prelude.{◌≡◌, ◌≤◌, length, map, codes, IsTrue, IfSome, All};
ghost use Rattle.serde_json.specs.View.{view};
ghost use Rattle.project_model.specs.Bounds.{most_comps, most_layers};
ghost use Rattle.project_model.specs.Broken.{first_broken};
ghost use Rattle.project_model.specs.Places.{first_from, first_in_comps};
ghost use Rattle.project_json.specs.Counts.{is_in_comps, is_in_layers, HasFewLayers, IsIndexed};
ghost use Rattle.project_json.specs.PlainData.{items_of};
ghost use Rattle.project_json.specs.FormRules.{number_of, breaks_comp, breaks_layer, place_of, breach_at, form_breach};
ghost use Rattle.project_json.specs.Reading.{error_of, verdict};

use crate::ProjectError;
use crate::form::FormRule;
use crate::parts::items_of;
use project_model::{EffectSchema, Place};
use serde_json::Value;

impl FormRule {
    /// The first layer that breaks it.
    fn first_layer(self, layers: &[Value], schemas: &[EffectSchema]) -> Option<u32>
        requires { IsTrue (is_in_layers self) → length layers.now ≤ most_layers }
        ensures first { result ≡ first_from (λ _ layer. breaks_layer schemas.now self layer) 0 (map view layers.now) }
        ensures looked { IfSome result (λ _. IsTrue (is_in_layers self)) }
    {
        for (i, layer) in layers.iter().enumerate() {
            if self.is_broken_in_layer(layer, schemas) {
                return Some(i as u32);
            }
        }
        None
    }

    /// The first place in the compositions where it is broken.
    fn first_in_comps(self, comps: &[Value], schemas: &[EffectSchema]) -> Option<Place>
        requires few_comps { IsTrue (is_in_comps self) → length comps.now ≤ most_comps }
        requires few_layers { All (λ comp. HasFewLayers self (view comp)) comps.now }
        ensures { result
            ≡ first_in_comps (items_of (codes "layers")) (λ _ comp. breaks_comp self comp)
            (λ _ _ layer. breaks_layer schemas.now self layer) 0 (map view comps.now) }
    {
        for (i, comp) in comps.iter().enumerate() {
            if self.is_broken_in_comp(comp) {
                return Some(Place::Comp(i as u32));
            }
            if let Some(layer) = self.first_layer(items_of(comp, "layers"), schemas) {
                return Some(Place::Layer(i as u32, layer));
            }
        }
        None
    }

    /// The first place where it is broken.
    fn place(self, top: &Value, schemas: &[EffectSchema]) -> Option<Place>
        requires { IsIndexed self (view top.now) }
        ensures { result ≡ place_of schemas.now (view top.now) self }
    {
        if self.is_broken_in_project(top) {
            Some(Place::Project)
        } else {
            self.first_in_comps(items_of(top, "comps"), schemas)
        }
    }

    fn error_at(self, place: Place) -> ProjectError
        ensures { result ≡ error_of record { number = number_of self; place = place } }
    {
        let number = self.number();
        let (comp, layer) = match place {
            Place::Project => (None, None),
            Place::Comp(comp) => (Some(comp), None),
            Place::Layer(comp, layer) => (Some(comp), Some(layer)),
        };
        ProjectError::Rule {
            number,
            comp,
            layer,
        }
    }

    fn check(self, top: &Value, schemas: &[EffectSchema]) -> Result<(), ProjectError>
        requires { IsIndexed self (view top.now) }
        ensures { result ≡ verdict (breach_at schemas.now (view top.now) self) }
    {
        match self.place(top, schemas) {
            Some(place) => Err(self.error_at(place)),
            None => Ok(()),
        }
    }
}

/// These rules, in this order.
fn check_each(rules: &[FormRule], top: &Value, schemas: &[EffectSchema]) -> Result<(), ProjectError>
    requires { All (λ rule. IsIndexed rule (view top.now)) rules.now }
    ensures { result ≡ verdict (first_broken number_of (place_of schemas.now (view top.now)) rules.now) }
{
    for rule in rules {
        rule.check(top, schemas)?;
    }
    Ok(())
}

/// The rules on a project's form, in the order of their numbers. Those from `Layers` on look into compositions that `Comps`
/// has counted, and those after it into layers that it has counted.
pub(crate) fn check_form(top: &Value, schemas: &[EffectSchema]) -> Result<(), ProjectError>
    ensures { result ≡ verdict (form_breach schemas.now (view top.now)) }
{
    let counted = [
        FormRule::Whole,
        FormRule::Names,
        FormRule::Version,
        FormRule::Depth,
        FormRule::Clips,
        FormRule::Comps,
    ];
    let later = [
        FormRule::LayerCount,
        FormRule::Source,
        FormRule::Effects,
        FormRule::EffectName,
        FormRule::Threaded,
        FormRule::EffectCounts,
        FormRule::Streams,
        FormRule::Times,
    ];
    check_each(&counted, top, schemas)?;
    check_each(&[FormRule::Layers], top, schemas)?;
    check_each(&later, top, schemas)
}
