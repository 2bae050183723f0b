ghost use Rattle.std.specs.Prelude.{◌≡◌, ◌==◌, length, map, codes, option_map};
ghost use Rattle.std.specs.List.{list_all};
ghost use Rattle.serde_json.specs.Find.{get};
ghost use Rattle.serde_json.specs.View.{view};
ghost use Rattle.project_model.specs.Effects.{schema_of};
ghost use Rattle.project_json.specs.Parts.{is_array, is_number, where_there};
ghost use Rattle.project_json.specs.PlainData.{items_of, fx_kind_of};
ghost use Rattle.project_json.specs.EffectForm.{is_effect, are_effects, has_known_kind, is_threaded, are_numbers, counts_as, has_counts, has_streams, has_key_times};

use crate::parts::{has_each, has_only, is_list_of_objects, items_in, items_of};
use crate::reads::fx_kind_of;
use crate::shapes::{are_streams, streams_have_times};
use project_model::EffectSchema;
use serde_json::Value;

/// The most effects of a layer.
const MOST_EFFECTS: usize = project_model::MOST_EFFECTS as usize;

/// An object with `effect`, and no names but those of an effect.
fn is_effect(value: &Value) -> bool
    ensures { result ≡ is_effect (view value.now) }
{
    let names = ["effect", "params", "layers", "sequence"];
    has_each(value, &["effect"]) && has_only(value, &names)
}

fn each_is_effect(items: &[Value]) -> bool
    ensures { result ≡ list_all (λ item. is_effect (view item)) items.now }
{
    items.iter().all(|item| is_effect(item))
}

/// An array of at most 8 effects.
fn are_effects(value: &Value) -> bool
    ensures { result ≡ are_effects (view value.now) }
{
    is_list_of_objects(value, 0, MOST_EFFECTS) && each_is_effect(items_in(value))
}

/// `effects`, where it is there, is an array of at most 8 effects.
pub(crate) fn may_have_effects(layer: &Value) -> bool
    ensures { result ≡ where_there are_effects (get (codes "effects") (view layer.now)) }
{
    match layer.get("effects") {
        Some(effects) => are_effects(effects),
        None => true,
    }
}

/// It names an effect of the set.
pub(crate) fn has_known_kind(fx: &Value, schemas: &[EffectSchema]) -> bool
    ensures { result ≡ has_known_kind schemas.now (view fx.now) }
{
    fx_kind_of(fx, schemas).is_some()
}

/// The schema of its kind, where the set has it.
fn schema_in<'s>(fx: &Value, schemas: &'s [EffectSchema]) -> Option<&'s EffectSchema>
    ensures { option_map (λ schema. schema.now) result ≡ option_map (schema_of schemas.now) (fx_kind_of schemas.now (view fx.now)) }
{
    match fx_kind_of(fx, schemas) {
        Some(kind) => Some(&schemas[kind]),
        None => None,
    }
}

/// It may be drawn by several threads.
pub(crate) fn is_threaded(fx: &Value, schemas: &[EffectSchema]) -> bool
    ensures { result ≡ is_threaded schemas.now (view fx.now) }
{
    match schema_in(fx, schemas) {
        Some(schema) => schema.threaded,
        None => true,
    }
}

/// The member of that name is an array, where it is there.
fn may_be_array(fx: &Value, name: &str) -> bool
    ensures { result ≡ where_there is_array (get name.now (view fx.now)) }
{
    match fx.get(name) {
        Some(list) => list.is_array(),
        None => true,
    }
}

fn each_is_number(items: &[Value]) -> bool
    ensures { result ≡ list_all (λ item. is_number (view item)) items.now }
{
    items.iter().all(|item| item.is_number())
}

fn are_numbers(value: &Value) -> bool
    ensures { result ≡ are_numbers (view value.now) }
{
    value.is_array() && each_is_number(items_in(value))
}

/// The member of that name is an array of numbers, where it is there.
fn may_be_numbers(fx: &Value, name: &str) -> bool
    ensures { result ≡ where_there are_numbers (get name.now (view fx.now)) }
{
    match fx.get(name) {
        Some(list) => are_numbers(list),
        None => true,
    }
}

/// The array in the member of that name has so many items.
fn has_items(fx: &Value, name: &str, count: usize) -> bool
    ensures { result ≡ (length (items_of name.now (view fx.now)) == count) }
{
    items_of(fx, name).len() == count
}

/// It has as many parameters and layers as the schema.
fn counts_as(schema: &EffectSchema, fx: &Value) -> bool
    ensures { result ≡ counts_as schema.now (view fx.now) }
{
    may_be_array(fx, "params")
        && has_items(fx, "params", schema.params.as_slice().len())
        && may_be_numbers(fx, "layers")
        && has_items(fx, "layers", schema.layers as usize)
}

/// It has as many parameters and layers as its kind.
pub(crate) fn has_counts(fx: &Value, schemas: &[EffectSchema]) -> bool
    ensures { result ≡ has_counts schemas.now (view fx.now) }
{
    match schema_in(fx, schemas) {
        Some(schema) => counts_as(schema, fx),
        None => true,
    }
}

/// Each of its parameters is a stream.
pub(crate) fn has_streams(fx: &Value) -> bool
    ensures { result ≡ has_streams (view fx.now) }
{
    are_streams(items_of(fx, "params"))
}

/// The keyframes of its parameters have times.
pub(crate) fn has_key_times(fx: &Value) -> bool
    ensures { result ≡ has_key_times (view fx.now) }
{
    streams_have_times(items_of(fx, "params"))
}
