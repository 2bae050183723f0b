ghost use Rattle.std.specs.Prelude.{◌≡◌, ◌&&◌, length, map, codes, option_map, option_and_then, is_some, string_bytes};
ghost use Rattle.std.specs.List.{list_any, list_all};
ghost use Rattle.std.specs.BTreeMap.{keys};
ghost use Rattle.std.specs.Str.{bytes_eq};
ghost use Rattle.serde_json.specs.Find.{get, as_object};
ghost use Rattle.serde_json.specs.View.{view};
ghost use Rattle.project_model.specs.Bounds.{is_among};
ghost use Rattle.project_json.specs.Parts.{items_in, names_in, texts_of, has_only, has_each, has_exactly, is_the_number, is_list_of_objects, byte_in, count_in, whole_in};
ghost use Rattle.project_json.specs.FormRules.{is_not_whole};
ghost use Rattle.project_json.specs.PlainData.{items_of};

use serde_json::{Map, Value};

/// The items of an array; any other value has none.
pub(crate) fn items_in(value: &Value) -> &[Value]
    ensures { map view result.now ≡ items_in (view value.now) }
{
    match value.as_array() {
        Some(items) => items.as_slice(),
        None => &[],
    }
}

/// The items of the array in the member of that name.
pub(crate) fn items_of<'v>(value: &'v Value, name: &str) -> &'v [Value]
    ensures { map view result.now ≡ items_of name.now (view value.now) }
{
    match value.get(name) {
        Some(list) => items_in(list),
        None => &[],
    }
}

fn is_one_of(name: &str, names: &[&str]) -> bool
    ensures { result ≡ list_any (λ allowed. bytes_eq name.now allowed.now) names.now }
{
    names.iter().any(|allowed| name == *allowed)
}

fn are_among(members: &Map<String, Value>, names: &[&str]) -> bool
    ensures { result
        ≡ list_all (λ k. list_any (λ allowed. bytes_eq (string_bytes k) allowed.now) names.now) (keys members.now) }
{
    members.keys().all(|name| is_one_of(name.as_str(), names))
}

/// An object with no names but these.
pub(crate) fn has_only(value: &Value, names: &[&str]) -> bool
    ensures { result ≡ has_only (texts_of names.now) (view value.now) }
{
    match value.as_object() {
        Some(members) => are_among(members, names),
        None => false,
    }
}

fn has_names(value: &Value, names: &[&str]) -> bool
    ensures { result ≡ list_all (λ name. is_some (get name.now (view value.now))) names.now }
{
    names.iter().all(|name| has_member(value, *name))
}

fn has_member(value: &Value, name: &str) -> bool
    ensures { result ≡ is_some (get name.now (view value.now)) }
{
    value.get(name).is_some()
}

/// It has a member of each of these names.
pub(crate) fn has_each(value: &Value, names: &[&str]) -> bool
    ensures { result ≡ has_each (texts_of names.now) (view value.now) }
{
    has_names(value, names)
}

/// An object with exactly these names.
pub(crate) fn has_exactly(value: &Value, names: &[&str]) -> bool
    ensures { result ≡ has_exactly (texts_of names.now) (view value.now) }
{
    has_only(value, names) && has_each(value, names)
}

/// It is this number.
pub(crate) fn is_the_number(value: &Value, n: u64) -> bool
    ensures { result ≡ is_the_number n (view value.now) }
{
    match value.as_u64() {
        Some(m) => n == m,
        None => false,
    }
}

/// The whole number that it is, from 0 to 2^32-1.
pub(crate) fn count_in(value: &Value) -> Option<u32>
    ensures { result ≡ count_in (view value.now) }
{
    u32::try_from(value.as_u64()?).ok()
}

/// The whole number that it is, from 0 to 255.
pub(crate) fn byte_in(value: &Value) -> Option<u8>
    ensures { result ≡ byte_in (view value.now) }
{
    u8::try_from(value.as_u64()?).ok()
}

fn are_objects(items: &[Value]) -> bool
    ensures { result ≡ list_all (λ item. is_some (as_object (view item))) items.now }
{
    items.iter().all(|item| item.is_object())
}

/// It is from `low` to `high`.
pub(crate) fn is_among(low: usize, high: usize, n: usize) -> bool
    ensures { result ≡ is_among low high n }
{
    low <= n && n <= high
}

/// An array of at least and at most so many objects.
pub(crate) fn is_list_of_objects(value: &Value, least: usize, most: usize) -> bool
    ensures { result ≡ is_list_of_objects least most (view value.now) }
{
    match value.as_array() {
        Some(items) => {
            let items = items.as_slice();
            is_among(least, most, items.len()) && are_objects(items)
        }
        None => false,
    }
}

/// The whole number that it is, from -2^63 to 2^63-1.
pub(crate) fn whole_in(value: &Value) -> Option<i64>
    ensures { result ≡ whole_in (view value.now) }
{
    value.as_i64()
}

/// A number that is not whole, or too large.
pub(crate) fn is_not_whole(value: &Value) -> bool
    ensures { result ≡ is_not_whole (view value.now) }
{
    value.is_number() && !value.is_i64()
}

/// How many names an object has; any other value has none.
pub(crate) fn name_count(value: &Value) -> usize
    ensures { result ≡ length (names_in (view value.now)) }
{
    match value.as_object() {
        Some(members) => members.len(),
        None => 0,
    }
}
