ghost use Rattle.std.specs.Prelude.{◌≡◌, ◌&&◌, ◌||◌, not, length, map, codes};
ghost use Rattle.std.specs.List.{list_all};
ghost use Rattle.serde_json.specs.Find.{get};
ghost use Rattle.serde_json.specs.View.{view};
ghost use Rattle.project_model.specs.Bounds.{is_among, most_keys};
ghost use Rattle.project_json.specs.Parts.{where_there, names_in, items_in};
ghost use Rattle.project_json.specs.PlainData.{items_of};
ghost use Rattle.project_json.specs.Shapes.{are_key_parts, is_keyframe, is_stream, is_time, has_frame, has_time_second, key_has_time, is_source, source_names};

use crate::parts::{has_only, is_among, items_in, items_of, name_count};
use crate::reads::{kind_in, time_in};
use serde_json::Value;

/// The most keyframes of a stream.
const MOST_KEYS: usize = project_model::MOST_KEYS as usize;

/// `[number, time, kind]`, whatever the time is.
fn is_keyframe(value: &Value) -> bool
    ensures { result ≡ is_keyframe (view value.now) }
{
    let [value, _, kind] = items_in(value) else {
        return false;
    };
    value.is_number() && kind_in(kind).is_some()
}

fn are_keyframes(items: &[Value]) -> bool
    ensures { result ≡ list_all (λ item. is_keyframe (view item)) items.now }
{
    items.iter().all(|item| is_keyframe(item))
}

/// A number, or an array of 1 to 4,096 keyframes.
fn is_stream(value: &Value) -> bool
    ensures { result ≡ is_stream (view value.now) }
{
    let items = items_in(value);
    value.is_number() || is_among(1, MOST_KEYS, items.len()) && are_keyframes(items)
}

/// Each of them is a stream.
pub(crate) fn are_streams(items: &[Value]) -> bool
    ensures { result ≡ list_all (λ item. is_stream (view item)) items.now }
{
    items.iter().all(|item| is_stream(item))
}

/// The member of that name is a stream, where it is there.
pub(crate) fn may_be_stream(layer: &Value, name: &str) -> bool
    ensures { result ≡ where_there is_stream (get name.now (view layer.now)) }
{
    match layer.get(name) {
        Some(value) => is_stream(value),
        None => true,
    }
}

/// `[value, scale]`
fn is_time(value: &Value) -> bool
    ensures { result ≡ is_time (view value.now) }
{
    time_in(value).is_some()
}

/// The frame of a clip, or of a composition, is a time.
pub(crate) fn has_frame(value: &Value) -> bool
    ensures { result ≡ has_frame (view value.now) }
{
    match value.get("frame") {
        Some(time) => is_time(time),
        None => false,
    }
}

/// The member of that name is a time, where it is there.
pub(crate) fn may_be_time(value: &Value, name: &str) -> bool
    ensures { result ≡ where_there is_time (get name.now (view value.now)) }
{
    match value.get(name) {
        Some(time) => is_time(time),
        None => true,
    }
}

fn key_has_time(value: &Value) -> bool
    ensures { result ≡ key_has_time (view value.now) }
{
    let [_, time, _] = items_in(value) else {
        return true;
    };
    is_time(time)
}

fn have_times(items: &[Value]) -> bool
    ensures { result ≡ list_all (λ item. key_has_time (view item)) items.now }
{
    items.iter().all(|item| key_has_time(item))
}

/// The keyframes of a stream have times.
fn stream_has_times(value: &Value) -> bool
    ensures { result ≡ list_all key_has_time (items_in (view value.now)) }
{
    have_times(items_in(value))
}

/// The keyframes of each of them have times.
pub(crate) fn streams_have_times(items: &[Value]) -> bool
    ensures { result ≡ list_all (λ item. list_all key_has_time (items_in (view item))) items.now }
{
    items.iter().all(|item| stream_has_times(item))
}

/// The keyframes of the stream in the member of that name have times.
pub(crate) fn keys_have_times(layer: &Value, name: &str) -> bool
    ensures { result ≡ list_all key_has_time (items_of name.now (view layer.now)) }
{
    have_times(items_of(layer, name))
}

/// An object with exactly one name, of a solid, a clip or a composition.
pub(crate) fn is_source(value: &Value) -> bool
    ensures { result ≡ is_source (view value.now) }
{
    let names = ["solid", "clip", "comp"];
    has_only(value, &names) && name_count(value) == 1
}
