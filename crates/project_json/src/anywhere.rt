ghost use Rattle.std.specs.Prelude.{◌≡◌};
ghost use Rattle.serde_json.specs.View.{view, items_view, members_view};
ghost use Rattle.project_json.specs.Parts.{anywhere, in_items, in_members};
ghost use Rattle.project_json.specs.FormRules.{is_not_whole};

use crate::parts::is_not_whole;
use serde_json::{Map, Value};

/// Whether there is a number in the value, at any depth, that is not whole, or too large.
#[cycle(anywhere)]
pub(crate) fn is_anywhere_not_whole(value: &Value) -> bool
    ensures { result ≡ anywhere is_not_whole (view value.now) }
{
    match value {
        Value::Array(items) => is_not_whole(value) || is_in_items(items),
        Value::Object(members) => is_not_whole(value) || is_in_members(members),
        _ => is_not_whole(value),
    }
}

#[cycle(anywhere)]
fn is_in_items(items: &Vec<Value>) -> bool
    ensures { result ≡ in_items is_not_whole (items_view items.now.items) }
{
    for item in items {
        if is_anywhere_not_whole(item) {
            return true;
        }
    }
    false
}

#[cycle(anywhere)]
fn is_in_members(members: &Map<String, Value>) -> bool
    ensures { result ≡ in_members is_not_whole (members_view members.now.entries) }
{
    for (_, member) in members.iter() {
        if is_anywhere_not_whole(member) {
            return true;
        }
    }
    false
}
