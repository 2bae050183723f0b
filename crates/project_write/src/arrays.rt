//! Arrays of two and three.

ghost use Rattle.std.specs.Prelude.{◌≡◌, IfOk};
ghost use Rattle.serde_json.specs.Data.{array, item, no_items};
ghost use Rattle.serde_json.specs.View.{view};

use host_io::Memory;
use serde_json::{Value, json};
use std::alloc::Global;

/// An array of two.
pub(crate) fn pair(alloc: Global, first: Value, second: Value) -> Result<Value, Memory>
    ensures { IfOk result (λ v. view v ≡ array (item (view first) (item (view second) no_items))) }
{
    Ok(json!(in alloc; [first, second])?)
}

/// An array of three.
pub(crate) fn triple(
    alloc: Global,
    first: Value,
    second: Value,
    third: Value,
) -> Result<Value, Memory>
    ensures { IfOk result (λ v. view v ≡ array (item (view first) (item (view second) (item (view third) no_items)))) }
{
    let mut items = Vec::with_capacity(alloc, 3)?;
    items.push(first)?;
    items.push(second)?;
    items.push(third)?;
    Ok(Value::Array(items))
}
