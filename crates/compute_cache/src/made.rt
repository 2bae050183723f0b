ghost use Rattle.std.specs.Prelude.{◌≡◌, IfOk};
ghost use Rattle.std.specs.Arc.{arc_value};

use host_io::Memory;
use std::alloc::Global;
use std::marker::Model;
use std::sync::Arc;

/// A computed value, with a reference for the cache and one for the receipt.
///
/// Contracts see the value.
#[derive(Drop)]
pub struct Made<V> {
    pub(crate) table: Arc<V>,
    pub(crate) receipt: Arc<V>,
}

impl<V> Model for Made<V> {
    ghost use Rattle.std.specs.Prelude.{◌≡◌};
    ghost use Rattle.std.specs.Arc.{arc_value};

    ghost Value = { V };

    ghost view = { λ m. arc_value m.receipt };

    ghost invariant = { λ m. arc_value m.table ≡ arc_value m.receipt };
}

impl<V: Drop> Made<V> {
    /// Makes it of a value, which is dropped where there is no memory.
    pub fn new(alloc: Global, value: V) -> Result<Made<V>, Memory>
        ensures { IfOk result (λ made. made ≡ value) }
    {
        let table = Arc::new(alloc, value)?;
        let receipt = Arc::try_clone(&table)?;
        Ok(Made { table, receipt })
    }

    /// Makes two more references to a value.
    pub fn of(_alloc: Global, value: &Arc<V>) -> Result<Made<V>, Memory>
        ensures { IfOk result (λ made. made ≡ arc_value value.now) }
    {
        let table = Arc::try_clone(value)?;
        let receipt = Arc::try_clone(value)?;
        Ok(Made { table, receipt })
    }
}
