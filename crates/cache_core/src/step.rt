ghost use Rattle.std.specs.Prelude.{◌≡◌, ◌↔◌, ◌++◌, ◌∷◌, [], ◌<◌, ◌*◌, ◌^◌, None, Some, OnOk, OnErr, length, vec_len, slice_index_or, position, remove, is_some, option_copied};

use crate::entry::Entry;
use crate::row::Row;
use crate::{change, legal};
use std::alloc::Global;
use std::marker::Model;
use thiserror::Error;

/// A budget in bytes, how many entries were made, and the rows, the least recently touched first.
///
/// Contracts see it as that record.
#[derive(Debug, Drop)]
pub struct Core {
    budget: u64,
    count: u64,
    rows: Vec<Row>,
}

impl Model for Core {
    ghost use Rattle.cache_core.specs.Core.{Core as Plain};

    ghost Value = { Plain };

    ghost view = { λ c. record { budget = c.budget; count = c.count; rows = c.rows.items } };
}

/// Why an entry was not applied.
#[derive(Clone, Copy, Debug, PartialEq, Eq, Error)]
pub enum CoreError {
    /// The entry does not step.
    #[error("the entry does not step")]
    Illegal,
    /// Want of memory, also where the count of entries stands at the end of its type.
    #[error("out of memory")]
    Memory,
}

impl Core {
    ghost use Rattle.cache_core.specs.Core.{empty_core, step};

    /// A core with no rows, before any entry. It takes no memory.
    pub fn new(alloc: Global, budget: u64) -> Core
        ensures { result ≡ empty_core budget }
    {
        Core {
            budget,
            count: 0,
            rows: Vec::new(alloc),
        }
    }

    /// Makes the step of an entry. After a refusal the core is unchanged.
    pub fn apply(&mut self, alloc: Global, entry: &Entry) -> Result<(), CoreError>
        ensures ok { OnOk result (step self.old entry.now ≡ Some self.new) }
        ensures illegal { (result ≡ Err CoreError.Illegal) ↔ (step self.old entry.now ≡ None) }
        ensures err { OnErr result (self.new ≡ self.old) }
    {
        if !legal::may_step(self.budget, self.count, &self.rows, entry) {
            return Err(CoreError::Illegal);
        }
        let Some(count) = self.count.checked_add(1) else {
            return Err(CoreError::Memory);
        };
        match change::change(alloc, &mut self.rows, entry) {
            Ok(()) => {
                self.count = count;
                Ok(())
            }
            Err(_) => Err(CoreError::Memory),
        }
    }

    /// The rows, the least recently touched first.
    pub fn rows(&self) -> &[Row]
        ensures { result.now ≡ self.now.rows }
    {
        &self.rows
    }
}
