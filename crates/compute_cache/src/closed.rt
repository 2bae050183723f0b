ghost use Rattle.std.specs.Prelude.{◌≡◌};

use cache_core::Entry;
use std::marker::Model;

/// The history of a cache that was closed.
///
/// Contracts see the list of its entries.
#[derive(Drop)]
pub struct Closed {
    pub(crate) entries: Vec<Entry>,
}

impl Model for Closed {
    ghost use Rattle.std.specs.Prelude.{List};
    ghost use Rattle.cache_core.specs.declared.entry.Entry.{Entry};

    ghost Value = { List Entry };

    ghost view = { λ c. c.entries.items };
}

impl Closed {
    /// Its entries.
    pub fn history(&self) -> &[Entry]
        ensures { result.now ≡ self.now }
    {
        &self.entries
    }
}
