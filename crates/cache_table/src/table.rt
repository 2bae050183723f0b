ghost use Rattle.std.specs.Prelude.{◌≡◌, ◌++◌, [], ◌∷◌, ◌⊎◌, ℕ, OnOk, OnErr, IfOk, Some, None, true, length, List};
ghost use Rattle.std.specs.List.{AllByRecursion};
ghost use Rattle.std.specs.Arc.{arc_value};
ghost use Rattle.cache_core.specs.Rows.{is_running, is_held_by, is_live};
ghost use Rattle.cache_core.specs.Core.{IsSettled, may_step, is_in};
ghost use Rattle.cache_core.specs.declared.entry.Entry.{Entry};
ghost use Rattle.cache_core.specs.declared.entry.Act.TheVariants.{Start, Hit, Pending, NotCached, Finish, Abandon, Give};
ghost use Rattle.cache_core.specs.Rows.{held_by, released_by};
ghost use Rattle.cache_core.specs.declared.row.State.TheVariants.{Live as IsLive};
ghost use Rattle.cache_table.specs.Kept.{HasValue, kept_running, without_kept, touched_kept, with_state, with_value, rows_left};
ghost use Rattle.cache_table.specs.Cache.{core_of, state_at, is_any_live, IsKept, IsSame, Adds, AddsAndEvicts, IsEvictBy, HasNoNewValue, HasOneNewValue, IsNote};

use crate::ledger::Ledger;
use crate::phase::Seen;
use cache_core::Entry;
use host_io::Memory;
use std::alloc::Global;
use std::marker::Model;
use std::sync::Arc;

/// The rows of a cache with their values, and the history of what was done with them.
///
/// Contracts see the history, the rows, and how many entries more the history has room for.
#[derive(Drop)]
pub struct Table<V> {
    pub(crate) ledger: Ledger<V>,
}

impl<V> Model for Table<V> {
    ghost use Rattle.cache_table.specs.Cache.{Cache, core_of, IsKept};
    ghost use Rattle.cache_core.specs.Core.{IsSettled};

    ghost Value = { Cache V };

    ghost view = { λ t. t.ledger };

    ghost invariant = { λ t. IsKept t.ledger × IsSettled (core_of t.ledger) };
}

// Evicts the first idle row until the core is settled.
fn settle<V: Drop>(ledger: &mut Ledger<V>, pass: u32)
    requires { IsKept ledger.old }
    ensures settled { IsSettled (core_of ledger.new) }
    ensures budget { ledger.new.budget ≡ ledger.old.budget }
    ensures kept { IsKept ledger.new }
    ensures evicts { (evicts : List Entry) × AllByRecursion (IsEvictBy pass) evicts × (ledger.new.history ≡ ledger.old.history ++ evicts) × (ledger.new.rows ≡ rows_left evicts ledger.old.rows) }
    ensures values { HasNoNewValue ledger.old ledger.new }
{
    'evicting: while ledger.evict(pass) {}
}

impl<V: Drop> Table<V> {
    ghost use Rattle.cache_table.specs.Seen.{seen_of};

    /// A table with no rows and no history.
    pub fn new(alloc: Global, budget: u64) -> Result<Table<V>, Memory>
        ensures budget { IfOk result (λ table. table.budget ≡ budget) }
        ensures history { IfOk result (λ table. table.history ≡ []) }
        ensures rows { IfOk result (λ table. table.rows ≡ []) }
        ensures kept { IfOk result IsKept }
        ensures settled { IfOk result (λ table. IsSettled (core_of table)) }
    {
        Ok(Table {
            ledger: Ledger::new(alloc, budget),
        })
    }

    /// The entries made so far: a legal history below the limit, whose core is settled.
    pub fn history(&self) -> &[Entry]
        ensures entries { result.now ≡ self.now.history }
        ensures kept { IsKept self.now }
        ensures settled { IsSettled (core_of self.now) }
    {
        self.ledger.history()
    }

    /// The entries made, by value. The rows go, and their values are dropped.
    pub fn into_history(self) -> Vec<Entry>
        ensures { result.items ≡ self.history }
    {
        let Table { ledger } = self;
        ledger.into_history()
    }

    /// What is there of a class and key.
    pub fn look(&self, class: u8, key: u128) -> Seen
        ensures seen { result ≡ seen_of (state_at class key self.now) }
        ensures kept { IsKept self.now }
        ensures settled { IsSettled (core_of self.now) }
    {
        self.ledger.seen(class, key)
    }

    /// A pass begins to compute the value of a class and key of which there is no row. Takes the room for all that
    /// must follow.
    pub fn start(&mut self, alloc: Global, pass: u32, class: u8, key: u128) -> Result<(), Memory>
        requires { state_at class key self.old ≡ None }
        ensures adds { OnOk result (Adds self.old self.new (record { pass = pass; class = class; key = key; act = Start })) }
        ensures rows { OnOk result (self.new.rows ≡ self.old.rows ++ kept_running pass class key ∷ []) }
        ensures owns { OnOk result (is_in (is_running pass) (state_at class key self.new) ≡ true) }
        ensures values { OnOk result (HasNoNewValue self.old self.new) }
        ensures kept { IsKept self.new }
        ensures settled { IsSettled (core_of self.new) }
        ensures err { OnErr result (IsSame self.old self.new) }
    {
        self.ledger.start(alloc, pass, class, key)
    }

    /// A pass takes the value of a class and key that is Live. Takes the room for its Give.
    pub fn take(
        &mut self,
        _alloc: Global,
        pass: u32,
        class: u8,
        key: u128,
    ) -> Result<(u64, Arc<V>), Memory>
        requires { is_in is_any_live (state_at class key self.old) ≡ true }
        ensures adds { IfOk result (λ taken. Adds self.old self.new (record { pass = pass; class = class; key = key; act = Hit taken.0 })) }
        ensures rows { OnOk result (self.new.rows ≡ touched_kept class key (with_state (held_by pass)) self.old.rows) }
        ensures holds { OnOk result (is_in (is_held_by pass) (state_at class key self.new) ≡ true) }
        ensures value { IfOk result (λ taken. HasValue class key taken.0 (arc_value taken.1) self.old.rows) }
        ensures values { OnOk result (HasNoNewValue self.old self.new) }
        ensures kept { IsKept self.new }
        ensures settled { IsSettled (core_of self.new) }
        ensures err { OnErr result (IsSame self.old self.new) }
    {
        self.ledger.take(pass, class, key)
    }

    /// Notes an entry that changes no row.
    pub fn note(&mut self, _alloc: Global, entry: Entry) -> Result<(), Memory>
        requires steps { may_step (core_of self.old) entry ≡ true }
        requires plain { IsNote entry.act }
        ensures adds { OnOk result (Adds self.old self.new entry) }
        ensures rows { OnOk result (self.new.rows ≡ self.old.rows) }
        ensures values { OnOk result (HasNoNewValue self.old self.new) }
        ensures kept { IsKept self.new }
        ensures settled { IsSettled (core_of self.new) }
        ensures err { OnErr result (IsSame self.old self.new) }
    {
        self.ledger.note(entry)
    }

    /// The pass puts in the value that it computed, and then the first idle rows go until the core is settled.
    /// Answers the serial. The values that went are dropped.
    pub fn finish(&mut self, pass: u32, class: u8, key: u128, size: u32, value: Arc<V>) -> u64
        requires { is_in (is_running pass) (state_at class key self.old) ≡ true }
        ensures serial { result ≡ length self.old.history }
        ensures adds { AddsAndEvicts self.old self.new (record { pass = pass; class = class; key = key; act = Finish result size })
            (touched_kept class key (with_value (IsLive result size (pass ∷ [])) (arc_value value)) self.old.rows) }
        ensures kept { IsKept self.new }
        ensures settled { IsSettled (core_of self.new) }
        ensures values { HasOneNewValue self.old self.new class key result (arc_value value) }
    {
        let serial = self.ledger.finish(pass, class, key, size, value);
        settle(&mut self.ledger, pass);
        serial
    }

    /// The pass gives up its computation, and its row goes.
    pub fn abandon(&mut self, pass: u32, class: u8, key: u128)
        requires { is_in (is_running pass) (state_at class key self.old) ≡ true }
        ensures adds { Adds self.old self.new (record { pass = pass; class = class; key = key; act = Abandon }) }
        ensures rows { self.new.rows ≡ without_kept class key self.old.rows }
        ensures kept { IsKept self.new }
        ensures settled { IsSettled (core_of self.new) }
        ensures values { HasNoNewValue self.old self.new }
    {
        self.ledger.abandon(pass, class, key);
    }

    /// The pass gives a value back that it holds, and then the first idle rows go until the core is settled. The
    /// values that went are dropped.
    pub fn give(&mut self, pass: u32, class: u8, key: u128)
        requires { is_in (is_held_by pass) (state_at class key self.old) ≡ true }
        ensures adds { (serial : ℕ) × (is_in (is_live serial) (state_at class key self.old) ≡ true) × AddsAndEvicts self.old self.new (record { pass = pass; class = class; key = key; act = Give serial })
            (touched_kept class key (with_state (released_by pass)) self.old.rows) }
        ensures kept { IsKept self.new }
        ensures settled { IsSettled (core_of self.new) }
        ensures values { HasNoNewValue self.old self.new }
    {
        self.ledger.give(pass, class, key);
        settle(&mut self.ledger, pass);
    }
}
