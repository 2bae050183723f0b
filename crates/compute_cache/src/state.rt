ghost use Rattle.std.specs.Prelude.{◌≡◌, ◌&&◌, ◌∷◌, ◌++◌, [], ◌<◌, ℕ, true, false, length, OnOk, OnErr, IfOk, Some, None};
ghost use Rattle.std.specs.Arc.{arc_value};
ghost use Rattle.cache_core.specs.Rows.{is_running, is_held_by, is_live};
ghost use Rattle.cache_core.specs.Core.{is_in};
ghost use Rattle.cache_core.specs.History.{history_limit};
ghost use Rattle.cache_core.specs.declared.entry.Act.TheVariants.{Finish, Abandon, Give};
ghost use Rattle.cache_table.specs.Cache.{state_at};
ghost use Rattle.compute_cache.specs.State.{entry_of, IsSound, Goes, GoesAndEvicts};
ghost use Rattle.compute_cache.specs.Acts.{act_for, act_of, IsMeant, is_any_running, act_of_none};

use crate::found::{Call, Found};
use crate::keeps::Keeps;
use cache_core::{Act, Entry};
use cache_table::{Seen, Table};
use host_io::Memory;
use std::alloc::Global;
use std::marker::Model;
use std::snapshot::Snapshot;
use std::sync::Arc;
use turn_lock::History;

// What the lock of a cache keeps: the table, and the job for contracts alone.
#[derive(Drop)]
pub struct State<K: Keeps> {
    table: Table<K::Value>,
    job: Snapshot<K>,
}

impl<K: Keeps> Model for State<K> {
    ghost use Rattle.compute_cache.specs.State.{Plain, AreRight};

    ghost Value = { Plain K.Value K };

    ghost view = { λ s. record { cache = s.table; job = s.job.value } };

    ghost invariant = { λ s. AreRight (K.meaning s.job.value) s.table };
}

impl<K: Keeps> History for State<K> {
    type Name = K;

    ghost budget = { λ s. s.cache.budget };

    ghost log = { λ s. s.cache.history };

    ghost name = { λ s. s.job };

    fn entries(&self) -> u64 {
        self.table.history().len() as u64
    }
}

impl<K: Keeps> State<K> {
    // A state with no rows and no history.
    pub(crate) fn new(alloc: Global, budget: u64, job: &K) -> Result<State<K>, Memory>
        ensures budget { IfOk result (λ state. state.cache.budget ≡ budget) }
        ensures history { IfOk result (λ state. state.cache.history ≡ []) }
        ensures job { IfOk result (λ state. state.job ≡ job.now) }
    {
        Ok(State {
            table: Table::new(alloc, budget)?,
            job: Snapshot::of(job),
        })
    }

    // The place of the next entry.
    pub(crate) fn place(&self) -> u64
        ensures place { result ≡ length self.now.cache.history }
        ensures few { length self.now.cache.history < history_limit }
        ensures sound { IsSound self.now }
    {
        self.table.history().len() as u64
    }

    // Whether a call that is to wait has to: the value is being computed.
    pub(crate) fn keeps_waiting(&self, wait: bool, class: u8, key: u128) -> bool
        ensures { result ≡ (wait && is_in is_any_running (state_at class key self.now.cache)) }
    {
        wait && matches!(self.table.look(class, key), Seen::Running { .. })
    }

    // Whether the pass computes the value.
    pub(crate) fn is_owner(&self, pass: u32, class: u8, key: u128) -> bool
        ensures { result ≡ is_in (is_running pass) (state_at class key self.now.cache) }
    {
        match self.table.look(class, key) {
            Seen::Running { owner } => owner == pass,
            _ => false,
        }
    }

    // The same where there is no row.
    fn ask_absent(
        &mut self,
        alloc: Global,
        call: Call,
        pass: u32,
        class: u8,
        key: u128,
    ) -> Result<Found<K::Value>, Memory>
        requires absent { state_at class key self.old.cache ≡ None }
        requires sound { IsSound self.old }
        ensures goes { IfOk result (λ found. Goes self.old self.new (entry_of pass class key (act_of found) ∷ [])) }
        ensures act { IfOk result (λ found. act_of found ≡ act_of_none call) }
        ensures meant { IfOk result (λ found. IsMeant (K.meaning self.old.job class key) found) }
        ensures err { OnErr result (Goes self.old self.new []) }
        ensures sound { IsSound self.new }
    {
        match call {
            Call::Begin => {
                self.table.start(alloc, pass, class, key)?;
                Ok(Found::Start)
            }
            Call::Checkout => {
                let act = Act::NotCached;
                self.table.note(
                    alloc,
                    Entry {
                        pass,
                        class,
                        key,
                        act,
                    },
                )?;
                Ok(Found::NotCached)
            }
        }
    }

    // A call of the pass, which does not compute the value. It makes the entry that fits the row.
    pub(crate) fn ask(
        &mut self,
        alloc: Global,
        call: Call,
        pass: u32,
        class: u8,
        key: u128,
    ) -> Result<Found<K::Value>, Memory>
        requires other { is_in (is_running pass) (state_at class key self.old.cache) ≡ false }
        ensures goes { IfOk result (λ found. Goes self.old self.new (entry_of pass class key (act_of found) ∷ [])) }
        ensures act { IfOk result (λ found. act_of found ≡ act_for call (state_at class key self.old.cache)) }
        ensures meant { IfOk result (λ found. IsMeant (K.meaning self.old.job class key) found) }
        ensures err { OnErr result (Goes self.old self.new []) }
        ensures sound { IsSound self.new }
    {
        match self.table.look(class, key) {
            Seen::Live { .. } => {
                let (serial, value) = self.table.take(alloc, pass, class, key)?;
                Ok(Found::Hit { serial, value })
            }
            Seen::Running { owner } => {
                let act = Act::Pending { owner };
                self.table.note(
                    alloc,
                    Entry {
                        pass,
                        class,
                        key,
                        act,
                    },
                )?;
                Ok(Found::Pending { owner })
            }
            Seen::No => self.ask_absent(alloc, call, pass, class, key),
        }
    }

    // The value that the pass computed goes in.
    pub(crate) fn finish(
        &mut self,
        pass: u32,
        class: u8,
        key: u128,
        size: u32,
        value: Arc<K::Value>,
    ) -> u64
        requires running { is_in (is_running pass) (state_at class key self.old.cache) ≡ true }
        requires right { K.meaning self.old.job class key ≡ Some (arc_value value) }
        ensures serial { result ≡ length self.old.cache.history }
        ensures goes { GoesAndEvicts self.old self.new (entry_of pass class key (Finish result size)) }
        ensures sound { IsSound self.new }
    {
        self.table.finish(pass, class, key, size, value)
    }

    // The pass gives its computation up.
    pub(crate) fn abandon(&mut self, pass: u32, class: u8, key: u128)
        requires running { is_in (is_running pass) (state_at class key self.old.cache) ≡ true }
        ensures goes { Goes self.old self.new (entry_of pass class key Abandon ∷ []) }
        ensures sound { IsSound self.new }
    {
        self.table.abandon(pass, class, key);
    }

    // The pass gives a value back.
    pub(crate) fn give(&mut self, pass: u32, class: u8, key: u128)
        requires held { is_in (is_held_by pass) (state_at class key self.old.cache) ≡ true }
        ensures goes { (serial : ℕ) × (is_in (is_live serial) (state_at class key self.old.cache) ≡ true) × GoesAndEvicts self.old self.new (entry_of pass class key (Give serial)) }
        ensures sound { IsSound self.new }
    {
        self.table.give(pass, class, key);
    }

    // The entries made, by value. The rows go.
    pub(crate) fn into_history(self) -> Vec<Entry>
        ensures { result.items ≡ self.cache.history }
    {
        let State { table, job: _ } = self;
        table.into_history()
    }
}
