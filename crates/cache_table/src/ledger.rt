ghost use Rattle.std.specs.Prelude.{◌≡◌, ◌<◌, ◌≤◌, ◌+◌, [], ◌++◌, ◌∷◌, OnOk, OnErr, IfOk, length, position, option_map, slice_get, remove, Some, None, true, false, ℕ, option_and_then, vec_len, vec_capacity};
ghost use Rattle.std.specs.Arc.{arc_value};
ghost use Rattle.cache_core.specs.Rows.{held_by, released_by, is_running, is_live, is_held_by, state_of};
ghost use Rattle.cache_core.specs.Core.{IsSettled, may_step, rows_after, is_in};
ghost use Rattle.cache_core.specs.declared.row.State.TheVariants.{Running as IsRunning, Live as IsLive};
ghost use Rattle.cache_core.specs.declared.entry.Act.TheVariants.{Start, Hit, Finish, Abandon, Give, Evict};
ghost use Rattle.cache_core.specs.declared.entry.Entry.{Entry};
ghost use Rattle.cache_table.specs.Kept.{is_kept, with_state, with_value, kept_running, without_kept, changed_at, moved_last, serial_value};
ghost use Rattle.cache_table.specs.Cache.{core_of, IsKept, IsSame, Adds, IsEvictBy, is_any_live};
ghost use Rattle.cache_table.specs.Ledger.{HasRoom};

use crate::phase::{Seen, Turn};
use crate::rows::Rows;
use cache_core::{Act, Entry, HISTORY_LIMIT};
use host_io::Memory;
use std::alloc::Global;
use std::marker::Model;
use std::sync::Arc;

// The rows with their history. Each change makes one entry, and takes no memory but where it says so.
#[derive(Drop)]
pub(crate) struct Ledger<V> {
    budget: u64,
    rows: Rows<V>,
    // The sizes of the rows, added up.
    live: u128,
    // How many entries must have room.
    owed: usize,
    history: Vec<Entry>,
}

impl<V> Model for Ledger<V> {
    ghost use Rattle.std.specs.Prelude.{◌-◌, vec_len, vec_capacity};
    ghost use Rattle.cache_table.specs.Cache.{Cache};

    ghost Value = { Cache V };

    ghost use Rattle.cache_table.specs.Ledger.{IsLedger};

    ghost view = { λ l. record { budget = l.budget; history = l.history.items; rows = l.rows; spare = vec_capacity l.history - vec_len l.history } };

    ghost invariant = { λ l. IsLedger l.budget l.history.items l.rows l.live l.owed (vec_len l.history) (vec_capacity l.history) };
}

// Makes room for the entries that must follow, and for so many more. It is refused where they could reach the limit.
fn reserve(history: &mut Vec<Entry>, owed: usize, more: usize) -> Result<(), Memory>
    ensures items { history.new.items ≡ history.old.items }
    ensures len { vec_len history.new ≡ vec_len history.old }
    ensures room { OnOk result (HasRoom (vec_len history.new + (owed + more)) (vec_capacity history.new)) }
    ensures capacity { vec_capacity history.old ≤ vec_capacity history.new }
{
    let entries = owed.checked_add(more).ok_or(Memory)?;
    let all = history.len().checked_add(entries).ok_or(Memory)?;
    if all as u64 >= HISTORY_LIMIT {
        return Err(Memory);
    }
    Ok(history.reserve(entries)?)
}

impl<V: Drop> Ledger<V> {
    ghost use Rattle.cache_table.specs.Seen.{seen_of};

    pub(crate) fn new(alloc: Global, budget: u64) -> Ledger<V>
        ensures budget { result.budget ≡ budget }
        ensures history { result.history ≡ [] }
        ensures rows { result.rows ≡ [] }
    {
        Ledger {
            budget,
            rows: Rows::new(alloc),
            live: 0,
            owed: 0,
            history: Vec::new(alloc),
        }
    }

    // Its entries.
    pub(crate) fn history(&self) -> &[Entry]
        ensures entries { result.now ≡ self.now.history }
        ensures kept { IsKept self.now }
    {
        self.history.as_slice()
    }

    // Its entries, without the rows.
    pub(crate) fn into_history(self) -> Vec<Entry>
        ensures { result.items ≡ self.history }
    {
        let Ledger {
            budget: _,
            rows: _,
            live: _,
            owed: _,
            history,
        } = self;
        history
    }

    // What is seen of a class and key.
    pub(crate) fn seen(&self, class: u8, key: u128) -> Seen
        ensures { result ≡ seen_of (state_of class key (core_of self.now).rows) }
    {
        match self.rows.phase_of(class, key) {
            Some(phase) => phase.seen(),
            None => Seen::No,
        }
    }

    // Whether the pass holds the row of a class and key.
    #[cfg(test)]
    pub(crate) fn is_held(&self, class: u8, key: u128, pass: u32) -> bool
        ensures { result ≡ is_in (is_held_by pass) (state_of class key (core_of self.now).rows) }
    {
        match self.rows.phase_of(class, key) {
            Some(phase) => phase.is_held_by(pass),
            None => false,
        }
    }

    // A Running row more, the last.
    pub(crate) fn start(
        &mut self,
        alloc: Global,
        pass: u32,
        class: u8,
        key: u128,
    ) -> Result<(), Memory>
        requires settled { IsSettled (core_of self.old) }
        requires absent { position (is_kept class key) self.old.rows ≡ None }
        ensures adds { OnOk result (Adds self.old self.new (record { pass = pass; class = class; key = key; act = Start })) }
        ensures kept { IsKept self.new }
        ensures rows { OnOk result (self.new.rows ≡ self.old.rows ++ kept_running pass class key ∷ []) }
        ensures err { OnErr result (IsSame self.old self.new) }
    {
        reserve(&mut self.history, self.owed, 4)?;
        let turn = Turn::new(alloc, pass)?;
        self.rows.add(class, key, turn)?;
        self.history.push_reserved(Entry {
            pass,
            class,
            key,
            act: Act::Start,
        });
        self.owed += 3;
        Ok(())
    }

    // A Hit of the pass on the Live row of the class and key.
    pub(crate) fn take(&mut self, pass: u32, class: u8, key: u128) -> Result<(u64, Arc<V>), Memory>
        requires settled { IsSettled (core_of self.old) }
        requires live { (place : ℕ) × (position (is_kept class key) self.old.rows ≡ Some place) × (option_map (λ kept. is_any_live kept.row.state) (slice_get self.old.rows place) ≡ Some true) }
        ensures adds { IfOk result (λ taken. Adds self.old self.new (record { pass = pass; class = class; key = key; act = Hit taken.0 })) }
        ensures kept { IsKept self.new }
        ensures rows { (place : ℕ) → position (is_kept class key) self.old.rows ≡ Some place → OnOk result (self.new.rows ≡ moved_last place (changed_at (with_state (held_by pass)) place self.old.rows)) }
        ensures value { (place : ℕ) → position (is_kept class key) self.old.rows ≡ Some place → IfOk result (λ taken. option_and_then (λ kept. serial_value kept.row.state kept.value) (slice_get self.old.rows place) ≡ Some (taken.0, arc_value taken.1)) }
        ensures err { OnErr result (IsSame self.old self.new) }
    {
        reserve(&mut self.history, self.owed, 2)?;
        let (serial, value) = self.rows.take(class, key, pass)?;
        self.history.push_reserved(Entry {
            pass,
            class,
            key,
            act: Act::Hit { serial },
        });
        self.owed += 1;
        Ok((serial, value))
    }

    // An entry that changes no row.
    pub(crate) fn note(&mut self, entry: Entry) -> Result<(), Memory>
        requires steps { may_step (core_of self.old) entry ≡ true }
        requires plain { rows_after entry.pass entry.class entry.key entry.act (core_of self.old).rows ≡ (core_of self.old).rows }
        ensures adds { OnOk result (Adds self.old self.new entry) }
        ensures kept { IsKept self.new }
        ensures rows { OnOk result (self.new.rows ≡ self.old.rows) }
        ensures err { OnErr result (IsSame self.old self.new) }
    {
        reserve(&mut self.history, self.owed, 1)?;
        self.history.push_reserved(entry);
        Ok(())
    }

    // A Finish of the pass, which computed the row of the class and key.
    pub(crate) fn finish(
        &mut self,
        pass: u32,
        class: u8,
        key: u128,
        size: u32,
        value: Arc<V>,
    ) -> u64
        requires settled { IsSettled (core_of self.old) }
        requires running { (place : ℕ) × (position (is_kept class key) self.old.rows ≡ Some place) × (option_map (λ kept. is_running pass kept.row.state) (slice_get self.old.rows place) ≡ Some true) }
        ensures serial { result ≡ length self.old.history }
        ensures adds { Adds self.old self.new (record { pass = pass; class = class; key = key; act = Finish result size }) }
        ensures kept { IsKept self.new }
        ensures rows { (place : ℕ) → position (is_kept class key) self.old.rows ≡ Some place → self.new.rows ≡ moved_last place (changed_at (with_value (IsLive result size (pass ∷ [])) (arc_value value)) place self.old.rows) }
    {
        let serial = self.history.as_slice().len() as u64;
        self.rows.finish(class, key, pass, serial, size, value);
        self.history.push_reserved(Entry {
            pass,
            class,
            key,
            act: Act::Finish { serial, size },
        });
        self.live += u128::from(size);
        self.owed -= 1;
        serial
    }

    // An Abandon of the pass, which computed the row of the class and key.
    pub(crate) fn abandon(&mut self, pass: u32, class: u8, key: u128)
        requires settled { IsSettled (core_of self.old) }
        requires running { (place : ℕ) × (position (is_kept class key) self.old.rows ≡ Some place) × (option_map (λ kept. is_running pass kept.row.state) (slice_get self.old.rows place) ≡ Some true) }
        ensures adds { Adds self.old self.new (record { pass = pass; class = class; key = key; act = Abandon }) }
        ensures kept { IsKept self.new }
        ensures rows { (place : ℕ) → position (is_kept class key) self.old.rows ≡ Some place → self.new.rows ≡ remove self.old.rows place }
    {
        self.rows.take_out(class, key);
        self.history.push_reserved(Entry {
            pass,
            class,
            key,
            act: Act::Abandon,
        });
        self.owed -= 3;
    }

    // A Give of the pass, which holds the row of the class and key.
    pub(crate) fn give(&mut self, pass: u32, class: u8, key: u128)
        requires settled { IsSettled (core_of self.old) }
        requires held { (place : ℕ) × (position (is_kept class key) self.old.rows ≡ Some place) × (option_map (λ kept. is_held_by pass kept.row.state) (slice_get self.old.rows place) ≡ Some true) }
        ensures adds { (serial : ℕ) × (is_in (is_live serial) (state_of class key (core_of self.old).rows) ≡ true) × Adds self.old self.new (record { pass = pass; class = class; key = key; act = Give serial }) }
        ensures kept { IsKept self.new }
        ensures rows { (place : ℕ) → position (is_kept class key) self.old.rows ≡ Some place → self.new.rows ≡ moved_last place (changed_at (with_state (released_by pass)) place self.old.rows) }
    {
        let serial = self.rows.give(class, key, pass);
        self.history.push_reserved(Entry {
            pass,
            class,
            key,
            act: Act::Give { serial },
        });
        self.owed -= 1;
    }

    // An Evict of the first idle row, where the core is not settled. Answers whether there was one.
    pub(crate) fn evict(&mut self, pass: u32) -> bool
        ensures settled { result ≡ false → IsSettled (core_of self.new) }
        ensures same { result ≡ false → self.new ≡ self.old }
        ensures adds { result ≡ true → (entry : Entry) × IsEvictBy pass entry × Adds self.old self.new entry × (self.new.rows ≡ without_kept entry.class entry.key self.old.rows) }
        ensures kept { IsKept self.new }
        ensures rows { result ≡ true → (place : ℕ) × (place < length self.old.rows) × (self.new.rows ≡ remove self.old.rows place) }
    {
        if self.live <= u128::from(self.budget) {
            return false;
        }
        match self.rows.take_out_idle() {
            Some(gone) => {
                self.history.push_reserved(Entry {
                    pass,
                    class: gone.name.class,
                    key: gone.name.key,
                    act: Act::Evict {
                        serial: gone.serial,
                    },
                });
                self.live -= u128::from(gone.size);
                self.owed -= 1;
                true
            }
            None => false,
        }
    }
}
