ghost use Rattle.std.specs.Prelude.{◌≡◌, [], ◌++◌, ◌∷◌, OnOk, OnErr, IfOk, IfSome, IfNone, IsSome, map, position, option_map, option_copied, slice_get, remove, Some, None, true, ℕ};
ghost use Rattle.std.specs.Arc.{arc_value};
ghost use Rattle.std.specs.Map.{lookup};
ghost use Rattle.cache_core.specs.Rows.{held_by, released_by, is_running, is_held_by, is_live, row_in, state_of, size_of};
ghost use Rattle.cache_core.specs.declared.row.State.TheVariants.{Running as IsRunning, Live as IsLive};
ghost use Rattle.cache_table.specs.Kept.{is_kept, changed_at, moved_last, with_state, with_value, is_kept_idle};
ghost use Rattle.cache_table.specs.Cache.{is_any_live};
ghost use Rattle.cache_table.specs.Slots.{is_name};

use crate::chain::{Chain, Name};
use crate::phase::{Phase, Turn};
use indexmap::IndexMap;
use std::alloc::{AllocError, Global};
use std::marker::Model;
use std::sync::Arc;

// The rows in their chain. A map has the slot of each class and key, in no order that matters.
#[derive(Drop)]
pub(crate) struct Rows<V> {
    chain: Chain<V>,
    places: IndexMap<Name, usize>,
}

impl<V> Model for Rows<V> {
    ghost use Rattle.std.specs.Prelude.{List};
    ghost use Rattle.cache_table.specs.Kept.{Kept};

    ghost Value = { List (Kept V) };

    ghost use Rattle.cache_table.specs.Slots.{plain_rows, named, IsIndexed};

    ghost view = { λ r. plain_rows r.chain };

    ghost invariant = { λ r. IsIndexed r.places.entries (named r.chain) };
}

// A row that went.
#[derive(Clone, Copy)]
pub(crate) struct Gone {
    pub name: Name,
    pub serial: u64,
    pub size: u32,
}

// The slot of the row of a class and key.
fn slot_of(places: &IndexMap<Name, usize>, class: u8, key: u128) -> usize
    requires { IsSome (lookup (is_name (record { class = class; key = key })) places.now.entries) }
    ensures { lookup (is_name (record { class = class; key = key })) places.now.entries ≡ Some result }
{
    match places.get(&Name { class, key }) {
        Some(slot) => *slot,
        None => unreachable!(),
    }
}

impl<V: Drop> Rows<V> {
    ghost use Rattle.cache_table.specs.Slots.{state_in, value_in};

    pub(crate) fn new(alloc: Global) -> Rows<V>
        ensures { result ≡ [] }
    {
        Rows {
            chain: Chain::new(alloc),
            places: IndexMap::new(alloc),
        }
    }

    // How far the row of a class and key is, if there is one.
    pub(crate) fn phase_of(&self, class: u8, key: u128) -> Option<&Phase<V>>
        ensures { option_map state_in (option_copied result) ≡ state_of class key (map (λ kept. kept.row) self.now) }
    {
        match self.places.get(&Name { class, key }) {
            Some(slot) => Some(self.chain.phase(*slot)),
            None => None,
        }
    }

    // A Running row more, the last. There is none of its class and key before.
    pub(crate) fn add(&mut self, class: u8, key: u128, turn: Turn) -> Result<(), AllocError>
        requires { position (is_kept class key) self.old ≡ None }
        ensures ok { OnOk result (self.new ≡ self.old ++ record { row = row_in class key (IsRunning turn.owner); value = None } ∷ []) }
        ensures err { OnErr result (self.new ≡ self.old) }
    {
        let name = Name { class, key };
        self.places.reserve(1)?;
        let slot = self.chain.push(name, turn)?;
        match self.places.insert(name, slot) {
            Ok(_) => Ok(()),
            Err(_) => unreachable!(),
        }
    }

    // The serial and the value of the row of a class and key, which gets one more hold of the pass and goes last.
    pub(crate) fn take(
        &mut self,
        class: u8,
        key: u128,
        pass: u32,
    ) -> Result<(u64, Arc<V>), AllocError>
        requires { (place : ℕ) × (position (is_kept class key) self.old ≡ Some place) × (option_map (λ kept. is_any_live kept.row.state) (slice_get self.old place) ≡ Some true) }
        ensures rows { (place : ℕ) → position (is_kept class key) self.old ≡ Some place → OnOk result (self.new ≡ moved_last place (changed_at (with_state (held_by pass)) place self.old)) }
        ensures serial { (place : ℕ) → position (is_kept class key) self.old ≡ Some place → IfOk result (λ taken. option_map (λ kept. is_live taken.0 kept.row.state) (slice_get self.old place) ≡ Some true) }
        ensures value { (place : ℕ) → position (is_kept class key) self.old ≡ Some place → IfOk result (λ taken. option_map (λ kept. kept.value) (slice_get self.old place) ≡ Some (Some (arc_value taken.1))) }
        ensures err { OnErr result (self.new ≡ self.old) }
    {
        let slot = slot_of(&self.places, class, key);
        let taken = self.chain.phase(slot).shared()?;
        self.chain.hold(slot, pass)?;
        self.chain.move_last(slot);
        Ok(taken)
    }

    // The row of a class and key, whose computation is done, becomes Live with its value and goes last.
    pub(crate) fn finish(
        &mut self,
        class: u8,
        key: u128,
        pass: u32,
        serial: u64,
        size: u32,
        value: Arc<V>,
    )
        requires { (place : ℕ) × (position (is_kept class key) self.old ≡ Some place) × (option_map (λ kept. is_running pass kept.row.state) (slice_get self.old place) ≡ Some true) }
        ensures { (place : ℕ) → position (is_kept class key) self.old ≡ Some place → self.new ≡ moved_last place (changed_at (with_value (IsLive serial size (pass ∷ [])) (arc_value value)) place self.old) }
    {
        let slot = slot_of(&self.places, class, key);
        self.chain.finish(slot, pass, serial, size, value);
        self.chain.move_last(slot);
    }

    // The row of a class and key gets one hold of the pass less and goes last. Answers its serial.
    pub(crate) fn give(&mut self, class: u8, key: u128, pass: u32) -> u64
        requires { (place : ℕ) × (position (is_kept class key) self.old ≡ Some place) × (option_map (λ kept. is_any_live kept.row.state) (slice_get self.old place) ≡ Some true) }
        ensures rows { (place : ℕ) → position (is_kept class key) self.old ≡ Some place → self.new ≡ moved_last place (changed_at (with_state (released_by pass)) place self.old) }
        ensures serial { (place : ℕ) → position (is_kept class key) self.old ≡ Some place → option_map (λ kept. is_live result kept.row.state) (slice_get self.old place) ≡ Some true }
    {
        let slot = slot_of(&self.places, class, key);
        let serial = self.chain.phase(slot).serial();
        self.chain.release(slot, pass);
        self.chain.move_last(slot);
        serial
    }

    // The row of a class and key goes.
    pub(crate) fn take_out(&mut self, class: u8, key: u128)
        requires { (place : ℕ) × (position (is_kept class key) self.old ≡ Some place) }
        ensures { (place : ℕ) → position (is_kept class key) self.old ≡ Some place → self.new ≡ remove self.old place }
    {
        match self.places.swap_remove(&Name { class, key }) {
            Some(slot) => self.chain.take_out(slot),
            None => unreachable!(),
        }
    }

    // The first idle row goes, if there is one.
    pub(crate) fn take_out_idle(&mut self) -> Option<Gone>
        ensures none { IfNone result (position is_kept_idle self.old ≡ None) }
        ensures same { IfNone result (self.new ≡ self.old) }
        ensures some { IfSome result (λ gone. (place : ℕ) × (position is_kept_idle self.old ≡ Some place) × (self.new ≡ remove self.old place)
            × (option_map (λ kept. kept.row.class) (slice_get self.old place) ≡ Some gone.name.class)
            × (option_map (λ kept. kept.row.key) (slice_get self.old place) ≡ Some gone.name.key)
            × (option_map (λ kept. is_live gone.serial kept.row.state) (slice_get self.old place) ≡ Some true)
            × (option_map (λ kept. size_of kept.row.state) (slice_get self.old place) ≡ Some gone.size)) }
    {
        let slot = self.chain.first_idle()?;
        let name = self.chain.name(slot);
        let phase = self.chain.phase(slot);
        let gone = Gone {
            name,
            serial: phase.serial(),
            size: phase.size(),
        };
        self.places.swap_remove(&name);
        self.chain.take_out(slot);
        Some(gone)
    }
}
