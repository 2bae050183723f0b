ghost use Rattle.std.specs.Prelude.{◌≡◌, [], ◌++◌, ◌∷◌, OnOk, OnErr, IfOk, IsSome, find, option_map, slice_get, remove, Some, None, true, ℕ};
ghost use Rattle.std.specs.Arc.{arc_value};
ghost use Rattle.cache_core.specs.Rows.{held_by, released_by, is_running};
ghost use Rattle.cache_core.specs.declared.row.State.TheVariants.{Live as IsLive};
ghost use Rattle.slab.specs.Slab.{get};
ghost use Rattle.cache_table.specs.Kept.{kept_running, with_state, with_value, is_kept_idle};
ghost use Rattle.cache_table.specs.Slots.{links_of, Relinks, end_beside};

use crate::phase::{Phase, Turn};
use slab::Slab;
use std::alloc::{AllocError, Global};
use std::marker::Model;
use std::sync::Arc;

// What a row is found by.
#[derive(Clone, Copy, PartialEq, Eq, Hash)]
pub(crate) struct Name {
    pub class: u8,
    pub key: u128,
}

// A row, with the slots of the row before and of the row after.
#[derive(Drop)]
pub(crate) struct Link<V> {
    pub name: Name,
    pub phase: Phase<V>,
    pub before: Option<usize>,
    pub after: Option<usize>,
}

// The rows, the least recently touched first. Each stays in its slot, and is linked to the rows beside it.
#[derive(Drop)]
pub(crate) struct Chain<V> {
    slots: Slab<Link<V>>,
    first: Option<usize>,
    last: Option<usize>,
}

impl<V> Model for Chain<V> {
    ghost use Rattle.std.specs.Prelude.{List, ℕ};
    ghost use Rattle.cache_table.specs.Kept.{Kept};

    ghost Value = { List (ℕ × Kept V) };

    ghost use Rattle.cache_table.specs.Slots.{chained, order_of, IsLinked};

    ghost view = { λ c. chained c.slots (order_of c.slots c.first) };

    ghost invariant = { λ c. IsLinked c.slots c.first c.last (order_of c.slots c.first) };
}

// The slots before and after that of a row.
fn links<V>(slots: &Slab<Link<V>>, slot: usize) -> (Option<usize>, Option<usize>)
    requires { IsSome (get slots.now slot) }
    ensures { links_of slots.now slot ≡ Some result }
{
    match slots.get(slot) {
        Some(link) => (link.before, link.after),
        None => unreachable!(),
    }
}

// What comes after a slot, or first where there is none, is now `after`.
fn link_after<V>(
    slots: &mut Slab<Link<V>>,
    first: &mut Option<usize>,
    slot: Option<usize>,
    after: Option<usize>,
)
    ensures relinks { Relinks slots.old slots.new slot (λ links. (links.0, after)) }
    ensures first { first.new ≡ end_beside slot after first.old }
{
    match slot {
        Some(slot) => set_after(slots, slot, after),
        None => *first = after,
    }
}

// What comes before a slot, or last where there is none, is now `before`.
fn link_before<V>(
    slots: &mut Slab<Link<V>>,
    last: &mut Option<usize>,
    slot: Option<usize>,
    before: Option<usize>,
)
    ensures relinks { Relinks slots.old slots.new slot (λ links. (before, links.1)) }
    ensures last { last.new ≡ end_beside slot before last.old }
{
    match slot {
        Some(slot) => set_before(slots, slot, before),
        None => *last = before,
    }
}

// A slot has another after it.
fn set_after<V>(slots: &mut Slab<Link<V>>, slot: usize, after: Option<usize>)
    ensures { Relinks slots.old slots.new (Some slot) (λ links. (links.0, after)) }
{
    if let Some(link) = slots.get_mut(slot) {
        link.after = after;
    }
}

// A slot has another before it.
fn set_before<V>(slots: &mut Slab<Link<V>>, slot: usize, before: Option<usize>)
    ensures { Relinks slots.old slots.new (Some slot) (λ links. (before, links.1)) }
{
    if let Some(link) = slots.get_mut(slot) {
        link.before = before;
    }
}

// A slot has these before and after it.
fn set_links<V>(slots: &mut Slab<Link<V>>, slot: usize, before: Option<usize>, after: Option<usize>)
    ensures { Relinks slots.old slots.new (Some slot) (λ _. (before, after)) }
{
    if let Some(link) = slots.get_mut(slot) {
        link.before = before;
        link.after = after;
    }
}

impl<V: Drop> Link<V> {
    // Lets the row go, with its hold on the value.
    fn discard(self) {}
}

impl<V: Drop> Chain<V> {
    ghost use Rattle.cache_table.specs.Slots.{state_in, value_in, StandsAt, changed_item, last_item, on_kept};

    pub(crate) fn new(alloc: Global) -> Chain<V>
        ensures { result ≡ [] }
    {
        Chain {
            slots: Slab::new(alloc),
            first: None,
            last: None,
        }
    }

    // The state and the value of the row in a slot.
    pub(crate) fn phase(&self, slot: usize) -> &Phase<V>
        requires { (place : ℕ) × StandsAt slot place self.now }
        ensures state { (place : ℕ) → StandsAt slot place self.now → option_map (λ row. row.1.row.state) (slice_get self.now place) ≡ Some (state_in result.now) }
        ensures value { (place : ℕ) → StandsAt slot place self.now → option_map (λ row. row.1.value) (slice_get self.now place) ≡ Some (value_in result.now) }
    {
        match self.slots.get(slot) {
            Some(link) => &link.phase,
            None => unreachable!(),
        }
    }

    // The class and key of the row in a slot.
    pub(crate) fn name(&self, slot: usize) -> Name
        requires { (place : ℕ) × StandsAt slot place self.now }
        ensures class { (place : ℕ) → StandsAt slot place self.now → option_map (λ row. row.1.row.class) (slice_get self.now place) ≡ Some result.class }
        ensures key { (place : ℕ) → StandsAt slot place self.now → option_map (λ row. row.1.row.key) (slice_get self.now place) ≡ Some result.key }
    {
        match self.slots.get(slot) {
            Some(link) => link.name,
            None => unreachable!(),
        }
    }

    // The slot of the first idle row.
    pub(crate) fn first_idle(&self) -> Option<usize>
        ensures { result ≡ option_map (λ row. row.0) (find (λ row. is_kept_idle row.1) self.now) }
    {
        let mut next = self.first;
        for _turn in 0..self.slots.len() {
            let slot = next?;
            let link = self.slots.get(slot)?;
            if link.phase.is_idle() {
                return Some(slot);
            }
            next = link.after;
        }
        None
    }

    // A Running row more, the last. Answers its slot.
    pub(crate) fn push(&mut self, name: Name, turn: Turn) -> Result<usize, AllocError>
        ensures ok { IfOk result (λ slot. self.new ≡ self.old ++ (slot, kept_running turn.owner name.class name.key) ∷ []) }
        ensures err { OnErr result (self.new ≡ self.old) }
    {
        self.slots.reserve(1)?;
        let slot = self.slots.insert_reserved(Link {
            name,
            phase: Phase::Running(turn),
            before: self.last,
            after: None,
        });
        link_after(&mut self.slots, &mut self.first, self.last, Some(slot));
        self.last = Some(slot);
        Ok(slot)
    }

    // One more hold of the pass on the row in a slot.
    pub(crate) fn hold(&mut self, slot: usize, pass: u32) -> Result<(), AllocError>
        requires { (place : ℕ) × StandsAt slot place self.old }
        ensures ok { (place : ℕ) → StandsAt slot place self.old → OnOk result (self.new ≡ changed_item (on_kept (with_state (held_by pass))) place self.old) }
        ensures err { OnErr result (self.new ≡ self.old) }
    {
        match self.slots.get_mut(slot) {
            Some(link) => link.phase.hold(pass),
            None => unreachable!(),
        }
    }

    // One hold of the pass less on the row in a slot.
    pub(crate) fn release(&mut self, slot: usize, pass: u32)
        requires { (place : ℕ) × StandsAt slot place self.old }
        ensures { (place : ℕ) → StandsAt slot place self.old → self.new ≡ changed_item (on_kept (with_state (released_by pass))) place self.old }
    {
        match self.slots.get_mut(slot) {
            Some(link) => link.phase.release(pass),
            None => unreachable!(),
        }
    }

    // The row in a slot, whose computation is done, becomes Live with its value.
    pub(crate) fn finish(&mut self, slot: usize, pass: u32, serial: u64, size: u32, value: Arc<V>)
        requires { (place : ℕ) × StandsAt slot place self.old × (option_map (λ row. is_running pass row.1.row.state) (slice_get self.old place) ≡ Some true) }
        ensures { (place : ℕ) → StandsAt slot place self.old → self.new ≡ changed_item (on_kept (with_value (IsLive serial size (pass ∷ [])) (arc_value value))) place self.old }
    {
        let Link {
            name,
            phase,
            before,
            after,
        } = self.slots.remove(slot);
        self.slots.insert_reserved(Link {
            name,
            phase: phase.finished(pass, serial, size, value),
            before,
            after,
        });
    }

    // The row in a slot goes last.
    pub(crate) fn move_last(&mut self, slot: usize)
        requires { (place : ℕ) × StandsAt slot place self.old }
        ensures { (place : ℕ) → StandsAt slot place self.old → self.new ≡ last_item place self.old }
    {
        let (before, after) = links(&self.slots, slot);
        link_after(&mut self.slots, &mut self.first, before, after);
        link_before(&mut self.slots, &mut self.last, after, before);
        link_after(&mut self.slots, &mut self.first, self.last, Some(slot));
        set_links(&mut self.slots, slot, self.last, None);
        self.last = Some(slot);
    }

    // The row in a slot goes.
    pub(crate) fn take_out(&mut self, slot: usize)
        requires { (place : ℕ) × StandsAt slot place self.old }
        ensures { (place : ℕ) → StandsAt slot place self.old → self.new ≡ remove self.old place }
    {
        let (before, after) = links(&self.slots, slot);
        link_after(&mut self.slots, &mut self.first, before, after);
        link_before(&mut self.slots, &mut self.last, after, before);
        self.slots.remove(slot).discard();
    }
}
