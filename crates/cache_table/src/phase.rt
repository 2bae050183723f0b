ghost use Rattle.std.specs.Prelude.{◌≡◌, ◌∷◌, [], OnOk, OnErr, IfOk, IsTrue, Some, Option, option_map, true};
ghost use Rattle.std.specs.Arc.{arc_value};
ghost use Rattle.cache_core.specs.Rows.{held_by, released_by, is_running, is_idle, size_of, is_live, is_held_by};
ghost use Rattle.cache_table.specs.Cache.{is_any_live};
ghost use Rattle.cache_core.specs.declared.row.State.TheVariants.{Live as IsLive};

use cache_core::Holders;
use std::alloc::{AllocError, Global};
use std::sync::Arc;

/// What is found of a class and key.
#[derive(Clone, Copy, Debug, PartialEq, Eq)]
pub enum Seen {
    /// There is no row.
    No,
    /// The owner pass computes the value.
    Running { owner: u32 },
    /// The value is there.
    Live { serial: u64 },
}

// A pass that computes a value, with room for the hold that it has once it is done.
#[derive(Drop)]
pub(crate) struct Turn {
    pub owner: u32,
    pub holders: Holders,
    ghost own: { holders ≡ owner ∷ [] },
}

// How far a row's value is, with the value.
#[derive(Drop)]
pub(crate) enum Phase<V> {
    Running(Turn),
    Live {
        serial: u64,
        size: u32,
        holders: Holders,
        value: Arc<V>,
    },
}

impl Turn {
    // Takes the room for the hold.
    pub(crate) fn new(alloc: Global, owner: u32) -> Result<Turn, AllocError>
        ensures { IfOk result (λ turn. turn.owner ≡ owner) }
    {
        let mut holders = Holders::new(alloc);
        holders.add(owner)?;
        Ok(Turn { owner, holders })
    }
}

impl<V: Drop> Phase<V> {
    // Lets the phase go, with its hold on the value.
    pub(crate) fn discard(self) {}
}

impl<V> Phase<V> {
    ghost use Rattle.cache_table.specs.Slots.{state_in, value_in};
    ghost use Rattle.cache_table.specs.Seen.{seen_of};

    // One more hold of the pass, where it is Live.
    pub(crate) fn hold(&mut self, pass: u32) -> Result<(), AllocError>
        ensures state { OnOk result (state_in self.new ≡ held_by pass (state_in self.old)) }
        ensures value { OnOk result (value_in self.new ≡ value_in self.old) }
        ensures err { OnErr result (self.new ≡ self.old) }
    {
        match self {
            Phase::Running(_) => Ok(()),
            Phase::Live { holders, .. } => holders.add(pass),
        }
    }

    // One hold of the pass less, where it is Live.
    pub(crate) fn release(&mut self, pass: u32)
        ensures state { state_in self.new ≡ released_by pass (state_in self.old) }
        ensures value { value_in self.new ≡ value_in self.old }
    {
        match self {
            Phase::Running(_) => {}
            Phase::Live { holders, .. } => holders.release(pass),
        }
    }

    // What is seen of it.
    pub(crate) fn seen(&self) -> Seen
        ensures { result ≡ seen_of (Some (state_in self.now)) }
    {
        match self {
            Phase::Running(turn) => Seen::Running { owner: turn.owner },
            Phase::Live { serial, .. } => Seen::Live { serial: *serial },
        }
    }

    // Whether the pass holds it.
    #[cfg(test)]
    pub(crate) fn is_held_by(&self, pass: u32) -> bool
        ensures { result ≡ is_held_by pass (state_in self.now) }
    {
        match self {
            Phase::Running(_) => false,
            Phase::Live { holders, .. } => holders.has(pass),
        }
    }

    // The serial of a value, and a further reference to it.
    pub(crate) fn shared(&self) -> Result<(u64, Arc<V>), AllocError>
        requires { is_any_live (state_in self.now) ≡ true }
        ensures serial { IfOk result (λ shared. is_live shared.0 (state_in self.now) ≡ true) }
        ensures value { IfOk result (λ shared. value_in self.now ≡ Some (arc_value shared.1)) }
    {
        match self {
            Phase::Running(_) => unreachable!(),
            Phase::Live { serial, value, .. } => Ok((*serial, Arc::try_clone(value)?)),
        }
    }

    // The serial of a value.
    pub(crate) fn serial(&self) -> u64
        requires { is_any_live (state_in self.now) ≡ true }
        ensures { is_live result (state_in self.now) ≡ true }
    {
        match self {
            Phase::Running(_) => unreachable!(),
            Phase::Live { serial, .. } => *serial,
        }
    }

    // Live with no holder.
    pub(crate) fn is_idle(&self) -> bool
        ensures { result ≡ is_idle (state_in self.now) }
    {
        match self {
            Phase::Running(_) => false,
            Phase::Live { holders, .. } => holders.is_empty(),
        }
    }

    // What the row adds to the live bytes.
    pub(crate) fn size(&self) -> u32
        ensures { result ≡ size_of (state_in self.now) }
    {
        match self {
            Phase::Running(_) => 0,
            Phase::Live { size, .. } => *size,
        }
    }

    // The value of a computation that is done, held by the pass that made it.
    pub(crate) fn finished(self, pass: u32, serial: u64, size: u32, value: Arc<V>) -> Phase<V>
        requires { is_running pass (state_in self) ≡ true }
        ensures state { state_in result ≡ IsLive serial size (pass ∷ []) }
        ensures value { value_in result ≡ Some (arc_value value) }
    {
        match self {
            Phase::Running(turn) => {
                let Turn { owner: _, holders } = turn;
                Phase::Live {
                    serial,
                    size,
                    holders,
                    value,
                }
            }
            Phase::Live { .. } => unreachable!(),
        }
    }
}
