ghost use Rattle.std.specs.Prelude.{◌≡◌, ◌+◌, ◌<◌, ◌++◌, ◌∷◌, [], true, OnOk, OnErr, position, length};
ghost use Rattle.compute_cache.specs.Found.{holds_by, turns_by};
ghost use Rattle.compute_cache.specs.Passes.{same_hold, is_held, without_hold};

use crate::found::Found;
use crate::hold::Hold;
use host_io::Memory;
use std::alloc::Global;
use std::marker::Model;

// The open receipts of a pass, with room for those that are owed.
#[derive(Drop)]
pub struct Receipts {
    list: Vec<Hold>,
    owed: usize,
}

impl Model for Receipts {
    ghost use Rattle.std.specs.Prelude.{◌+◌, ◌≤◌, vec_len, vec_capacity};
    ghost use Rattle.compute_cache.specs.Room.{Room};

    ghost Value = { Room };

    ghost view = { λ r. record { holds = r.list.items; owed = r.owed } };

    ghost invariant = { λ r. vec_len r.list + r.owed ≤ vec_capacity r.list };
}

// Where a receipt stands.
fn place_of(list: &[Hold], wanted: Hold) -> Option<usize>
    ensures { result ≡ position (same_hold wanted) list.now }
{
    list.iter().position(|hold| {
        hold.place == wanted.place
            && (hold.class == wanted.class
                && hold.key == wanted.key
                && hold.serial == wanted.serial)
    })
}

impl Receipts {
    pub(crate) fn new(alloc: Global) -> Receipts
        ensures holds { result.holds ≡ [] }
        ensures owed { result.owed ≡ 0 }
    {
        Receipts {
            list: Vec::new(alloc),
            owed: 0,
        }
    }

    // Takes the room for one receipt more.
    pub(crate) fn owe(&mut self) -> Result<(), Memory>
        ensures holds { self.new.holds ≡ self.old.holds }
        ensures owed { OnOk result (self.new.owed ≡ self.old.owed + 1) }
        ensures err { OnErr result (self.new ≡ self.old) }
    {
        let owed = self.owed.checked_add(1).ok_or(Memory)?;
        self.list.reserve(owed)?;
        self.owed = owed;
        Ok(())
    }

    // A receipt that is owed will not come.
    pub(crate) fn waive(&mut self)
        requires { 0 < self.old.owed }
        ensures holds { self.new.holds ≡ self.old.holds }
        ensures owed { self.new.owed + 1 ≡ self.old.owed }
    {
        self.owed -= 1;
    }

    // A receipt that is owed comes.
    pub(crate) fn add(&mut self, hold: Hold)
        requires { 0 < self.old.owed }
        ensures holds { self.new.holds ≡ self.old.holds ++ hold ∷ [] }
        ensures owed { self.new.owed + 1 ≡ self.old.owed }
    {
        self.list.push_reserved(hold);
        self.owed -= 1;
    }

    // What was found is an entry at this place: its receipt comes, is still owed, or will not come.
    pub(crate) fn note<V>(&mut self, place: u64, class: u8, key: u128, found: &Found<V>)
        requires { 0 < self.old.owed }
        ensures holds { self.new.holds ≡ self.old.holds ++ holds_by place class key found.now }
        ensures owed { self.new.owed + 1 ≡ self.old.owed + length (turns_by place class key found.now) }
    {
        match found {
            Found::Hit { serial, .. } => self.add(Hold {
                place,
                class,
                key,
                serial: *serial,
            }),
            Found::Start => {}
            _ => self.waive(),
        }
    }

    // A receipt was checked in.
    pub(crate) fn remove(&mut self, hold: Hold)
        requires { is_held hold self.old.holds ≡ true }
        ensures holds { self.new.holds ≡ without_hold hold self.old.holds }
        ensures owed { self.new.owed ≡ self.old.owed }
    {
        if let Some(place) = place_of(&self.list, hold) {
            self.list.remove(place);
        }
    }
}
