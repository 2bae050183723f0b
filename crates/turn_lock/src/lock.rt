ghost use Rattle.std.specs.Prelude.{◌≡◌, ◌+◌, ◌++◌, ◌<◌, [], ℕ, List, length, IfOk, OnErr, IfSome, IfNone, OnOk, Some, None};
ghost use Rattle.cache_core.specs.History.{IsLegal};
ghost use Rattle.cache_core.specs.declared.entry.Entry.{Entry};
ghost use Rattle.turn_lock.specs.Entries.{Begins, AreOf, entries_of, IsClear};
ghost use Rattle.turn_lock.specs.Lock.{IsOf, opening_of, taking, putting, splitting, split_from, joining};

use crate::history::History;
use crate::pass::Pass;
use crate::rule::{Look, Meet, Part, Release, Take, Turns};
use crate::view::View;
use atomic_table::{Refused, Table};
use host_io::Memory;
use std::alloc::Global;
use std::marker::Model;
use std::snapshot::Snapshot;
use std::sync::Wait;
use std::thread;

/// A lock round a state with a history, which its passes take in turns. Its passes make one legal history.
///
/// Contracts see which lock it is, and the state that it was made with: each state that it gives has the budget and the
/// name of that one.
pub struct TurnLock<S: History> {
    table: Table<Option<S>, View<S>, Snapshot<S>, Turns<S>, Global>,
}

impl<S: History> Model for TurnLock<S> {
    ghost use Rattle.std.specs.Prelude.{◌≡◌};
    ghost use Rattle.turn_lock.specs.Lock.{Lock};

    ghost Value = { Lock S };

    ghost view = { λ l. record { id = l.table.shared.table_id; origin = l.table.shared.key.value } };

    ghost invariant = { λ l. (l.table.shared.table_id.words ≡ 1) × (l.table.shared.table_id.slots ≡ 1) };
}

impl<S: History> TurnLock<S> {
    /// A lock round a state with an empty history, and its opening pass, which is number 0.
    pub fn new(alloc: Global, state: S) -> Result<(TurnLock<S>, Pass<S>), Memory>
    where
        S: Drop,
        requires { S.log state ≡ [] }
        ensures origin { IfOk result (λ made. made.0.origin ≡ state) }
        ensures opening { IfOk result (λ made. made.1 ≡ opening_of made.0) }
    {
        let origin = Snapshot::of(&state);
        let mut slots = Vec::with_capacity(alloc, 1)?;
        slots.push_reserved(Some(state));
        match Table::new(alloc, &[0], slots, &origin) {
            Ok((table, seat)) => {
                let lock = TurnLock { table };
                let pass = Pass {
                    seat,
                    number: 0,
                    made: 1,
                };
                Ok((lock, pass))
            }
            Err(Refused { slots: _ }) => Err(Memory),
        }
    }

    // Takes the state, if no pass holds it.
    fn try_take(&self, pass: &mut Pass<S>) -> Option<S>
        requires own { IsOf self.now pass.old }
        requires free { pass.old.taken ≡ None }
        ensures none { IfNone result (pass.new ≡ pass.old) }
        ensures pass { IfSome result (λ state. pass.new ≡ taking (S.log state) pass.old) }
        ensures budget { IfSome result (λ state. S.budget state ≡ S.budget self.now.origin) }
        ensures name { IfSome result (λ state. S.name state ≡ S.name self.now.origin) }
        ensures legal { IfSome result (λ state. IsLegal (S.budget self.now.origin) (S.log state)) }
        ensures begins { IfSome result (λ state. Begins pass.old.seen (S.log state)) }
        ensures mine { IfSome result (λ state. entries_of pass.old.number (S.log state) ≡ pass.old.mine) }
    {
        let shared = &self.table.shared;
        let free = shared.peek(0);
        if free % 2 != 0 {
            return None;
        }
        if shared.compare_exchange::<Take<S>>(&mut pass.seat, 0, free, free + 1) != free {
            return None;
        }
        Some(shared.exchange(&mut pass.seat, 0, None).unwrap())
    }

    /// Waits for the state and takes it. Its history is legal, begins with what the pass has seen, and has of the pass
    /// just its own entries.
    pub fn take<R: Wait>(&self, rt: &R, pass: &mut Pass<S>) -> S
        requires own { IsOf self.now pass.old }
        requires free { pass.old.taken ≡ None }
        ensures pass { pass.new ≡ taking (S.log result) pass.old }
        ensures budget { S.budget result ≡ S.budget self.now.origin }
        ensures name { S.name result ≡ S.name self.now.origin }
        ensures legal { IsLegal (S.budget self.now.origin) (S.log result) }
        ensures begins { Begins pass.old.seen (S.log result) }
        ensures mine { entries_of pass.old.number (S.log result) ≡ pass.old.mine }
    {
        for _turn in rt.forever() {
            if let Some(state) = self.try_take(pass) {
                return state;
            }
            thread::yield_now();
        }
        unreachable!()
    }

    /// Puts the state back. The pass has then seen its history, and has the entries that it added.
    pub fn put(&self, pass: &mut Pass<S>, state: S)
        requires own { IsOf self.now pass.old }
        requires taken { (taken added : List Entry) × (pass.old.taken ≡ Some taken) × (S.log state ≡ taken ++ added) × AreOf pass.old.number added }
        requires budget { S.budget state ≡ S.budget self.now.origin }
        requires name { S.name state ≡ S.name self.now.origin }
        requires legal { IsLegal (S.budget self.now.origin) (S.log state) }
        ensures pass { pass.new ≡ putting (S.log state) pass.old }
        ensures begins { Begins pass.old.seen pass.new.seen }
        ensures mine { (taken added : List Entry) → pass.old.taken ≡ Some taken → S.log state ≡ taken ++ added → AreOf pass.old.number added → pass.new.mine ≡ pass.old.mine ++ added }
    {
        let entries = state.entries();
        let shared = &self.table.shared;
        let empty = shared.exchange(&mut pass.seat, 0, Some(state));
        let None = empty else { unreachable!() };
        shared.store::<Release<S>>(&mut pass.seat, 0, 2 * entries);
    }

    /// A further pass, with a number that no entry has. It has seen what the opening pass has.
    pub fn split(&self, pass: &mut Pass<S>) -> Result<Pass<S>, Memory>
        requires own { IsOf self.now pass.old }
        requires opening { pass.old.number ≡ 0 }
        requires free { pass.old.taken ≡ None }
        requires count { pass.old.made < 4294967295 }
        ensures pass { OnOk result (pass.new ≡ splitting pass.old) }
        ensures made { IfOk result (λ new. new ≡ split_from pass.old) }
        ensures fresh { IfOk result (λ new. entries_of new.number new.seen ≡ []) }
        ensures err { OnErr result (pass.new ≡ pass.old) }
    {
        let shared = &self.table.shared;
        let number = pass.made;
        let mut seat = shared.split_seat::<Part>(&mut pass.seat);
        pass.made += 1;
        shared.load::<Look>(&mut seat, 0);
        Ok(Pass {
            seat,
            number,
            made: 0,
        })
    }

    /// The opening pass takes in another, which has computed all that it started and given back all that it held. It has
    /// then seen what either has, with the entries of the other.
    pub fn join(&self, pass: &mut Pass<S>, other: Pass<S>)
        requires own { IsOf self.now pass.old }
        requires opening { pass.old.number ≡ 0 }
        requires free { pass.old.taken ≡ None }
        requires other_own { IsOf self.now other }
        requires other_free { other.taken ≡ None }
        requires other_clear { IsClear other.mine }
        ensures pass { pass.new ≡ joining other pass.old }
        ensures begins { Begins pass.old.seen pass.new.seen }
        ensures other_begins { Begins other.seen pass.new.seen }
        ensures own { entries_of pass.new.number pass.new.seen ≡ pass.new.mine }
        ensures other_mine { entries_of other.number pass.new.seen ≡ other.mine }
        ensures legal { IsLegal (S.budget self.now.origin) pass.new.seen }
    {
        let shared = &self.table.shared;
        let Pass {
            seat,
            number: _,
            made: _,
        } = other;
        shared.join_seat::<Meet>(&mut pass.seat, seat);
        shared.load::<Look>(&mut pass.seat, 0);
    }

    /// The state, once every other pass was joined. Its history is what the opening pass has seen.
    pub fn close(self, pass: Pass<S>) -> S
        requires own { IsOf self pass }
        requires opening { pass.number ≡ 0 }
        requires free { pass.taken ≡ None }
        requires clear { IsClear pass.mine }
        requires last { pass.made ≡ pass.joined + 1 }
        ensures budget { S.budget result ≡ S.budget self.origin }
        ensures name { S.name result ≡ S.name self.origin }
        ensures history { S.log result ≡ pass.seen }
        ensures legal { IsLegal (S.budget self.origin) (S.log result) }
        ensures clear { (number : ℕ) → IsClear (entries_of number (S.log result)) }
    {
        let TurnLock { table } = self;
        let Pass {
            seat,
            number: _,
            made: _,
        } = pass;
        let mut closed = table.close_with(seat);
        let state = closed.take(0).unwrap();
        closed.free();
        state
    }

    /// The number of a pass: how many were made before it. What a pass has seen is legal, and has of the pass just its
    /// own entries.
    pub fn number(pass: &Pass<S>) -> u32
        ensures number { result ≡ pass.now.number }
        ensures legal { (origin : S) → pass.now.origin ≡ Some origin → IsLegal (S.budget origin) pass.now.seen }
        ensures own { entries_of pass.now.number pass.now.seen ≡ pass.now.mine }
    {
        pass.number
    }
}
