//! The lock's rule, and the steps on its word.
use crate::history::History;
use crate::view::View;
use atomic_table::{Join, Play, Split, TableRule};
use std::marker::PhantomData;
use std::snapshot::Snapshot;

// The rule.
pub struct Turns<S> {
    of: PhantomData<S>,
}

impl<S: History> TableRule<Option<S>, View<S>, Snapshot<S>> for Turns<S> {
    ghost use Rattle.cache_core.specs.History.{IsLegal};
    ghost use Rattle.turn_lock.specs.Entries.{IsClear};
    ghost use Rattle.turn_lock.specs.Rule.{Kept, first_view};
    ghost use Rattle.turn_lock.specs.Told.{IsState};

    ghost holds = { λ key. Kept (IsLegal (S.budget key.value)) IsClear (IsState S.budget S.log S.name key.value) key.value };

    ghost first = { λ key. first_view key.value };
}

// A load, which tells what the rule says of the pass.
pub struct Look;

impl<S> Play<Option<S>, View<S>> for Look {
    ghost use Rattle.turn_lock.specs.Told.{looked};

    ghost then = { looked };
}

// A compare and exchange, by which a pass takes the state.
pub struct Take<S> {
    of: PhantomData<S>,
}

impl<S: History> Play<Option<S>, View<S>> for Take<S> {
    ghost use Rattle.turn_lock.specs.Told.{took};

    ghost then = { took S.budget S.log S.name };
}

// A store, by which a pass gives the state back.
pub struct Release<S> {
    of: PhantomData<S>,
}

impl<S: History> Play<Option<S>, View<S>> for Release<S> {
    ghost use Rattle.turn_lock.specs.Told.{released};

    ghost then = { released S.budget S.log S.name };
}

// The opening pass makes a new one.
pub struct Part;

impl<S> Split<View<S>> for Part {
    ghost use Rattle.turn_lock.specs.Rule.{split_left, split_right};

    ghost left = { split_left };

    ghost right = { split_right };
}

// The opening pass takes in another.
pub struct Meet;

impl<S> Join<View<S>> for Meet {
    ghost use Rattle.turn_lock.specs.Rule.{join_both, spent_view};

    ghost both = { join_both };

    ghost spent = { spent_view };
}
