use crate::history::History;
use crate::view::View;
use atomic_table::Seat;
use std::marker::Model;

/// A pass of a lock, by which one caller takes its turns. The opening pass comes with the lock, and each other is split
/// from it and joined into it.
///
/// Contracts see its lock, its number, the history that it has seen, its own entries in it, and the history that it
/// took, while it holds the state; of the opening pass also how many passes were made and joined. A pass has no `Drop`:
/// it ends in `join` or `close`.
pub struct Pass<S: History> {
    pub(crate) seat: Seat<Option<S>, View<S>>,
    // The number of the pass.
    pub(crate) number: u32,
    // How many passes were made, where it is the opening pass.
    pub(crate) made: u32,
}

impl<S: History> Model for Pass<S> {
    ghost use Rattle.turn_lock.specs.Lock.{Pass as Plain};

    ghost Value = { Plain S };

    ghost use Rattle.cache_core.specs.History.{IsLegal};
    ghost use Rattle.turn_lock.specs.Seen.{pass_of, IsPass};

    ghost view = { λ p. pass_of p.seat };

    ghost invariant = { λ p. IsPass (λ origin seen. IsLegal (S.budget origin) seen) p.seat p.number p.made };
}
