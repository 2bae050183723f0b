ghost use Rattle.std.specs.Prelude.{◌≡◌, ◌+◌, ◌<◌, ◌≤◌, ◌++◌, [], ◌∷◌, true, false, length, IfOk, OnOk, OnErr, IfSome, IfNone, IsNone, Some, None};
ghost use Rattle.frame_claims.specs.Claims.{IsOf, IsAlone, AreIn, AreOnce, AreAll, next_after, opening_of, opened_once, drawing, ending, splitting, split_from, joining};

use crate::rule::{Ask, Draw, Draws, Look, Meet, Part, Span};
use crate::seat::ClaimSeat;
use crate::view::View;
use atomic_table::{Seat, Table};
use host_io::Memory;
use std::alloc::Global;
use std::marker::Model;

/// The numbers of a span, handed out from the first on, each to one claim. Workers share it, and each claims with a seat
/// of its own. The numbering and its rule are this project's own.
///
/// Contracts see which claims they are, the first number and how many there are, and whether the opening seat was given
/// out.
#[derive(Drop)]
pub struct Claims {
    table: Table<(), View, Span, Draws, Global>,
    span: Span,
    // Until it is given out.
    opening: Option<Seat<(), View>>,
}

impl Model for Claims {
    ghost use Rattle.frame_claims.specs.Claims.{Claims as Plain};
    ghost use Rattle.frame_claims.specs.Seen.{was_opened, AreClaims};

    ghost Value = { Plain };

    ghost view = { λ c. record { id = c.table.shared.table_id; first = c.span.first; count = c.span.count; opened = was_opened c.opening } };

    ghost invariant = { λ c. AreClaims c.table.shared.table_id c.table.shared.key c.span c.opening };
}

impl Claims {
    /// The numbers `first`, `first + 1`, .., `count` of them, of which none was claimed.
    pub fn new(alloc: Global, first: u32, count: u32) -> Result<Claims, Memory>
        requires fits { first + count ≤ 4294967295 }
        ensures numbers { IfOk result (λ claims. (claims.first ≡ first) × (claims.count ≡ count)) }
        ensures opened { IfOk result (λ claims. claims.opened ≡ false) }
    {
        let span = Span { first, count };
        let (table, seat) = Table::of_words(alloc, &[0], &span)?;
        Ok(Claims {
            table,
            span,
            opening: Some(seat),
        })
    }

    /// The opening seat, which has drawn nothing. `None` where it was given out before.
    pub fn opening(&mut self) -> Option<ClaimSeat>
        ensures claims { self.new ≡ opened_once self.old }
        ensures seat { IfSome result (λ seat. seat ≡ opening_of self.old) }
        ensures some { IfSome result (λ _. self.old.opened ≡ false) }
        ensures none { IfNone result (self.old.opened ≡ true) }
    {
        match self.opening.take() {
            Some(seat) => Some(ClaimSeat { seat }),
            None => None,
        }
    }

    /// The next number, which no other claim gets. `None` where all were drawn.
    pub fn claim(&self, seat: &mut ClaimSeat) -> Option<u32>
        requires own { IsOf self.now seat.old }
        ensures some { IfSome result (λ number. seat.new ≡ drawing number seat.old) }
        ensures none { IfNone result (seat.new ≡ ending seat.old) }
        ensures ended { seat.old.ended ≡ true → result ≡ None }
        ensures range { IfSome result (λ number. (self.now.first ≤ number) × (number < self.now.first + self.now.count)) }
        ensures numbers { AreIn self.now seat.new.draws }
        ensures once { AreOnce seat.new.draws }
        ensures few { length seat.new.draws ≤ self.now.count }
        ensures next { IsAlone seat.old → result ≡ next_after self.now (length seat.old.draws) }
        ensures all { IsAlone seat.old → result ≡ None → AreAll self.now seat.new.draws }
    {
        let shared = &self.table.shared;
        let count = u64::from(self.span.count);
        if shared.load::<Look>(&mut seat.seat, 0) >= count {
            return None;
        }
        let found = shared.fetch_add::<Draw>(&mut seat.seat, 0, 1);
        if found >= count {
            return None;
        }
        Some(self.span.first + found as u32)
    }

    /// A further seat, which has drawn nothing.
    pub fn split(&self, seat: &mut ClaimSeat) -> Result<ClaimSeat, Memory>
        requires own { IsOf self.now seat.old }
        requires opening { seat.old.opening ≡ true }
        requires count { seat.old.made < 4294967295 }
        ensures seat { OnOk result (seat.new ≡ splitting seat.old) }
        ensures new { IfOk result (λ new. new ≡ split_from seat.old) }
        ensures err { OnErr result (seat.new ≡ seat.old) }
    {
        let new = self.table.shared.split_seat::<Part>(&mut seat.seat);
        Ok(ClaimSeat { seat: new })
    }

    /// The opening seat takes in another. Its draws are then its own followed by those of the other, and none of them
    /// twice.
    pub fn join(&self, seat: &mut ClaimSeat, other: ClaimSeat)
        requires own { IsOf self.now seat.old }
        requires opening { seat.old.opening ≡ true }
        requires other_own { IsOf self.now other }
        requires other { other.opening ≡ false }
        ensures seat { seat.new ≡ joining other seat.old }
        ensures numbers { AreIn self.now seat.new.draws }
        ensures once { AreOnce seat.new.draws }
    {
        let shared = &self.table.shared;
        let ClaimSeat { seat: spent } = other;
        shared.join_seat::<Meet>(&mut seat.seat, spent);
        shared.load::<Ask>(&mut seat.seat, 0);
    }

    /// The end of the claims and of the opening seat. Every other seat has to be joined before, since none can be let go.
    pub fn close(self, seat: ClaimSeat)
        requires own { IsOf self seat }
        requires opening { seat.opening ≡ true }
    {
        let ClaimSeat { seat } = seat;
        drop(seat);
    }
}
