use crate::view::View;
use atomic_table::Seat;
use std::marker::Model;

/// A worker's own place at some `Claims`, with which it claims. The opening seat comes from the `Claims`, and each other
/// is split from it and joined into it.
///
/// Contracts see its `Claims` and their span, whether it is the opening seat, the numbers that it drew, in order, and
/// whether it knows that all were drawn; of the opening seat also how many seats were made and joined. A seat has no
/// `Drop`: it ends in `join` or `close`.
pub struct ClaimSeat {
    pub(crate) seat: Seat<(), View>,
}

impl Model for ClaimSeat {
    ghost use Rattle.frame_claims.specs.Claims.{Seat as Plain};

    ghost Value = { Plain };

    ghost use Rattle.frame_claims.specs.Seen.{seat_of, IsSeat};

    ghost view = { λ s. seat_of s.seat };

    ghost invariant = { λ s. IsSeat s.seat };
}
