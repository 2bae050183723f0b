//! The rule of the claims, and the steps on their word.
use crate::view::View;
use atomic_table::{Join, Play, Split, TableRule};

// The numbers that are claimed: so many, from the first on.
#[derive(Clone, Copy)]
pub struct Span {
    pub first: u32,
    pub count: u32,
}

// The rule.
pub struct Draws;

impl TableRule<(), View, Span> for Draws {
    ghost use Rattle.frame_claims.specs.Rule.{Kept, first_view};

    ghost holds = { Kept };

    ghost first = { first_view };
}

// A load before a draw, which marks the seat where a number is left.
pub struct Look;

impl Play<(), View> for Look {
    ghost use Rattle.frame_claims.specs.Told.{looked};

    ghost then = { looked };
}

// A fetch and add, by which a marked seat draws.
pub struct Draw;

impl Play<(), View> for Draw {
    ghost use Rattle.frame_claims.specs.Told.{drew};

    ghost then = { drew };
}

// A load that changes no view.
pub struct Ask;

impl Play<(), View> for Ask {
    ghost use Rattle.frame_claims.specs.Told.{asked};

    ghost then = { asked };
}

// The opening seat makes a new one.
pub struct Part;

impl Split<View> for Part {
    ghost use Rattle.frame_claims.specs.Rule.{split_left, split_right};

    ghost left = { split_left };

    ghost right = { split_right };
}

// The opening seat takes in another.
pub struct Meet;

impl Join<View> for Meet {
    ghost use Rattle.frame_claims.specs.Rule.{join_both, spent_view};

    ghost both = { join_both };

    ghost spent = { spent_view };
}
