//! What a pass on a thread is told. It stands outside of the tests, since a lemma of this crate says that a seat may go to a
//! thread.

use crate::jobs::Low;
use compute_cache::{CacheError, Pass};

/// What a call was given.
#[derive(Clone, Copy, Debug, PartialEq, Eq)]
pub enum Told {
    Hit { value: u32 },
    Turn,
    Value { value: u32 },
    Refused(CacheError),
}

/// What a call on a key was told.
#[derive(Clone, Copy, Debug)]
pub struct Answer {
    pub key: u128,
    pub told: Told,
}

/// A pass, and what its calls were told.
pub struct Seat {
    pub pass: Pass<Low>,
    pub answers: Vec<Answer>,
}
