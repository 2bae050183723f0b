//! What the seats know. No value of these types is made: they stand in proofs alone.
use std::collections::LinkedList;

// How far a seat is.
pub enum Stage {
    // It was joined, and is no more.
    Spent,
    // It is between two claims.
    Idle,
    // It has found that a number was left, and draws next.
    Marked,
}

// What a seat knows: the span, whether it is the opening one, what it drew, whether it knows that all was drawn, and how
// many seats were made and joined, which the opening seat counts.
pub struct View {
    pub stage: Stage,
    pub first: u32,
    pub count: u32,
    pub opening: bool,
    pub draws: LinkedList<u32>,
    pub ended: bool,
    pub made: u32,
    pub joined: u32,
}
