//! What the passes of a lock know. No value of these types is made: they stand in proofs alone.
use cache_core::Entry;
use std::collections::LinkedList;

// How far a pass is.
pub enum Stage {
    // It was joined, and is no more.
    Spent,
    // It does not hold the state.
    Free,
    // It holds the state, which it took with this history.
    Holds(LinkedList<Entry>),
    // It has just taken in another pass: what it had seen, what the other had, the other's number and entries.
    Joined(LinkedList<Entry>, LinkedList<Entry>, u32, LinkedList<Entry>),
}

// What a pass knows: its number, the history that it has seen, its own entries, how many passes were made and joined,
// which the opening pass counts, and the state that the lock was made with.
pub struct View<S> {
    pub stage: Stage,
    pub number: u32,
    pub seen: LinkedList<Entry>,
    pub mine: LinkedList<Entry>,
    pub made: u32,
    pub joined: u32,
    pub origin: Option<S>,
}
