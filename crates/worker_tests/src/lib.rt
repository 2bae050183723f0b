//! Tests of frames that are drawn side by side.
#![tactic(auto)]

mod counting;
mod gates;
mod sheets;
#[cfg(test)]
mod windows;

pub use counting::{Counter, Threefold};
pub use gates::{Counted, HeldFrame};
pub use sheets::{Painter, Paints, Sheet, Stencil};
