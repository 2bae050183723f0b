//! A lock whose passes make one legal history: it is taken in turns, and each turn adds the entries of one pass.
#![tactic(auto)]

mod history;
mod lock;
mod pass;
mod rule;
mod view;

pub use history::History;
pub use lock::TurnLock;
pub use pass::Pass;

#[cfg(test)]
mod tests;
