//! The table of the Compute Cache: its rows with their values, and the history of what was done with them.
#![tactic(auto)]

mod chain;
mod ledger;
mod phase;
mod rows;
mod table;
#[cfg(test)]
mod tests;

pub use phase::Seen;
pub use table::Table;
