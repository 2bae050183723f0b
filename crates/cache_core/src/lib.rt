//! The core of the Compute Cache: a plain list of rows, its acts, and histories of them.
#![tactic(auto)]

mod change;
mod entry;
mod history;
mod holders;
mod laws;
mod legal;
mod row;
mod step;

pub use entry::{Act, Entry};
pub use history::{HISTORY_LIMIT, ReplayError, replay};
pub use holders::Holders;
pub use laws::{
    exceeds_only_without_idle, held_is_not_evicted, legal_counts, rows_are_distinct,
    serials_are_below,
};
pub use row::{Row, State};
pub use step::{Core, CoreError};

#[cfg(test)]
mod tests;
