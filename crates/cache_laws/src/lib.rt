//! Laws of the passes of a cache, over all legal histories.
#![tactic(auto)]

mod laws;

pub use laws::{
    clear_pass_has_no_row, clear_passes_leave_idle_rows, computations_are_counted,
    distinct_names_are_counted, holds_are_counted, open_receipt_is_live,
    open_receipt_is_not_evicted, single_flight, turns_are_running,
};

#[cfg(test)]
mod tests;
