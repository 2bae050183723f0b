use crate::{
    clear_pass_has_no_row, clear_passes_leave_idle_rows, computations_are_counted,
    distinct_names_are_counted, holds_are_counted, open_receipt_is_live,
    open_receipt_is_not_evicted, single_flight, turns_are_running,
};

// The laws are functions that return.
#[test]
fn laws_return() {
    holds_are_counted();
    open_receipt_is_live();
    open_receipt_is_not_evicted();
    turns_are_running();
    clear_pass_has_no_row();
    clear_passes_leave_idle_rows();
    single_flight();
    distinct_names_are_counted();
    computations_are_counted();
}
