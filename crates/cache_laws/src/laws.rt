// Laws of passes over all legal histories. Each stands in the contract of a function that does nothing.
ghost use Rattle.cache_laws.specs.Passes.{HoldsAreCounted, OpenReceiptIsLive, OpenReceiptIsNotEvicted, TurnsAreRunning, ClearPassHasNoRow, ClearPassesLeaveIdleRows, SingleFlight};
ghost use Rattle.cache_laws.specs.Computations.{DistinctNamesAreCounted, ComputationsAreCounted};

/// What a pass holds of a value, and what it gave back, is what it took.
pub fn holds_are_counted()
    ensures { HoldsAreCounted }
{}

/// A value that a pass took more often than it gave it back is in the cache, and the pass holds it.
pub fn open_receipt_is_live()
    ensures { OpenReceiptIsLive }
{}

/// No entry evicts such a value.
pub fn open_receipt_is_not_evicted()
    ensures { OpenReceiptIsNotEvicted }
{}

/// A pass computes the value of a class and key exactly where their row is Running with it.
pub fn turns_are_running()
    ensures { TurnsAreRunning }
{}

/// A pass is clear exactly where it owns no row and holds none.
pub fn clear_pass_has_no_row()
    ensures { ClearPassHasNoRow }
{}

/// Where every pass is clear, each row is Live and no pass holds it.
pub fn clear_passes_leave_idle_rows()
    ensures { ClearPassesLeaveIdleRows }
{}

/// After every beginning of a legal history, a class and key have at most one row.
pub fn single_flight()
    ensures { SingleFlight }
{}

/// Distinct pairs of class and key are counted as the length of each list that has them once.
pub fn distinct_names_are_counted()
    ensures { DistinctNamesAreCounted }
{}

/// Where no row is abandoned or evicted, there are as many Starts as distinct pairs of class and key that are used.
pub fn computations_are_counted()
    ensures { ComputationsAreCounted }
{}
