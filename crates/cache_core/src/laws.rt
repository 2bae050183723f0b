// Laws over all legal histories. Each stands in the contract of a function that does nothing.
ghost use Rattle.cache_core.specs.Laws.{LegalCounts, RowsAreDistinct, HeldIsNotEvicted, LegalSerialsAreBelow, ExceedsOnlyWithoutIdle};

/// The core that a legal history leaves has its budget and counts its entries.
pub fn legal_counts()
    ensures { LegalCounts }
{}

/// No two rows of a core that a legal history leaves have the same class and key.
pub fn rows_are_distinct()
    ensures { RowsAreDistinct }
{}

/// A row that is held is never evicted.
pub fn held_is_not_evicted()
    ensures { HeldIsNotEvicted }
{}

/// Every serial in a row or in an entry of a legal history is below the count.
pub fn serials_are_below()
    ensures { LegalSerialsAreBelow }
{}

/// Once settled, live bytes exceed the budget only where no row is idle.
pub fn exceeds_only_without_idle()
    ensures { ExceedsOnlyWithoutIdle }
{}
