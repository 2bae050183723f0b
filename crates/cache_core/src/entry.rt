/// One entry of a cache's history: what a pass did with the row of a class and key.
/// The entries and acts are this project's own.
#[derive(Clone, Copy, Debug, PartialEq, Eq)]
pub struct Entry {
    /// The number of the pass.
    pub pass: u32,
    pub class: u8,
    pub key: u128,
    pub act: Act,
}

/// What a pass did. A serial is the number of entries before the value's `Finish`.
#[derive(Clone, Copy, Debug, PartialEq, Eq)]
pub enum Act {
    /// The pass began to compute the value.
    Start,
    /// The pass took the value that is there.
    Hit { serial: u64 },
    /// The pass found that another pass computes the value.
    Pending { owner: u32 },
    /// The pass found no row.
    NotCached,
    /// The pass put in the value that it computed, of this approximate size in bytes.
    Finish { serial: u64, size: u32 },
    /// The pass gave its computation up.
    Abandon,
    /// The pass gave the value back.
    Give { serial: u64 },
    /// The value left the cache.
    Evict { serial: u64 },
}
