//! What a call asks of a class and key, and what it finds.
use std::sync::Arc;

// What a call does where there is no row: it starts to compute, or it notes that there is none.
#[derive(Clone, Copy)]
pub(crate) enum Call {
    Begin,
    Checkout,
}

// What a call found and noted.
#[derive(Drop)]
pub(crate) enum Found<V> {
    Hit { serial: u64, value: Arc<V> },
    Start,
    Pending { owner: u32 },
    NotCached,
}
