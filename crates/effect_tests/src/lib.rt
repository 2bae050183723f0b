//! Tests of effects through their public calls.
#![tactic(auto)]

mod analysis;
mod calls;
#[cfg(test)]
mod checked;
#[cfg(test)]
mod colours;
#[cfg(test)]
mod planned;
mod sparing;
#[cfg(test)]
mod spatial;
#[cfg(test)]
mod stock;
mod time;
mod uses;
mod wide;

pub use analysis::{equalized, flickering, levelled};
pub use calls::{Nothing, counted, described, drawn, kept, needed, prepared};
pub use sparing::{drawn_sparingly, one_colour};
pub use time::{apart, drawn_of_two, echoed_once, seen, timed};
pub use uses::{BASE, constant, steady};
pub use wide::{Wide, wide_use};
