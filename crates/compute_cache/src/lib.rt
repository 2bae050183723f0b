//! The Compute Cache Suite: values that are computed once for a class and key, and shared by the passes of a cache.
#![tactic(auto)]

mod cache;
mod classes;
mod closed;
mod compute;
mod error;
mod found;
mod hold;
mod keeps;
mod made;
mod pass;
mod receipt;
mod room;
mod state;
#[cfg(test)]
mod tests;
mod turns;

pub use cache::Cache;
pub use classes::{ClassId, Classes};
pub use closed::Closed;
pub use compute::ComputeClass;
pub use error::CacheError;
pub use keeps::Keeps;
pub use made::Made;
pub use pass::Pass;
pub use receipt::{Begun, Receipt, Turn};
