//! Tests of the Compute Cache through its public calls, on one thread and on several.
#![tactic(auto)]

#[cfg(test)]
mod at_once;
#[cfg(test)]
mod calls;
pub mod histogram;
pub mod jobs;
#[cfg(test)]
mod rows;
pub mod seat;
#[cfg(test)]
mod shared_histogram;
#[cfg(test)]
mod stress;
#[cfg(test)]
mod values;
pub mod workers;
