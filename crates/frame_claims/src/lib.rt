//! The numbers of a span, each handed to one of several workers. Each worker has a seat, which knows what it drew.
#![tactic(auto)]

mod claims;
mod rule;
mod seat;
mod view;

pub use claims::Claims;
pub use seat::ClaimSeat;

#[cfg(test)]
mod tests;
