//! The stock set of effects: the kinds of the sets that it is made of, one after another.
#![tactic(auto)]

mod part;
mod stock;

pub use part::Part;
pub use stock::Stock;
