//! Tests of reading projects.
#![tactic(auto)]

#[cfg(test)]
mod clips;
#[cfg(test)]
mod edits;
#[cfg(test)]
mod effects;
#[cfg(test)]
mod form;
#[cfg(test)]
mod nesting;
#[cfg(test)]
mod numbers;
mod set;
#[cfg(test)]
mod values;

pub use set::effect_set;
