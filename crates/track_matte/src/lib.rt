//! Track mattes: how much of a layer the pixels of another layer let through.
#![tactic(auto)]

pub mod laws;
mod matte;

pub use matte::{Matte, apply_packed, apply_row, matte_of_name, matte_value};
