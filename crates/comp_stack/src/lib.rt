//! The stack of a composition: layers over each other, each in its mode, under its matte and its opacity.
#![tactic(auto)]

mod draw;
pub mod laws;
mod layer;
mod over;
mod source;

pub use draw::stack;
pub use layer::{Placed, Shown};
