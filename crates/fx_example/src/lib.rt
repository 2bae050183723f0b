//! An effect set with one effect, written as an example: see docs/EFFECTS.md.
#![tactic(auto)]

mod fade;

pub use fade::{Fade, Faded};
