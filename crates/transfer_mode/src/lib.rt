//! The 21 transfer modes: how a source lies over a destination, in both depths.
#![tactic(auto)]

mod lanes;
pub mod laws;
mod mix;
mod mix_lanes;
mod mode;
mod packed;
mod pair;
mod scale;
mod transfer;

pub use mode::{Mode, mode_of_name};
pub use scale::scale_packed;
pub use transfer::{blend, blend_colour, blend_packed, blend_packed_colour, blend_row};
