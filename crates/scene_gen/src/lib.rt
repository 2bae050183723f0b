//! Projects that are drawn from a number.
#![tactic(auto)]

mod draws;
mod effects;
mod kinds;
mod laws;
mod layers;
mod project;
mod streams;

pub use kinds::{KIND_COUNT, ValueRange, layers_of, ranges_of, unit_of};
pub use laws::{base_is_common, generated_frames, worked_draws};
pub use project::project_of_number;
