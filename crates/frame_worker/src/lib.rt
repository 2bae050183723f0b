//! Frames drawn side by side: one seat a worker, and each worker on a thread, which claims one frame after another.
#![tactic(auto)]

mod jobs;
mod maker;
mod window;

pub use maker::{FrameMaker, Piece};
pub use window::render_window;
