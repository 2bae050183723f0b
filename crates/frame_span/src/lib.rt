//! A span of frames, drawn by workers side by side and written in order: their file, or the sums of each.
#![tactic(auto)]

mod effects;
mod error;
mod form;
mod maker;
mod output;
mod passes;
mod root;
mod span;
mod start;
mod sums;

pub use effects::HasEffects;
pub use error::RenderError;
pub use output::write_whole;
pub use root::root_of;
pub use span::{MOST_WORKERS, Span, render_lines, render_span};
