//! The file format AFR, version 1.
#![tactic(auto)]

mod clip;
mod error;
mod header;
mod judge;
pub mod laws;
mod load;
mod pixels;

pub use clip::{Clip, read_clip};
pub use error::{ClipError, LoadError};
pub use header::{Header, header_bytes};
pub use load::load_clips;
pub use pixels::{frame_bytes, into_frame_bytes};
