//! Drawing one frame of a project.
#![tactic(auto)]

mod clips;
mod context;
mod count;
mod draw;
mod effects;
mod frame;
mod layers;
mod planes;
mod shares;
mod take;

pub use frame::draw_frame;
