//! Pictures of premultiplied pixels over a rectangle, in two depths.
#![tactic(auto)]

pub mod laws;
mod packed;
mod pixels;
mod world;

pub use world::World;
