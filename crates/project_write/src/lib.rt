//! Writing a project as JSON that is read again as it.
#![tactic(auto)]

mod arrays;
mod comps;
mod effects;
mod layers;
mod names;
mod parts;
mod streams;
mod write;

pub use write::write_project;
