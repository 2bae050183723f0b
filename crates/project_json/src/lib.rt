//! Reading a project from its JSON.
#![tactic(auto)]

mod anywhere;
mod effects;
mod error;
mod form;
mod laws;
mod parts;
mod places;
mod plain;
mod plain_fx;
mod read;
mod reads;
mod shapes;

pub use error::ProjectError;
pub use laws::{project_keeps_rules, refusal_is_least};
pub use read::{effects_are_read, nested_clip_is_read, read_project, two_pixels_are_read};
