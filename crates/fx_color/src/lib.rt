//! The colour effects, kinds 0 to 5: each pixel from the input's pixel at the same point.
#![tactic(auto)]

mod by_kind;
mod color;
mod formulas;
mod palette;
mod params;
mod recolor;
mod rows;
mod scale_offset;
mod schemas;
mod tint;

pub use by_kind::recolor_use;
pub use color::Color;
pub use formulas::{ChannelShift, Invert, Threshold};
pub use palette::PaletteMap;
pub use recolor::{Recolor, recolor_each};
pub use rows::recolor_world;
pub use scale_offset::ScaleOffset;
pub use schemas::{color_schemas, color_sequence};
pub use tint::{Ends, Tint};
