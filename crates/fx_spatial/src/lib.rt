//! The spatial effects, kinds 6 to 10 of the stock: each point is drawn from other points of the input.
#![tactic(auto)]

mod displace;
mod draw;
mod kind;
mod offset;
mod params;
mod pre_render;
mod rows;
mod schemas;
mod shadow;

pub use draw::draw_spatial;
pub use kind::SpatialKind;
pub use pre_render::{pre_render_spatial, spatial_wants};
pub use schemas::{spatial_kind, spatial_schemas};
