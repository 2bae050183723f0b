//! The effects of time, kinds 11 to 14 of the stock: each point is drawn from the input's own point, as that is at several
//! ticks.
#![tactic(auto)]

mod difference;
mod draw;
mod echo;
mod kind;
pub mod laws;
mod mean;
mod params;
mod pre_render;
mod rows;
mod schemas;
mod sums;
mod ticks;
mod wants;

pub use draw::draw_time;
pub use kind::TimeKind;
pub use pre_render::pre_render_time;
pub use schemas::{time_kind, time_schemas};
pub use wants::time_wants;
