//! Times as whole numbers over a scale, and the common base in which each is a number of ticks.
#![tactic(auto)]

mod base;
mod laws;
mod time;

pub use base::{TimeError, base_of, common_base};
pub use laws::{base_ignores_order, common_base_is_least, frames_agree};
pub use time::{
    GREATEST_BASE, MOST_SECONDS, Tick, Time, TimeBase, comes_before, compare, frame_of, frame_tick,
    held, is_near, to_tick,
};
