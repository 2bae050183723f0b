//! Streams: values over time, given by keyframes.
#![tactic(auto)]

mod key;
mod laws;
mod share;
mod stream;

pub use key::{Ease, Keyframe, rises};
pub use laws::{
    rises_in_ticks, value_after, value_at_key, value_at_split, value_before,
    value_between_neighbours, value_within_bounds, worked_values,
};
pub use stream::{Stream, StreamError};
