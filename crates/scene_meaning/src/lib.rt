//! What a project means: the picture of a composition at each tick, and the file of its frames.
#![tactic(auto)]

mod extent;
mod job;
mod keys;
mod laws;
mod means;
mod number;
mod parts;
mod scene;

pub use extent::wanted_extents;
pub use job::SceneJob;
pub use keys::key_of;
pub use laws::{
    clip_is_drawn, clip_is_narrowed, clip_is_widened, ended_is_not_drawn, half_is_drawn,
    kept_is_right, key_is_spelled, keys_differ, matte_is_drawn, mode_is_drawn,
    more_turns_change_nothing, moving_is_drawn, nested_is_drawn, node_numbers_differ,
    nodes_are_drawn, nodes_are_kept, shown_is_of_what_is_shown, sixteen_bits_are_drawn,
    two_pixels_are_drawn,
};
pub use means::{HasSet, Means};
pub use parts::{base_of, clip_use_at, comp_at, frame_rect, layer_at, moment_of};
pub use scene::Scene;
