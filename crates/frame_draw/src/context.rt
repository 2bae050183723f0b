//! What a frame is drawn with.

use compute_cache::{Cache, Keeps};
use scene_meaning::Scene;
use std::alloc::Global;

/// What stays the same while a frame is drawn: the runtime, the scene, the effects, and the cache by which passes share planes and sums.
#[derive(Drop)]
pub(crate) struct Context<'d, R, E, K: Keeps> {
    pub(crate) rt: &'d R,
    pub(crate) alloc: Global,
    pub(crate) scene: &'d Scene,
    pub(crate) effects: &'d E,
    pub(crate) cache: &'d Cache<K>,
}
