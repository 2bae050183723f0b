//! Means of the pixels around a point, and of blocks of points, at the same cost for every size.
#![tactic(auto)]

mod block_sides;
mod blur;
mod columns;
mod means;
mod mosaic;
mod rows;
mod sums;

pub use block_sides::blocks;
pub use blur::blur_world;
pub use mosaic::mosaic_world;
