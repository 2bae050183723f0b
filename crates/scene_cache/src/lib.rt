//! What passes share of a scene through a cache: planes of its nodes, and sums over them.
#![tactic(auto)]

mod begun;
mod give;
mod laws;
mod made;
mod share;

pub use begun::{Begin, begin_share, end_share};
pub use give::{checkin_all, checkin_one, checkin_pixels};
pub use laws::{kept_planes_show, kept_sums_are};
pub use made::{made_plane, made_sums};
pub use share::Share;
