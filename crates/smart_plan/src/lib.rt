//! What a request to an effect needs: the rectangle that is drawn, and what is looked at of each plane that it is drawn from.
#![tactic(auto)]

mod draw_plan;
mod laws;
mod requests;

pub use draw_plan::{DrawPlan, plan};
pub use laws::{requests_are_shown, targets_are_planes, worlds_stand_for_planes};
