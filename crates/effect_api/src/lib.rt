//! What an effect is: the two traits that an effect set keeps, and what their calls are given and answer.
#![tactic(auto)]

mod checkouts;
mod draw;
mod effect;
mod laws;
mod moment;
mod own;
mod param;
mod pre_render;
mod schema;

pub use checkouts::{Checkouts, CheckoutsOf, Kept, Pixels, PixelsOf, Value};
pub use draw::Draw;
pub use effect::Effect;
pub use laws::{drawing_is_lawful, set_is_lawful};
pub use moment::{Ask, Moment, Want};
pub use own::{own_pre_render, own_wants};
pub use param::checkout_param;
pub use pre_render::{Checkout, PreRender};
pub use schema::{NO_SEQUENCE, data_schema, param_schema, plain_schema};
