//! Premultiplied pixels, in two depths.
#![tactic(auto)]

mod combine;
pub mod laws;
mod packed;
mod pixel;
mod within;

pub use combine::{Combine, combine_each, combine_pixel, combine_row};
pub use packed::{pack_pixel, pack_row, pixel_size, unpack_pixel, unpack_row};
pub use pixel::{Pixel, Transparent, share_of_most};
pub use within::{clear_packed, pixel_in, put_pixel};
