//! Rectangles of whole points: right and bottom are exclusive.
#![tactic(auto)]

mod rect;

pub use rect::Rect;
