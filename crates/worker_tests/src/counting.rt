//! A maker over plain numbers, whose seats count what was made with them.
ghost use Rattle.std.specs.Prelude.{◌≡◌, ◌+◌, ◌*◌, ◌<◌};

use frame_worker::FrameMaker;
use host_io::Memory;
use std::sync::Wait;

/// What one worker counts. It belongs to the makers of one number.
#[derive(Clone, Copy, Debug, PartialEq, Eq)]
pub struct Counter {
    pub owner: u32,
    pub made: u32,
}

/// Makes three times a frame's number and something more, of frames below a thousand. There is no memory for one of them.
#[derive(Clone, Copy, Debug, PartialEq, Eq)]
pub struct Threefold {
    pub owner: u32,
    pub more: u16,
    pub lacks: Option<u32>,
}

impl FrameMaker for Threefold {
    type Seat = Counter;

    type Piece = u32;

    ghost fit = { λ maker seat. seat.owner ≡ maker.owner };

    ghost takes = { λ _ frame. frame < 1000 };

    ghost gives = { λ maker frame piece. piece ≡ frame * 3 + maker.more };

    fn make<R: Wait>(&self, _rt: &R, seat: &mut Counter, frame: u32) -> Result<u32, Memory> {
        seat.made = seat.made.saturating_add(1);
        if self.lacks == Some(frame) {
            return Err(Memory);
        }
        let more = self.more;
        Ok(frame * 3 + u32::from(more))
    }
}
