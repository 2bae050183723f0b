//! A maker that borrows what it draws with, generic over its type and its depth.
ghost use Rattle.std.specs.Prelude.{◌≡◌, ◌<◌, ◌≤◌, ℕ, IfOk};

use frame_worker::FrameMaker;
use host_io::Memory;
use std::sync::Wait;

/// What gives the colour of a frame, at most `MAX`.
pub trait Paints<const MAX: u32> {
    ghost colour: { Self → ℕ → ℕ };

    /// The colour of a frame.
    fn paint(&self, frame: u32) -> u32
        ensures colour { result ≡ colour self.now frame }
        ensures most { result ≤ MAX };
}

/// A frame of one colour.
#[derive(Drop)]
pub struct Sheet<const MAX: u32> {
    pub colour: u32,
    ghost most: { colour ≤ MAX },
}

/// Paints sheets with what it borrows.
#[derive(Drop)]
pub struct Painter<'a, E: Paints<MAX>, const MAX: u32> {
    pub paints: &'a E,
    pub frames: u32,
}

impl<'a, E: Paints<MAX> + Sync, const MAX: u32> FrameMaker for Painter<'a, E, MAX> {
    type Seat = Sheet<MAX>;

    type Piece = Sheet<MAX>;

    ghost fit = { λ _ sheet. sheet.colour ≤ MAX };

    ghost takes = { λ painter frame. frame < painter.frames };

    ghost gives = { λ painter frame sheet. sheet.colour ≡ E.colour painter.paints.now frame };

    fn make<R: Wait>(
        &self,
        _rt: &R,
        seat: &mut Sheet<MAX>,
        frame: u32,
    ) -> Result<Sheet<MAX>, Memory> {
        let colour = self.paints.paint(frame);
        seat.colour = colour;
        Ok(Sheet { colour })
    }
}

/// Paints every frame in one colour.
#[derive(Clone, Copy, Debug, PartialEq, Eq)]
pub struct Stencil {
    pub colour: u8,
}

impl Paints<255> for Stencil {
    ghost colour = { λ stencil _. stencil.colour };

    fn paint(&self, _frame: u32) -> u32 {
        u32::from(self.colour)
    }
}
