ghost use Rattle.std.specs.Prelude.{ℕ, IfOk};

use host_io::Memory;
use std::sync::Wait;

/// What makes frames. Each worker makes them with a seat of its own, and all workers share the maker.
pub trait FrameMaker: Sync {
    /// What one worker needs for itself, as room or a cache's pass.
    type Seat: Send;

    /// What is made of a frame.
    type Piece: Send + Drop;

    /// A seat is fit for this maker.
    ghost fit: { Self → Self.Seat → Type 0 };

    /// This maker takes a frame.
    ghost takes: { Self → ℕ → Type 0 };

    /// A piece is what this maker gives for a frame.
    ghost gives: { Self → ℕ → Self.Piece → Type 0 };

    /// Makes a frame. The seat stays fit, also where there is no memory.
    fn make<R: Wait>(
        &self,
        rt: &R,
        seat: &mut Self::Seat,
        frame: u32,
    ) -> Result<Self::Piece, Memory>
        requires fit { fit self.now seat.old }
        requires taken { takes self.now frame }
        ensures fit { fit self.now seat.new }
        ensures gives { IfOk result (λ piece. gives self.now frame piece) };
}

/// A frame's number, and what was made of it.
#[derive(Drop)]
pub struct Piece<P> {
    pub frame: u32,
    pub made: P,
}
