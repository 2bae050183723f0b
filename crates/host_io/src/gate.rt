/// Who is told of each frame as soon as it is drawn, for tests and previews. It is told by the worker that drew the frame,
/// which goes on when the call returns.
///
/// Nothing is said of what an implementation does. One that has a handle in hand may wait with it.
pub trait Gate: Sync {
    /// The frame is drawn.
    fn drawn(&self, frame: u32);
}

/// No one is told.
#[derive(Clone, Copy, Debug, PartialEq, Eq)]
pub struct NoGate;

impl Gate for NoGate {
    fn drawn(&self, _frame: u32) {}
}
