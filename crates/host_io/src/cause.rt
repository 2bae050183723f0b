use std::alloc::{AllocError, AllocFailed};
use thiserror::Error;

/// Want of memory. It is merged with no other cause.
#[derive(Clone, Copy, Debug, PartialEq, Eq, Error)]
#[error("out of memory")]
pub struct Memory;

impl From<AllocError> for Memory {
    fn from(_refused: AllocError) -> Memory {
        Memory
    }
}

impl<T: Drop> From<AllocFailed<T>> for Memory {
    fn from(_refused: AllocFailed<T>) -> Memory {
        Memory
    }
}

/// An object of the outside said that it failed, and counted it.
#[derive(Clone, Copy, Debug, PartialEq, Eq, Error)]
#[error("the outside failed")]
pub struct Failed;

/// Why a sink took nothing of a piece.
#[derive(Clone, Copy, Debug, PartialEq, Eq, Error)]
pub enum SinkError {
    /// The sink said that it failed, and counted it.
    #[error("the outside failed")]
    Failed,
    /// Want of memory, which is not counted.
    #[error("out of memory")]
    Memory,
}
