use crate::classes::ClassId;
use host_io::Memory;
use thiserror::Error;

/// Why a call of a cache, or of its classes, was refused.
#[derive(Clone, Copy, Debug, PartialEq, Eq, Error)]
pub enum CacheError {
    /// The name is that of this class.
    #[error("the name is taken")]
    NameTaken { id: ClassId },
    /// There are 256 classes.
    #[error("there are 256 classes")]
    ClassesFull,
    /// There was no memory.
    #[error("out of memory")]
    Memory,
    /// The cache has no such class.
    #[error("the class is not registered")]
    NotRegistered { class: ClassId },
    /// Another pass computes the value. The call's entry is at this place.
    #[error("pass {owner} computes the value")]
    Pending { owner: u32, at: u64 },
    /// There is no row. The call's entry is at this place.
    #[error("there is no value")]
    NotCached { at: u64 },
}

impl From<Memory> for CacheError {
    fn from(_refused: Memory) -> CacheError {
        CacheError::Memory
    }
}
