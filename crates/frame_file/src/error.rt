use thiserror::Error;

/// Why the bytes of a clip's file are refused, this project's own. The first of these, in this order, is answered: `Short` of
/// a header, `BadMagic`, `BadHeader`, `Short` of the declared length, `Trailing`, `BadPixel`; `Memory` may come at any time.
#[derive(Clone, Copy, Debug, PartialEq, Eq, Error)]
pub enum ClipError {
    /// The first four bytes are not `AFR1`.
    #[error("not an AFR file")]
    BadMagic,
    /// A field is not the declaration's: 0 width, 1 height, 2 depth, 3 value, 4 scale, 5 count.
    #[error("field {field} of the header differs")]
    BadHeader { field: u8 },
    /// There are `have` bytes, and `want` are needed: 29 for a header, those that are declared, or, where these are all
    /// there, those that the store said.
    #[error("short: {have} bytes of {want}")]
    Short { have: u64, want: u64 },
    /// A pixel is not premultiplied: the first, by its picture and its place in the picture, both from 0.
    #[error("pixel {index} of frame {frame} is not premultiplied")]
    BadPixel { frame: u32, index: u32 },
    /// There are so many bytes more than are declared.
    #[error("{extra} bytes too many")]
    Trailing { extra: u64 },
    /// Want of memory.
    #[error("out of memory")]
    Memory,
}

/// Why clips were not loaded. The index is that of a clip in the list of declarations, none before which is missing or
/// refused.
#[derive(Clone, Copy, Debug, PartialEq, Eq, Error)]
pub enum LoadError {
    /// The store failed, and counted it.
    #[error("clip {index}: the store failed")]
    Fault { index: usize },
    /// No file has that clip's name.
    #[error("clip {index} is missing")]
    Missing { index: usize },
    /// The bytes of that clip's file are refused.
    #[error("clip {index}: {why}")]
    Refused { index: usize, why: ClipError },
    /// Want of memory.
    #[error("out of memory")]
    Memory,
}
