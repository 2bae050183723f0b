//! What is written of a span: the file of its frames, or the lines of their sums.
ghost use Rattle.std.specs.Prelude.{◌≡◌, IfOk, string_bytes};
ghost use Rattle.frame_span.specs.Forms.{text_of_sums};
ghost use Rattle.frame_span.specs.Lines.{count_line};

use crate::sums::Sums;
use std::alloc::{AllocError, Global};

/// The file of the frames of a span, or the lines of their sums.
#[derive(Clone, Copy, Debug, PartialEq, Eq)]
pub(crate) enum Form {
    File,
    Lines,
}

/// The line of a frame.
pub(crate) fn frame_line(alloc: Global, frame: u32, sums: &Sums) -> Result<String, AllocError>
    ensures { IfOk result (λ line. string_bytes line ≡ text_of_sums frame sums.now) }
{
    let Sums { a, r, g, b } = *sums;
    format!(in alloc; "frame {frame} {a} {r} {g} {b}\n")
}

/// The line that tells how many frames there are.
pub(crate) fn count_line(alloc: Global, count: u32) -> Result<String, AllocError>
    ensures { IfOk result (λ line. string_bytes line ≡ count_line count) }
{
    format!(in alloc; "frames {count}\n")
}
