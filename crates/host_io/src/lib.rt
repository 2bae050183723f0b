//! What the host meets outside itself: where bytes come from, where they go, and how a run ends.
#![tactic(auto)]

mod cause;
mod clips;
mod disk;
mod gate;
mod lying;
mod sink;
mod source;
mod standard;
mod status;

pub use cause::{Failed, Memory, SinkError};
pub use clips::{ClipStore, MemClips, NeverClips};
pub use disk::{DiskClips, FolderClips};
pub use gate::{Gate, NoGate};
pub use lying::LyingClips;
pub use sink::{MemSink, NeverSink, Sink};
pub use source::{MemSource, NeverSource, Source};
pub use standard::{Reading, StdNotes, StdSink, StdSource, Writing};
pub use status::Status;
