//! The settings of a run, with their bounds and defaults.

/// The greatest number that `--from` and `--to` may say.
pub const LAST_FRAME: u32 = 65_535;

/// The workers of a render where the words say none.
pub const DEFAULT_WORKERS: u32 = 4;

/// The most workers that the words may ask for.
pub const MOST_WORKERS: u32 = 64;

/// The bytes that cached values may take where the words say none.
pub const DEFAULT_BUDGET: u64 = 536_870_912;

/// The most bytes that cached values may be given.
pub const MOST_BUDGET: u64 = 1_099_511_627_776;

/// The number of a generated project where the words say none.
pub const DEFAULT_NUMBER: u32 = 1;

/// The greatest number of a generated project.
pub const MOST_NUMBER: u32 = 4_294_967_295;

/// What the words of the command line ask for. `from` and `to` are the first and the last frame, both included; where
/// there is no `to`, the last frame of the root is the last. `budget` is in bytes, and `number` is the number of a generated
/// project. The rules of the words are this project's own.
#[derive(Clone, Copy, Debug, Drop, PartialEq, Eq)]
pub struct Settings {
    pub mode: RunMode,
    pub workers: u32,
    pub from: u32,
    pub to: Option<u32>,
    pub budget: u64,
    pub number: u32,
}

/// What a run is to do.
#[derive(Clone, Copy, Debug, Drop, PartialEq, Eq)]
pub enum RunMode {
    /// Draw, and write the file of the frames.
    Render,
    /// Check the project, its clips and the span, and write its measures.
    Check,
    /// Draw, and write the sums of each frame's channels.
    Summary,
    /// The same for the project of a number.
    Demo,
}
