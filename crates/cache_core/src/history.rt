ghost use Rattle.std.specs.Prelude.{◌≡◌, Some, IfOk, IfErr};
ghost use Rattle.cache_core.specs.History.{replay_of};
ghost use Rattle.cache_core.specs.Cause.{IsCause};

use crate::entry::Entry;
use crate::step::{Core, CoreError};
use std::alloc::Global;
use thiserror::Error;

/// A history has fewer entries than this: what keeps one refuses room earlier.
pub const HISTORY_LIMIT: u64 = 1 << 62;

/// Why a history was not replayed.
#[derive(Clone, Copy, Debug, PartialEq, Eq, Error)]
pub enum ReplayError {
    /// The entry at this place is the first that does not step.
    #[error("entry {at} does not step")]
    Illegal { at: u64 },
    #[error("out of memory")]
    Memory,
}

/// The core that a history leaves, from no rows. It is refused at the first entry that does not step.
pub fn replay(alloc: Global, budget: u64, entries: &[Entry]) -> Result<Core, ReplayError>
    ensures ok { IfOk result (λ core. replay_of budget entries.now ≡ Some core) }
    ensures cause { IfErr result (IsCause budget entries.now) }
{
    let mut core = Core::new(alloc, budget);
    for (at, entry) in entries.iter().enumerate() {
        match core.apply(alloc, entry) {
            Ok(()) => {}
            Err(CoreError::Illegal) => return Err(ReplayError::Illegal { at: at as u64 }),
            Err(CoreError::Memory) => return Err(ReplayError::Memory),
        }
    }
    Ok(core)
}
