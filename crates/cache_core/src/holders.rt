ghost use Rattle.std.specs.Prelude.{◌≡◌, ◌++◌, [], ◌∷◌, OnOk, OnErr, nat_eq, length, position};
ghost use Rattle.std.specs.List.{list_any};
ghost use Rattle.cache_core.specs.Holds.{without_one};

use std::alloc::{AllocError, Global};
use std::marker::Model;

/// The passes that hold a value, in the order in which they took it. A pass may stand in it more than once.
#[derive(Debug, Drop)]
pub struct Holders {
    passes: Vec<u32>,
}

impl Model for Holders {
    ghost use Rattle.std.specs.Prelude.{List, ℕ};

    ghost Value = { List ℕ };

    ghost view = { λ h. h.passes.items };
}

impl Holders {
    /// No pass. It takes no memory.
    pub fn new(alloc: Global) -> Holders
        ensures { result ≡ [] }
    {
        Holders {
            passes: Vec::new(alloc),
        }
    }

    /// One more hold of a pass.
    pub fn add(&mut self, pass: u32) -> Result<(), AllocError>
        ensures ok { OnOk result (self.new ≡ self.old ++ pass ∷ []) }
        ensures err { OnErr result (self.new ≡ self.old) }
    {
        self.passes.push(pass)?;
        Ok(())
    }

    /// One hold of a pass goes, the first. Where there is none, nothing changes.
    pub fn release(&mut self, pass: u32)
        ensures { self.new ≡ without_one pass self.old }
    {
        if let Some(place) = place_of(&self.passes, pass) {
            self.passes.remove(place);
        }
    }

    /// Whether a pass holds the value.
    pub fn has(&self, pass: u32) -> bool
        ensures { result ≡ list_any (nat_eq pass) self.now }
    {
        self.passes.contains(&pass)
    }

    /// Whether no pass holds the value.
    pub fn is_empty(&self) -> bool
        ensures { result ≡ nat_eq (length self.now) 0 }
    {
        self.passes.is_empty()
    }
}

// Where the first hold of a pass stands.
fn place_of(passes: &[u32], pass: u32) -> Option<usize>
    ensures { result ≡ position (nat_eq pass) passes.now }
{
    passes.iter().position(|holder| pass == *holder)
}
