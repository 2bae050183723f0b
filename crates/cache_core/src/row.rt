ghost use Rattle.std.specs.Prelude.{◌≡◌, OnOk, OnErr, nat_eq};

use crate::holders::Holders;
use std::alloc::AllocError;

/// A row of the cache: the value of a class and key, or the computation of it.
#[derive(Debug, Drop)]
pub struct Row {
    pub class: u8,
    pub key: u128,
    pub state: State,
}

/// How far a row's value is.
#[derive(Debug, Drop)]
pub enum State {
    /// The owner pass computes it.
    Running {
        owner: u32,
    },
    /// It is there. Its size is approximate, in bytes.
    Live {
        serial: u64,
        size: u32,
        holders: Holders,
    },
}

impl State {
    ghost use Rattle.cache_core.specs.Rows.{is_running, is_live, is_held_by, is_idle, size_of, held_by, released_by};

    /// Whether it is Running with this owner.
    pub fn is_running(&self, pass: u32) -> bool
        ensures { result ≡ is_running pass self.now }
    {
        match self {
            State::Running { owner } => *owner == pass,
            State::Live { .. } => false,
        }
    }

    /// Whether it is Live with this serial.
    pub fn is_live(&self, wanted: u64) -> bool
        ensures { result ≡ is_live wanted self.now }
    {
        match self {
            State::Running { .. } => false,
            State::Live { serial, .. } => *serial == wanted,
        }
    }

    /// Whether it is Live and held by this pass.
    pub fn is_held_by(&self, pass: u32) -> bool
        ensures { result ≡ is_held_by pass self.now }
    {
        match self {
            State::Running { .. } => false,
            State::Live { holders, .. } => holders.has(pass),
        }
    }

    /// Whether it is Live and no pass holds it.
    pub fn is_idle(&self) -> bool
        ensures { result ≡ is_idle self.now }
    {
        match self {
            State::Running { .. } => false,
            State::Live { holders, .. } => holders.is_empty(),
        }
    }

    /// What the row adds to the live bytes.
    pub fn size(&self) -> u32
        ensures { result ≡ size_of self.now }
    {
        match self {
            State::Running { .. } => 0,
            State::Live { size, .. } => *size,
        }
    }

    // One more hold of the pass, where it is Live.
    pub(crate) fn hold(&mut self, pass: u32) -> Result<(), AllocError>
        ensures ok { OnOk result (self.new ≡ held_by pass self.old) }
        ensures err { OnErr result (self.new ≡ self.old) }
    {
        match self {
            State::Running { .. } => Ok(()),
            State::Live { holders, .. } => holders.add(pass),
        }
    }

    // One hold of the pass less, where it is Live.
    pub(crate) fn release(&mut self, pass: u32)
        ensures { self.new ≡ released_by pass self.old }
    {
        match self {
            State::Running { .. } => {}
            State::Live { holders, .. } => holders.release(pass),
        }
    }
}
