ghost use Rattle.std.specs.Prelude.{◌≡◌, ◌↔◌, ℕ, List, length, IsTrue, IfOk, IfErr};
ghost use Rattle.sequence_data.specs.Sequence.{Fits, takes, IsSequence, Refuses};

use hex::FromHexError;
use std::alloc::Global;
use std::marker::Model;
use thiserror::Error;

/// How long the sequence data of an effect is: `unit` bytes for each of `least` to `most` entries. An effect whose unit is 0
/// has none.
#[derive(Clone, Copy, Debug, PartialEq, Eq)]
pub struct SeqRule {
    pub unit: u32,
    pub least: u32,
    pub most: u32,
}

impl SeqRule {
    /// Whether the rule takes so many bytes.
    pub fn takes(self, count: usize) -> bool
        ensures { IsTrue result ↔ Fits self count }
    {
        takes(self, count)
    }
}

// The same, as a test.
fn takes(rule: SeqRule, count: usize) -> bool
    ensures { result ≡ takes rule count }
{
    if rule.unit == 0 {
        return count == 0 && rule.least <= rule.most;
    }
    let units = count / rule.unit as usize;
    count % rule.unit as usize == 0 && rule.least as usize <= units && units <= rule.most as usize
}

/// Why bytes are no sequence data.
#[derive(Clone, Copy, Debug, Drop, PartialEq, Eq, Error)]
pub enum SequenceError {
    /// The text is no hex, or the rule does not take so many bytes.
    #[error("not the sequence data of this effect")]
    BadSequence,
    #[error("out of memory")]
    Memory,
}

/// Sequence data. It never changes, so that all workers may read it at once.
#[derive(Debug, Drop)]
pub struct Sequence {
    bytes: Vec<u8>,
}

impl Model for Sequence {
    ghost use Rattle.std.specs.Prelude.{List, ℕ};
    ghost use Rattle.std.specs.Coded.{coded_list, coded_ℕ};

    ghost Value = { List ℕ };

    ghost coded = { coded_list coded_ℕ };

    ghost view = { λ s. s.bytes.items };
}

impl Sequence {
    /// The bytes.
    pub fn bytes(&self) -> &[u8]
        ensures { result.now ≡ self.now }
    {
        &self.bytes
    }
}

/// Reads sequence data from hex text, two digits a byte in either case, where the rule takes so many bytes.
pub fn read_sequence(alloc: Global, text: &str, rule: SeqRule) -> Result<Sequence, SequenceError>
    ensures read { IfOk result (λ sequence. IsSequence text.now rule sequence) }
    ensures refused { IfErr result (λ why. Refuses why ((bytes : List ℕ) × IsSequence text.now rule bytes)) }
{
    let bytes = match hex::decode(alloc, text) {
        Ok(bytes) => bytes,
        Err(FromHexError::OutOfMemory) => return Err(SequenceError::Memory),
        Err(_) => return Err(SequenceError::BadSequence),
    };
    if rule.takes(bytes.len()) {
        Ok(Sequence { bytes })
    } else {
        Err(SequenceError::BadSequence)
    }
}

/// Sequence data of these bytes, where the rule takes so many.
pub fn keep_sequence(alloc: Global, bytes: &[u8], rule: SeqRule) -> Result<Sequence, SequenceError>
    ensures kept { IfOk result (λ sequence. sequence ≡ bytes.now) }
    ensures fits { IfOk result (λ _. Fits rule (length bytes.now)) }
    ensures refused { IfErr result (λ why. Refuses why (Fits rule (length bytes.now))) }
{
    if !rule.takes(bytes.len()) {
        return Err(SequenceError::BadSequence);
    }
    match bytes.to_vec(alloc) {
        Ok(bytes) => Ok(Sequence { bytes }),
        Err(_) => Err(SequenceError::Memory),
    }
}
