//! Sequence data: the bytes that an effect keeps beside its parameters, constant while it renders.
#![tactic(auto)]

mod laws;
mod sequence;
#[cfg(test)]
mod tests;

pub use laws::worked_sequences;
pub use sequence::{SeqRule, Sequence, SequenceError, keep_sequence, read_sequence};
