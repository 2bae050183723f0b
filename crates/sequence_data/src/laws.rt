//! A law over the definitions, the contract of a function that does nothing.

ghost use Rattle.sequence_data.specs.Laws.{WorkedSequences};

/// Sequences of entries of three bytes, and of none.
pub fn worked_sequences()
    ensures { WorkedSequences }
{}
