//! A law over the definitions, the contract of a function that does nothing.

ghost use Rattle.host_run.specs.Laws.{NumbersOfARun};

/// The longest text of a project in bytes, and that words may ask for as many workers as draw a span.
pub fn numbers_of_a_run()
    ensures { NumbersOfARun }
{}
