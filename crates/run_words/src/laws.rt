//! The numbers that the words are held to.
ghost use Rattle.run_words.specs.Laws.{NumbersOfTheWords};

/// The most digits of a number, and the bounds and defaults of workers, frames, budget and number.
pub fn numbers_of_the_words()
    ensures { NumbersOfTheWords }
{}
