//! The words of the command line, read as the settings of a run.
#![tactic(auto)]

mod laws;
mod settings;
mod words;

pub use laws::numbers_of_the_words;
pub use settings::{
    DEFAULT_BUDGET, DEFAULT_NUMBER, DEFAULT_WORKERS, LAST_FRAME, MOST_BUDGET, MOST_NUMBER,
    MOST_WORKERS, RunMode, Settings,
};
pub use words::{WordsError, read_words};

#[cfg(test)]
mod tests;
