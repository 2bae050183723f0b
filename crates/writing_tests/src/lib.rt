//! Tests of writing projects.
#![tactic(auto)]

#[cfg(test)]
mod written;
