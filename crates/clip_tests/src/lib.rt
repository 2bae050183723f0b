//! Tests of clips: the stores that hold their files, and reading them, through the public calls; and of pictures as the bytes
//! of files.
#![tactic(auto)]

#[cfg(test)]
mod clips;
#[cfg(test)]
mod files;
#[cfg(test)]
mod pictures;
#[cfg(test)]
mod stores;
