//! Tests of the host's program and of what it stands on, through their public calls.
#![tactic(auto)]

#[cfg(test)]
mod area;
#[cfg(test)]
mod clips;
#[cfg(test)]
mod drawn;
#[cfg(test)]
mod effects;
#[cfg(test)]
mod files;
#[cfg(test)]
mod lying;
#[cfg(test)]
mod mixed;
#[cfg(test)]
mod modes;
#[cfg(test)]
mod nested;
#[cfg(test)]
mod nodes;
#[cfg(test)]
mod outside;
#[cfg(test)]
mod runs;
#[cfg(test)]
mod shared;
#[cfg(test)]
mod workers;
