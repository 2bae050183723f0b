//! Tests of times, streams and the rules on projects, through their public calls.
#![tactic(auto)]

#[cfg(test)]
mod bases;
#[cfg(test)]
mod clips;
#[cfg(test)]
mod effects;
#[cfg(test)]
mod fx_ranks;
#[cfg(test)]
mod generated;
#[cfg(test)]
mod nested;
#[cfg(test)]
mod plain;
#[cfg(test)]
mod rules;
#[cfg(test)]
mod schemas;
#[cfg(test)]
mod streams;
#[cfg(test)]
mod times;
