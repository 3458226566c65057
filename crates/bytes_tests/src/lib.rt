//! Tests of `sprite_bytes`: sources and sinks in memory and over the standard library, their faults, and messages; and of
//! `sprite_ids`: the ranges of names and the numbers of errors; with values that were worked out by hand.
#![tactic(auto)]

#[cfg(test)]
mod ids;
#[cfg(test)]
mod tests;
