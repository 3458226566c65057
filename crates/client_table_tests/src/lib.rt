//! Tests of the tables of a client's files: its cache, its delayed writes and its prefixes, with rows that were worked out by hand.
#![tactic(auto)]

#[cfg(test)]
mod cache;
#[cfg(test)]
mod delays;
#[cfg(test)]
mod prefixes;
