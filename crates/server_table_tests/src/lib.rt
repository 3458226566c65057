//! Tests of the tables of a file server: the bytes of its files, their versions, its shadow streams and its swapped pages,
//! with rows that were worked out by hand.
#![tactic(auto)]

#[cfg(test)]
mod shadows;
#[cfg(test)]
mod store;
#[cfg(test)]
mod swap;
#[cfg(test)]
mod versions;
