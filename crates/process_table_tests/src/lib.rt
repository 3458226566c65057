//! Tests of the tables of a client's processes: their streams, the processes that it is home to, and its pseudo-devices, with rows that
//! were worked out by hand.
#![tactic(auto)]

#[cfg(test)]
mod devices;
#[cfg(test)]
mod homes;
#[cfg(test)]
mod streams;
