//! Counting those records of a trace that meet a test, one after another (this project).
#![tactic(auto)]

mod counting;

pub use counting::added;
