//! What is true of each file server of a reached cluster (Nelson, Welch and Ousterhout 1988).
#![tactic(auto)]

mod laws;

pub use laws::{files_are_busy, files_are_there};
