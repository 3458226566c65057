//! A client's kernel, whatever comes to it, is a home from its beginning on: its table is the first one behind acts of a home (this
//! project).
#![tactic(auto)]

mod laws;

pub use laws::{boots_with_first, runs_are_deeds, steps_are_deeds};
