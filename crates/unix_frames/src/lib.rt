//! What the entries of the one-kernel Unix leave as it was, and what holds of all its states (this project).
#![tactic(auto)]

mod laws;

pub use laws::{entries_leave, states_are_in_order};
