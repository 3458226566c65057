//! What the operations on files of clients wait for, in each cluster that a run reaches (this project).
#![tactic(auto)]

mod laws;

pub use laws::operations_stay_waiting;
