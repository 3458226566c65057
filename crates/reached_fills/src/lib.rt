//! The order in which operations of clients fill blocks, in each cluster that a run reaches (this project).
#![tactic(auto)]

mod laws;

pub use laws::{fills_stay_in_order, operations_stay_short};
