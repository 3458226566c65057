//! How the names stand in each state of the one-kernel Unix (this project).
#![tactic(auto)]

mod laws;

pub use laws::states_name_well;
