//! Who has the locks of streams at clients, in each cluster that a run reaches (this project).
#![tactic(auto)]

mod laws;

pub use laws::locks_stay_held;
