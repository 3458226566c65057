//! Histories kept by a user, and their check: a text holds a cluster file, a line `=====` and a printed history, which is judged
//! against the one-kernel Unix without running a cluster (this project).
#![tactic(auto)]

mod judgement;
mod judging;

pub use judgement::Judgement;
pub use judging::judge;
