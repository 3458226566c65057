//! What the remote calls of a client's operations on files ask, and its write-backs, behind each step of its kernel; and that nothing is left
//! of one that has ended (this project).
#![tactic(auto)]

mod endings;
mod laws;

pub use endings::ended_are_gone;
pub use laws::{calls_are_numbered, operations_ask_so, write_backs_go_so};
