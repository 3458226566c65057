//! Lending idle hosts (this project): a daemon knows which workstations are idle, lends them to borrowers, and takes them
//! back when their owners return (after Douglis and Ousterhout 1991).
#![tactic(auto)]

mod answer;
mod event;
mod host;
mod lending;

pub use answer::LendAnswer;
pub use event::LendEvent;
pub use lending::{Lending, run};
