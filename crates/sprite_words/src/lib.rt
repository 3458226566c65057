//! The words of the command line, the command that they spell, and what a command writes (this project).
#![tactic(auto)]

mod command;
mod number;

pub use command::{Command, command_of};
