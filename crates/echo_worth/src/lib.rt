//! Whether the tries of a trace's echoes and broadcasts end, and nothing goes where an echo was given up (this project).
#![tactic(auto)]

mod echoes;
mod judging;
mod kept;
mod keys;
mod whole;

pub use judging::tries_end;
pub use whole::expires_are_worth;
