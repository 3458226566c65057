//! Which rule a trace breaks first, of those that are judged at each run (this project).
#![tactic(auto)]

mod judging;
mod rule;

pub use judging::{broken_when_formed, first_broken};
pub use rule::Rule;
