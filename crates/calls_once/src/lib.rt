//! Whether each call of a trace is issued, entered and returned once, in this order, found in one pass over the trace (this
//! project).
#![tactic(auto)]

mod once;
mod progress;

pub use once::calls_are_once;
