//! What a run records, and the rules that its records keep: the trace, its journal and the counts of its records.
#![tactic(auto)]

mod closed;
mod counts;
pub mod judged;
mod laws;
mod trace;

pub use closed::Closed;
pub use laws::{journals_grow, look_backs_grow, pasts_are_told, units_never_fall};
pub use trace::Trace;
