//! Whether the bursts of a trace's processes do the instructions that there are before their calls, and whether its processes do more
//! than a bound (this project).
#![tactic(auto)]

mod behind;
mod bursts;
mod cost;
mod counting;
mod doing;
mod going;
mod reasons;
mod ways;

pub use bursts::bursts_are_worth;
pub use cost::passes_bound;
pub use counting::Counts;
