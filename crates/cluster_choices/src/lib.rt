//! What may happen next at a kernel of a cluster apart from its processes, and what happens then: a packet comes, a timer fires, or a
//! block is written back.
#![tactic(auto)]

mod choice;
mod choosing;
mod delivery;

pub use choice::Choice;
pub use choosing::{choice_at, choice_count};
pub use delivery::happen;
