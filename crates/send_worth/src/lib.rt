//! Whether the packets of a trace go for the sake of calls, judged by one pass over its records (this project).
#![tactic(auto)]

mod free_sends;
mod sends;

pub use free_sends::free_sends_are_few;
pub use sends::{sends_are_issued, sends_are_worth};
