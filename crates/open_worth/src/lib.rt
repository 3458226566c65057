//! Whether the records of a trace are worth their units, and among them the opens of moves, judged by one pass over them (this
//! project).
#![tactic(auto)]

mod moved_opens;
mod whole;

pub use moved_opens::moved_opens_are_few;
pub use whole::records_are_worth;
