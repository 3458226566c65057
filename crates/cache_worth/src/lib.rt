//! Whether the caches of a trace move blocks for a cause, judged in passes over its records (this project).
#![tactic(auto)]

mod cleaned;
mod counts;
mod fetched;
mod sent;
mod since;
mod stamps;
mod whole;

pub use cleaned::blocks_are_cleaned_once_sent;
pub use counts::blocks_move_moderately;
pub use fetched::blocks_are_fetched_anew;
pub use sent::blocks_are_sent_once_changed;
pub use stamps::stamps_are_taken_in_order;
pub use whole::caches_are_worth;
