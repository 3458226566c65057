//! The rules of a trace on blocks that leave a cache, each judged in one pass over its records (this project).
#![tactic(auto)]

mod ages;
mod drops;
mod held;
mod marking;
mod syncs;
mod versions;
mod write_backs;

pub use drops::blocks_are_dropped_for_a_cause;
pub use marking::Marking;
pub use write_backs::blocks_are_written_back_for_a_cause;
