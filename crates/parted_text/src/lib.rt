//! Texts of two parts: a cluster file, and behind a line `=====` what a run of that cluster left (this project).
#![tactic(auto)]

mod parts_end;
mod reading;

pub use parts_end::PartsEnd;
pub use reading::{MOST_INSTRUCTIONS, read_parts};
