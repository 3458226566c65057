//! Histories checked against the one-kernel Unix: whether one Unix kernel without caches, packets or migration gives them for a
//! description, within a bound of instructions (this project).
#![tactic(auto)]

mod applying;
mod checking;
mod laws;
mod reach;
mod replaying;
mod verdict;

pub use applying::{Applied, apply};
pub use checking::check;
pub use laws::{legal_is_legal, not_legal_is_first, steps_are_behind_legal};
pub use reach::{Reach, go_to_call};
pub use replaying::{Replayed, replay};
pub use verdict::Verdict;
