//! The rules of a trace on the use of caches: what a call that is done in a cache uses (this project).
#![tactic(auto)]

mod cached_calls;
mod entry_facts;
mod following;
mod judging;
mod keys;
mod local;

pub use cached_calls::cached_calls_use_held_blocks;
pub use entry_facts::{EntryFacts, LocalUse};
pub use following::Following;
