//! The rules of a trace on where entries are made and where processes run, each judged in one pass over its records (this project).
#![tactic(auto)]

mod entries;
mod request_at;
mod stand;

pub use entries::entries_stand_at_their_kernels;
