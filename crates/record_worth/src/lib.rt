//! Whether the records of a trace are made of what is there: blocks, stamps, opens, domains and moves, each part judged by one pass
//! over them (this project).
#![tactic(auto)]

mod blocks;
mod callbacks;
mod keys;
mod moves;
mod prefixes;
mod stamps;
mod streams;
mod whole;

pub use blocks::blocks_come_and_go;
pub use callbacks::callbacks_are_first;
pub use moves::moves_begin_and_end;
pub use prefixes::{prefixes_are_learned_once, prefixes_are_served};
pub use stamps::stamps_rise;
pub use streams::streams_are_opened;
pub use whole::records_are_made;
