//! The delay of writes: which dirty blocks of a client wait to be written back, and since when (Nelson, Welch and
//! Ousterhout 1988; that time is counted in recorded steps is this project's).
#![tactic(auto)]

mod delayed_block;
mod delays;

pub use delayed_block::DelayedBlock;
pub use delays::Delays;
