//! A process on its way from one kernel to another: from its freeze to its thaw it is owned by one state at a time, and none of
//! these states can run it (Douglis and Ousterhout 1991).
#![tactic(auto)]

mod arrival;
mod arrived;
mod freeze;
mod frozen;
mod laws;
mod moves;
mod packing;
mod process;
mod staying;
mod unpacking;

pub use arrival::{Arrival, Load};
pub use arrived::Arrived;
pub use freeze::Freeze;
pub use frozen::{Frozen, MoveStep, Moving, Sent};
pub use laws::{each_lands, moves_end};
pub use moves::MovedStream;
pub use process::Process;
