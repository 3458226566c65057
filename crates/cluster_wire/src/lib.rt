//! What a kernel's step does to the wire between the kernels: its requests and answers go out, packets come to it, and timers fire; and
//! how what happened to its packets is told.
#![tactic(auto)]

mod arriving;
mod calls;
mod firing;
mod noting;
mod servers;
mod telling;

pub use arriving::{Arrived, arrive, asks_prefix, copy_to, end_serving};
pub use calls::{answer_all, begin_all, next_call};
pub use firing::{fire, may_fire};
pub use noting::{note_all, note_fault, note_faults};
pub use telling::{Said, Sent};
