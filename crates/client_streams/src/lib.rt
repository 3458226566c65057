//! The streams of a client kernel's processes: their closes, of one descriptor or of all at the end of a process, and their
//! moves with a process (Nelson, Welch and Ousterhout 1988; Douglis and Ousterhout 1991; Welch and Ousterhout 1988).
#![tactic(auto)]

mod close_object;
mod closing;
mod descriptors;
mod moving;

pub use closing::{close_answered, run_close, start_close};
pub use descriptors::{Named, descriptor_of};
pub use moving::{move_answered, move_stream, run_move};
