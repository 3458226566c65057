//! The processes of one client kernel, and what it does as the home of the processes that were born here: their calls, wherever
//! they run, their children, their ends, and their kills (Douglis and Ousterhout 1991).
#![tactic(auto)]

mod births;
mod calls;
mod client;
mod cluster;
mod ends;
mod home;
mod issuing;
mod killing;
mod kills;
mod pages;
mod process;
mod procs;
mod saying;
mod waits;
mod words;

pub use client::{ClientProcs, KillState, Leaving, Parked, Unfinished};
pub use cluster::{give_in, is_client};
pub use issuing::child_in;
pub use process::{Proc, ProcState};
pub use words::{packet_of, pid_of, reply_of};
