//! The tables of a client kernel's files, what waits in them, and the small steps of which all others are made: names,
//! streams and their locks, cached data, delayed writes, and what a step says (Nelson, Welch and Ousterhout 1988; Welch and
//! Ousterhout 1986; Welch 1986).
#![tactic(auto)]

mod blocks;
mod boot;
mod client_files;
mod closes;
mod extent;
mod fillers;
mod locks;
mod moves;
mod names;
mod pending;
mod saying;
mod states;
mod steps;
mod streams;
mod works;
mod write_backs;

pub use client_files::ClientFiles;
pub use extent::Extent;
pub use moves::{CloseWork, ClosingOf, MoveWork, Report};
pub use names::{NameCall, NameKind, NameWork};
pub use pending::Pending;
pub use saying::{about, plain, to_one};
pub use states::{CloseState, DataState, MoveState, NameState, SyncState};
pub use works::{DataCall, DataKind, SyncCall, WriteBackOut};
