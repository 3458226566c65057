//! Whether the kills of a trace are heeded: told to the kernels where the killed processes are, which issue no call there once it is
//! known (this project).
#![tactic(auto)]

mod away;
mod keys;
mod kills;
mod known;
mod sent;
mod silence;
mod telling;
mod told;
mod whole;

pub use silence::killed_processes_are_silent;
pub use telling::kills_are_told;
pub use whole::kills_are_heeded;
