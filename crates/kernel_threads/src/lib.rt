//! Kernels that take turns at one value, each by a worker of its own (this project).
//!
//! The value is `Stepped`: kernel by kernel something happens to it, and it tells when it is over. Workers on threads share it through
//! a turn gate, and the instructions of their processes, the bursts, are done outside the turns; a worker whose kernel has nothing to do
//! sleeps until another one's turn gives it something. The same value can be run on one thread, with what happens next drawn by a seed.
#![tactic(auto)]

mod acts;
mod calls;
mod candidates;
mod rounds;
mod seeds;
mod serving;
mod sleepers;
mod stepped;
mod taking;
mod threads;
mod watch;
mod workers;

pub use rounds::run_rounds;
pub use seeds::run_seeded;
pub use serving::serve;
pub use stepped::{EndBurst, Stepped};
pub use threads::run_threads;
pub use watch::{NoWatch, Point, Watch};
