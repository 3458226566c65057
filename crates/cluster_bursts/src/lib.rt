//! The instructions that the processes of a cluster do, burst by burst: which process is next, and what becomes of its burst.
#![tactic(auto)]

mod bursts;
mod job;
mod outcome;
mod running;

pub use bursts::{begin_burst, end_burst, has_job};
pub use job::{Burst, Job};
pub use outcome::BurstOutcome;
pub use running::run_job;
