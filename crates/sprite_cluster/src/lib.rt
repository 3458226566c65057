//! The cluster: its kernels, the packets between them and the trace of all that they do, one kernel's step at a time.
#![tactic(auto)]

mod cluster;
mod finishing;
mod origin;
mod stepped;
mod writing;

pub use cluster::Cluster;
pub use origin::Origin;
