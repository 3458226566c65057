//! The rule of a trace on files that several kernels use at a time: a kernel goes on caching a file unless it is shared for writing, or
//! truncated while it is open (Nelson, Welch and Ousterhout 1988).
#![tactic(auto)]

mod judging;
mod kept;
mod marks;
mod opens;
mod sharing;
mod stops;

pub use judging::caching_stops_only_for_sharing;
