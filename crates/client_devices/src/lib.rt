//! The pseudo-devices of one client kernel: what its processes do with those here and elsewhere, and what the masters that run
//! here are asked and answer (Welch and Ousterhout 1988).
#![tactic(auto)]

mod asking;
mod asks;
mod getting;
mod making;
mod masters;
mod opened;
mod tables;

pub use asking::{hear_ask, serve_ask, use_device};
pub use making::{close_master, end_making, make_device};
pub use masters::{pd_get, pd_put};
