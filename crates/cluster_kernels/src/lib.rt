//! The kernels of a cluster, each by its own step, and what they tell as they take their turns.
#![tactic(auto)]

mod booting;
mod kernel_state;
mod state;

pub use booting::boot;
pub use kernel_state::{KernelState, has_ended};
pub use state::State;
