//! What a client's kernel is told when the cluster begins, and never changes.
#![tactic(auto)]

mod constants;

pub use constants::{begins_knowing, image_keeps_knowing, step_keeps_knowing};
