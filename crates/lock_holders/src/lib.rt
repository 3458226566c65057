//! That who has the lock of a stream of a client has an operation that has it, which every step of its kernel keeps (this project).
#![tactic(auto)]

mod holders;

pub use holders::{begins_with_holder_facts, image_keeps_holder_facts, step_keeps_holder_facts};
