//! Facts of the locks of a client's streams, of who waits for them, and of its turns to fill blocks, that every step of its kernel keeps
//! (this project).
#![tactic(auto)]

mod lock_facts;
mod lock_steps;
mod wait_facts;

pub use lock_facts::{begins_with_lock_facts, file_step_keeps_lock_facts, image_keeps_lock_facts};
pub use lock_steps::{
    begins_with_turn_facts, image_keeps_turn_facts, step_keeps_lock_facts, step_keeps_turn_facts,
    step_keeps_wait_facts,
};
pub use wait_facts::{begins_with_wait_facts, file_step_keeps_wait_facts, image_keeps_wait_facts};
