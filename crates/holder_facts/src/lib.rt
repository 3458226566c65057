//! Facts of a client's files' side that every step of its kernel keeps: its syncs wait for answers, and who stands in the queue of a lock
//! waits for that lock (this project).
#![tactic(auto)]

mod queue_facts;
mod sync_facts;

pub use queue_facts::{begins_with_queue_facts, image_keeps_queue_facts, step_keeps_queue_facts};
pub use sync_facts::{
    begins_with_sync_facts, file_step_keeps_sync_facts, image_keeps_sync_facts,
    step_keeps_sync_facts,
};
