//! What a client's kernel takes of other kernels' requests it answers in the step or keeps: as a `wait` that is parked, or as an ask of a
//! pseudo-device here (this project).
#![tactic(auto)]

mod laws;
mod owed;

pub use laws::{
    begins_with_none, images_keep_them, kept_or_answered, new_are_taken, nothing_else_is_kept,
    others_are_left, requests_are_taken, steps_take_so,
};
pub use owed::{answered_is_there, kept_is_there, owed_are_answered_or_kept};
