//! The rounds in which a client's kernel works off what a step set free are enough, and every step keeps what they need.
#![tactic(auto)]

mod enough;
mod file_steps;
mod one_thing;

pub use enough::{begins_so, images_keep_this, rounds_are_enough, rounds_keep_this};
pub use file_steps::{file_steps_are_enough, file_steps_keep_this};
pub use one_thing::{
    begins_with_one_thing, images_keep_one_thing, one_thing_is_enough, steps_are_enough,
    steps_keep_one_thing,
};
