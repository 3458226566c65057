//! The first of those operations of a client that fill blocks does so, at every step of its kernel (this project).
#![tactic(auto)]

mod fill_facts;
mod no_cache;
mod short_facts;

pub use fill_facts::{
    begins_with_fill_facts, fills_are_in_order, image_keeps_fill_facts, step_keeps_fill_facts,
};
pub use no_cache::{
    begins_with_no_cache, image_keeps_no_cache, no_turns_are_in_order, step_keeps_no_cache,
};
pub use short_facts::{begins_short, image_keeps_short, step_keeps_short};
