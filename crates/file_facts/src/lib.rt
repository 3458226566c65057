//! Facts of the files' side of a client's kernel that every step of that side keeps: of its remote calls (this project).
#![tactic(auto)]

mod call_facts;
mod call_steps;

pub use call_facts::{
    begins_with_call_facts, file_step_keeps_call_facts, growing_keeps_call_facts,
    image_keeps_call_facts,
};
pub use call_steps::step_keeps_call_facts;
