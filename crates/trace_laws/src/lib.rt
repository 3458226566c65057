//! Laws of traces alone: how what holds of a trace goes on to a longer one, that records of faults can be left out, and what a
//! process's progress tells of its calls (this project).
#![tactic(auto)]

mod appended;
mod faults;
mod numbers;

pub use appended::{
    backward_rules_go_on, forward_rules_go_on, look_aheads_append, look_backs_append, pasts_append,
    rules_go_on, tests_append,
};
pub use faults::{
    faults_can_be_left_out, faults_can_be_left_out_behind, faults_stand_apart_on,
    formed_without_faults, steps_stand_apart,
};
pub use numbers::{
    entries_count, once_tells_numbers, progress_tells_calls, progress_tells_numbers,
};
