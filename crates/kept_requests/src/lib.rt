//! Each request to which a file server has an answer is answered, or kept until it is (Nelson, Welch and Ousterhout 1988).
#![tactic(auto)]

mod laws;

pub use laws::{
    boot_keeps_such, others_are_passed_over, servers_answer_or_keep, step_answers_or_keeps,
    step_calls_back, step_keeps_such,
};
