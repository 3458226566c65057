//! A home's table of its processes against the one-kernel Unix: what it answers is what one kernel answers, and it tells the same
//! afterwards (this project).
#![tactic(auto)]

mod laws;

pub use laws::{
    deaths_as_one, homes_answer_as_one, homes_run_as_one, homes_run_from_the_start, kills_as_one,
    requests_are_served, requests_go_on_fitting, starts_as_one, tables_go_on, tables_tell,
    waits_are_blocked,
};
