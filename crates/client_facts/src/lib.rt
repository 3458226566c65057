//! The facts of a client kernel's state that every step keeps, as definitions, with the laws of them that are proved; and the law
//! that the turns in which a step works off what it woke are enough.
#![tactic(auto)]

mod begins;
mod cached;
mod file_examples;
mod going_on;
mod places;
mod proc_examples;
mod rounds;

pub use begins::{files_begin_with_facts, homes_begin_with_facts, procs_begin_with_facts};
pub use cached::sound_holds_cached;
pub use file_examples::{busy_has_file_facts, file_facts_can_fail};
pub use going_on::{going_on_keeps, step_keeps_rest, turns_are_enough};
pub use places::{
    arrivals_keep_places, births_keep_places, evictions_keep_places, kills_keep_places,
    round_keeps_places, rounds_keep_places,
};
pub use proc_examples::{
    busy_has_home_facts, busy_has_proc_facts, home_facts_can_fail, proc_facts_can_fail,
};
pub use rounds::quiet_stays;
