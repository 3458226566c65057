//! What a client's kernel does as the home of its processes is what a home does: calls, kills and deaths, each with its entry (this
//! project).
#![tactic(auto)]

mod laws;

pub use laws::{
    answers_are_acts, calls_are_acts, deaths_are_acts, deeds_run_as_one, heard_are_acts,
    homes_are_left, issued_are_acts, kills_heard_are_acts, parked_are_woken, places_are_noted,
    places_heard_are_noted, served_are_acts,
};
