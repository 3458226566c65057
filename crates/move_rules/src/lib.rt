//! The rule of a trace on where processes run and how they move, judged in one pass over its records (this project).
#![tactic(auto)]

mod arrivals;
mod evictions;
mod movers;
mod moves;
mod whereabouts;

pub use moves::processes_run_where_they_are;
