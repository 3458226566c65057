//! Whether the packets of a trace are worth their units, each part judged by one pass over its records (this project).
#![tactic(auto)]

mod counts;
mod deliveries;
mod faults;
mod losses;
mod pairs;

pub use deliveries::deliveries_are_few;
pub use faults::faults_are_few;
pub use losses::losses_are_met;
