//! What a run's trace tells of packets and timers, in the words of its own records.
#![tactic(auto)]

mod laws;

pub use laws::{
    deliveries_are_of_sendings, faults_are_of_packets, last_tries_are_the_eighth,
    timers_and_faults_are_worth, tries_are_over_behind_losses,
};
