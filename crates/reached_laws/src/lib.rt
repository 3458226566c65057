//! Laws of each cluster that a run reaches, from its boot on by changes of its kernels, and of what its trace tells.
#![tactic(auto)]

mod laws;

pub use laws::{
    deliveries_have_sendings, records_are_by_kernels, timers_and_faults_are_worth,
    timers_and_faults_have_causes,
};
