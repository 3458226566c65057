//! Laws of the clients of each cluster that a run reaches, from its boot on by changes of its kernels.
#![tactic(auto)]

mod laws;

pub use laws::{
    clients_know_their_cluster, homes_are_own, places_stay_once, rounds_stay_enough,
    turns_stay_in_order, what_comes_can_be_taken, what_is_taken_is_new,
};
