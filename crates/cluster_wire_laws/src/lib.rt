//! What a run's trace says of its wire: which of its records count acts of the wire, and how many there are at most.
#![tactic(auto)]

mod laws;

pub use laws::{
    ends_are_told, expiries_follow_losses, few_packets_come, happenings_are_told, records_are_acts,
    replies_were_asked, sendings_were_asked, six_copies_each, six_packets_each,
};
