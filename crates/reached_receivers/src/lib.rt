//! Where the packets of a reached cluster go (Welch 1986): to its kernels, and each request to those that take such.
#![tactic(auto)]

mod laws;

pub use laws::{
    calls_go_right, clients_take_requests, domains_hang, kernels_are_of_their_kind,
    packets_go_inside, requests_are_of_their_kind, requests_have_answers,
};
