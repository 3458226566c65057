//! Remote calls between kernels, each at most once, over a link that may lose, double and delay packets (Welch 1986).
#![tactic(auto)]

mod bodies;
mod call;
mod calls;
mod copies;
mod laws;
mod ports;
mod queries;
mod receivers;
mod results;
mod table;
mod wire;

pub use call::{Arrival, Call, CallState, PacketCopy, Part, Receiver};
pub use laws::{
    a_packet_is_lost_before_a_timer_fires, calls_are_steps, copies_have_numbers_of_their_own,
    given_up_at_the_eighth_try, given_up_for_cause, packets_come_a_few_times_at_most,
    replies_come_at_most_once, requests_come_at_most_once, unfinished_calls_stay,
};
pub use results::{Delivered, Expired};
pub use wire::Wire;
