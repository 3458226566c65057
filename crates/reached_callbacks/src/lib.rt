//! The callbacks that are out at the servers of a reached cluster are its unfinished remote calls: a client answers each in the step in which
//! it comes, and so none is out where the cluster can't go on (Nelson, Welch and Ousterhout 1988).
#![tactic(auto)]

mod answers;
mod callbacks;
mod stalls;
mod waits;

pub use answers::{
    callbacks_are_answered, callbacks_are_flushed, no_client_has_one, replies_go_to_callers,
};
pub use callbacks::{callbacks_are_calls, each_has_row, each_is_out, servers_call_back};
pub use stalls::{clients_have_all, no_callback_is_out, servers_are_done};
pub use waits::only_waits_are_left;
