//! What a cluster waits for that can't go on (Nelson, Welch and Ousterhout 1988; Welch 1986): which remote calls are unfinished then, and where
//! their requests are kept.
#![tactic(auto)]

mod calls;
mod clients;
mod runs;
mod stalls;

pub use calls::{all_taken_are_kept, owners_alone_hold, servers_keep_such, taken_are_kept};
pub use clients::{
    callbacks_go_to_clients, clients_keep_taken, clients_keep_unfinished, no_callback_waits,
    no_other_is_left_at_clients, waits_and_asks_are_left,
};
pub use runs::{stalled_leaves_waits, stalled_stands_still, still_cant_go_on};
pub use stalls::{
    all_calls_are_taken, all_unfinished_are_kept, no_call_is_left_at_servers,
    no_callback_nothing_kept, none_is_left_at_servers, nothing_flies, stalled_cant_go_on,
    unfinished_are_kept,
};
