//! What holds of all histories of the one-kernel Unix, in its own words: ends and what they take away, names, streams, devices and
//! their masters, what devices are asked, whose the processes are, and which replies fit (this project).
#![tactic(auto)]

mod laws;

pub use laws::{
    asks_are_answered_once, asks_come_in_order, deaths_take_away, devices_move, ends_take_away,
    killed_may_die, operations_end_fit, processes_are_of_clients, replies_fit, states_are_tied,
    streams_stay_home, the_dead_stay_dead, things_have_one_name,
};
