//! A pseudo-device's table of asks against the one-kernel Unix: an ask, a taking, an answer, an operation's end and the last master's
//! close are made there too, and the table tells the same afterwards (this project).
#![tactic(auto)]

mod laws;

pub use laws::{
    asks_as_one, devices_go_on, devices_run_as_one, ends_as_one, gets_as_one, last_master_as_one,
    last_master_goes, masters_leave_asks, new_devices_are_told, puts_as_one,
};
