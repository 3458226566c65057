//! The walk through the functions of a server's kernel, and through its beginning, for any fact of it; and what a
//! server tells and sends.
#![tactic(auto)]

mod telling;

pub use telling::{servers_call_back_so, servers_tell_so};
