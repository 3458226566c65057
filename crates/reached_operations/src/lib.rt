//! What the remote calls of clients' operations on files and their write-backs ask in each cluster that a run reaches; that what comes to a
//! client fits what its operation waits for; and that so each client keeps the facts of these calls, which are unfinished (this project).
#![tactic(auto)]

mod answered;
mod operations;
mod unfinished;

pub use answered::{call_facts_stay, what_comes_fits, what_is_given_up_fits};
pub use operations::{own_calls_ask_so, write_backs_ask_so};
pub use unfinished::{own_calls_are_unfinished, write_backs_are_unfinished};
