//! The calls of the one-kernel Unix: one small function for each, named as the definition is. What each call comes to is exactly
//! what the definition says, whatever the other processes are.
#![tactic(auto)]

mod answers;
mod came;
mod devices;
mod entering;
mod entry;
mod family;
mod faults;
mod names;
mod opening;
mod outcomes;
mod running;
mod same;
mod streams;

pub use came::Came;
pub use entering::die;
pub use entry::{enter_ask, enter_done, enter_whole};
pub use outcomes::outcome;
pub use same::{same_call, same_reply};
