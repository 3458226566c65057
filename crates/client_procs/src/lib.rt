//! A client kernel: one step of it does with its files, processes, pseudo-devices and moves what a call of a process, a request
//! of another kernel or an answer asks (Nelson, Welch and Ousterhout 1988; Welch and Ousterhout 1986 and 1988; Douglis and
//! Ousterhout 1991).
#![tactic(auto)]

mod answers;
mod arriving;
mod booting;
mod fitting;
mod issuing;
mod launching;
mod moving;
mod readers;
mod requests;
mod step;
mod turns;

pub use booting::boot;
pub use client_homes::ClientProcs;
pub use fitting::can_take;
pub use readers::{all_ended, due, image, number, ready, set_image};
pub use step::take;
