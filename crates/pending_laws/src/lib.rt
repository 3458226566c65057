//! What the operations of a client's files' side wait for (Nelson, Welch and Ousterhout 1988; Welch 1986): in the end, for remote calls.
#![tactic(auto)]

mod laws;

pub use laws::nothing_is_pending;
