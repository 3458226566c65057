//! What a step of a kernel tells of prefixes (Welch and Ousterhout 1986): which servers it learns, and for which it asks.
#![tactic(auto)]

mod prefixes;

pub use prefixes::{
    clients_begin_with_none, clients_learn_by_answers, clients_learn_so, images_leave_prefixes,
    servers_learn_none,
};
