//! What a server answers and keeps (Nelson, Welch and Ousterhout 1988), and which domains it serves (Welch and Ousterhout 1986).
#![tactic(auto)]

mod servers;

pub use servers::{
    roots_are_served, roots_stay, servers_answer_so, servers_begin_with_none, servers_keep_so,
};
