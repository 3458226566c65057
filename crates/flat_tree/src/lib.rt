//! The names of all domains of a cluster against the one tree of the one-kernel Unix: from the start on, through any list of
//! requests, their servers answer as one tree, or send a walk on (this project).
#![tactic(auto)]

mod laws;

pub use laws::{
    lists_as_one, longest_answers, opened_as_one, requests_answer_as_one, servers_answer_as_one,
    two_domains_begin,
};
