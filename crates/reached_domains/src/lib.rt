//! Laws of what the kernels of each reached cluster ask and tell of domains (Welch and Ousterhout 1986).
#![tactic(auto)]

mod laws;

pub use laws::{
    answers_are_owners, answers_tell_domains, broadcasts_ask_so, learned_are_domains,
    one_server_answers, redirects_are_domains, rows_are_domains, servers_answers_fit,
    servers_serve_theirs,
};
