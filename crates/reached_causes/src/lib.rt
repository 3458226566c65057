//! Why a reached cluster's trace calls a server unreachable (Welch 1986; this project).
#![tactic(auto)]

mod laws;

pub use laws::{given_up_behind_sends, servers_link_to_domains, unreachable_for_cause};
