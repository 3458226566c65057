//! The prefix table of a client: which server has which part of the tree. A name goes to the server of its longest
//! prefix that the client knows, and a client learns a prefix by broadcasting it (Welch and Ousterhout 1986).
#![tactic(auto)]

mod laws;
mod prefixes;

pub use laws::{known_keep_places, longest_is_longest, none_matches, other_servers_stay};
pub use prefixes::{Domain, Prefixes};
