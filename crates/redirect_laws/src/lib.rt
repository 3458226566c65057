//! To which domains a server leads name calls on (Welch and Ousterhout 1986; this project).
#![tactic(auto)]

mod redirects;

pub use redirects::{servers_begin_linked, servers_lead_on_to_roots};
