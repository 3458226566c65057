//! Why a kernel's step calls a server unreachable, and for what its name calls wait (Welch 1986; this project).
#![tactic(auto)]

mod entries;

pub use entries::{
    clients_call_unreachable_so, clients_say_so, clients_wait_so, servers_call_none_unreachable,
};
