//! The name calls of a client kernel: from the issue of an open, make, stat, mkdir, rmdir, unlink, rename, list or chdir over
//! the broadcast of a prefix, the sign of life of a server and the request to it, to the call's reply (Welch and Ousterhout
//! 1986; Welch and Ousterhout 1988).
#![tactic(auto)]

mod answers;
mod flags;
mod issues;
mod lookups;
mod making;
mod paths;
mod requests;

pub use answers::{end_opened, end_refused, end_value, give_up_name, takes_end};
pub use issues::{issue_name, refuse_here};
pub use lookups::{ask, learn, look_up, redirect};
