//! The kernel of a file server: what it keeps of its domains, files, streams and pages, and what one step of it does with a
//! request of another kernel or with the answer to one of its callbacks (Nelson, Welch and Ousterhout 1988; Welch and
//! Ousterhout 1986; Douglis and Ousterhout 1991).
#![tactic(auto)]

mod asked;
mod boot;
mod devices;
mod directory;
mod files;
mod flags;
mod grants;
mod listing;
mod names;
mod opens;
mod ops;
mod requests;
mod saying;
mod server;
mod serving;
mod take;
mod waits;

pub use asked::{Asked, CallOut};
pub use server::{Domain, Server};
