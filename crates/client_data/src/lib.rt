//! The data of files at a client kernel: grants and callbacks of their servers, reads and writes in the cache, those that
//! are done at the server, write-backs, and `sync` (Nelson, Welch and Ousterhout 1988; Welch 1986).
#![tactic(auto)]

mod cached;
mod filling;
mod finish;
mod grants;
mod looks;
mod plan;
mod replies;
mod server_ops;
mod sync;
mod write_backs;

pub use grants::{callback, take_grant};
pub use looks::look;
pub use replies::data_replied;
pub use sync::run_sync;
pub use write_backs::{write_back_answered, write_back_due};
