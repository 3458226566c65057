//! The files' side of a client kernel: what a call of a process, an answer of a server, a callback or a due write-back does to
//! names, streams, cached data and delayed writes, and what is said in that step (Nelson, Welch and Ousterhout 1988; Welch and
//! Ousterhout 1986; Welch 1986; Douglis and Ousterhout 1991).
#![tactic(auto)]

mod answered;
mod arrival;
mod asked;
mod calls;
mod data_issues;
mod lookup;
mod step;
mod turns;

pub use answered::replied;
pub use arrival::install;
pub use calls::issue;
pub use client_data::{callback, take_grant, write_back_due};
pub use client_file_tables::{ClientFiles, Pending, Report};
pub use client_names::give_up_name;
pub use client_streams::{Named, descriptor_of, move_stream};
pub use step::{due, take};
pub use turns::go_on;
