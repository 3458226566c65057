//! A workload of many processes that write, move and read again, as a cluster file and as what it describes (this project).
#![tactic(auto)]

mod making;
mod part;
mod text;

pub use making::workload;
pub use text::workload_text;
