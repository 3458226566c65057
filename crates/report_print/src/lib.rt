//! What is printed of a run: its processes with their consoles, its journal, its counts, its summary, and the line of a refused cluster file (this project).
#![tactic(auto)]

mod consoles;
mod counting;
mod histories;
mod lines;
mod printing;
mod refusals;
mod summaries;

pub use counting::stats;
pub use histories::history;
pub use printing::{last_line, output};
pub use refusals::refusal_line;
pub use summaries::{Tally, summary, tally_of};
