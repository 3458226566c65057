//! Whether a run that has come to its end keeps what is promised of it: its journal is a history that one Unix kernel gives, each of its
//! calls is once, a server is called unreachable only where packets of the call were lost, and it ended as it says; and then what is
//! printed of it (this project).
#![tactic(auto)]

mod asking;
mod ending;
mod halting;
mod judged;
mod judging;
mod waiting;

pub use judged::{JudgedRun, Refutation};
pub use judging::judge_run;
