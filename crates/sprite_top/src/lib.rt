//! The top call of the program: words, a cluster file and a place to write in; a status out.
#![tactic(auto)]

mod clusters;
mod judged;
mod top;

pub use top::{Ended, Status, sprite};
