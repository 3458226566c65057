//! The home table of a kernel: the processes that were born with it as their home, wherever they run, with their parents,
//! endings, kills and places, and the home's count of ticks (Douglis and Ousterhout 1991).
#![tactic(auto)]

mod birth;
mod end;
mod home;

pub use birth::{Birth, Life};
pub use end::{HomeEnd, WaitAnswer};
pub use home::Home;
