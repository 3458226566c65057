//! The version table of a file server: who has each file open, the file's version, and whom an open or a move must call
//! back first (Nelson, Welch and Ousterhout 1988; when versions rise, who counts as the holder of dirty blocks and how
//! stamps run are this project's).
#![tactic(auto)]

mod action;
mod files;
mod laws;
mod opens;
mod versioned;
mod versions;

pub use action::{Action, Decision};
pub use laws::{callbacks_go_once, grants_come_alone, grants_say_whether_cached, stamps_rise};
pub use opens::Open;
pub use versioned::{Asking, Versioned};
pub use versions::Versions;
