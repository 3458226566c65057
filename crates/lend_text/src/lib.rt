//! Events of a daemon that lends hosts as a text, and its answers as one (this project).
#![tactic(auto)]

mod body;
mod event;
mod printing;

pub use body::lend_text;
