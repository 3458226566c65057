//! Texts by lines: where a line ends, numbers in decimal, and texts of two parts (this project).
#![tactic(auto)]

mod lines;
mod separator;

pub use lines::{first_line, number, place_of};
pub use separator::parts_of;
