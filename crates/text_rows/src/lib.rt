//! Texts with a row a line: the words of a row, and all rows, or the number of the first line that is none (this project).
#![tactic(auto)]

mod line_error;
mod words;

pub use line_error::LineError;
pub use words::{kernel_in, rest_of, word_of};
