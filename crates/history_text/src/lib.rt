//! Histories as texts: the entries of a run, each on a line, printed and read back (this project).
#![tactic(auto)]

mod call;
mod entry;
mod field;
mod history;
mod history_error;
mod laws;
mod number;
mod quoted;
mod reply;

pub use entry::{put_told, read_entry};
pub use field::Field;
pub use history::{print_history, read_history};
pub use history_error::HistoryError;
pub use laws::{
    entry_is_one_line, history_has_no_bad_line, legal_is_together, printed_is_history,
    text_has_one_bad_line, text_is_one_history,
};
