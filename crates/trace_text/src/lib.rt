//! Traces as texts: the records of a run, each on a line, printed and read back (this project).
#![tactic(auto)]

mod event;
mod field;
mod history;
mod laws;
mod name;
mod number;
mod sending;
mod trace;
mod trace_error;
mod word;

pub use laws::{
    printed_is_trace, record_is_one_line, text_has_one_bad_line, text_is_one_trace,
    trace_has_no_bad_line,
};
pub use trace::{print_trace, read_trace};
pub use trace_error::TraceError;
