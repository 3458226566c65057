//! Programs as texts (this project): one line for each instruction, label and piece of data.
//!
//! A text is split into lines, and `line.rt` says what each line is by its words. `reading.rt` judges the lines in
//! order, each by what stands before it, and `assembly.rt` makes the program of them.
#![tactic(auto)]

mod assembly;
mod calls;
mod label;
mod line;
mod names;
mod operand;
mod quoted;
mod reading;
mod step;
mod words;

pub use assembly::{AsmEnd, assemble};
