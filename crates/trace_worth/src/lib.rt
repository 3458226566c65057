//! Whether a trace is worth its units: no record of it stands for nothing.
#![tactic(auto)]

mod worth;

pub use worth::is_worth;
