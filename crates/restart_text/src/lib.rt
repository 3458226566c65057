//! Steps of one file whose server may stop, as a text, and what comes of them as one (this project).
#![tactic(auto)]

mod body;
mod line;
mod printing;
mod words;

pub use body::file_text;
