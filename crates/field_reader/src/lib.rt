//! Bytes that are read value by value from their front: texts of lines, and packets (this project).
#![tactic(auto)]

mod field_end;
mod path;
mod process;
mod reader;

pub use field_end::FieldEnd;
pub use path::path_of;
pub use process::pid_of;
pub use reader::Reader;
