//! The names of one domain at its server: directories with their entries, which name directories, files and devices, with a
//! remote link where another domain hangs (Welch and Ousterhout 1986).
#![tactic(auto)]

mod answers;
mod directories;
mod end;
mod laws;
mod name;
mod names;

pub use end::NameEnd;
pub use laws::{entries_hang_in_directories, made_is_found, removed_is_gone};
pub use name::{Entry, Name, Node};
pub use names::Names;
