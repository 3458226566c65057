//! The files of one server: each is a list of bytes, and a call that names one file leaves all others as they are (the
//! files are Nelson, Welch and Ousterhout's; that they are kept in memory is this project).
#![tactic(auto)]

mod content;
mod files;
mod laws;
mod store;

pub use content::Content;
pub use laws::{
    files_are_there, other_files_stay, reads_are_short, written_bytes_are_read,
    written_file_is_held,
};
pub use store::Store;
