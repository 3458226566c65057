//! How the records of a trace are written, judged in one pass over them for each of three parts: the packets, the records of files'
//! servers that stand together, and the entries that open files (this project).
#![tactic(auto)]

mod entries;
mod forms;
mod making;
mod packets;
mod places;
mod uses;

pub use entries::entries_are_formed;
pub use forms::formed;
pub use making::MadeStreams;
pub use packets::packets_are_formed;
pub use places::{OpenAt, open_at};
pub use uses::uses_are_formed;
