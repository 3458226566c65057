//! Messages in pieces (this project): a message that is larger than a frame of 1,500 bytes is cut into frames, and is given
//! whole once each of them has come, in any order and however often.
#![tactic(auto)]

mod cutting;
mod flags;
mod gather;
mod gathered;
mod head;
mod part;
mod plan;
mod progress;
mod running;

pub use cutting::cut;
pub use gather::Gather;
pub use gathered::Gathered;
pub use head::MessageId;
pub use running::gather_all;
