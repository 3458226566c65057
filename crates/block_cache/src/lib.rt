//! One client kernel's cache of file blocks (Nelson, Welch and Ousterhout 1988): what it holds of each file, under the
//! grants and callbacks of the file's server, and the blocks of all files in one order of use.
#![tactic(auto)]

mod ages;
mod block;
mod block_bytes;
mod blocks;
mod cache;
mod file_state;
mod file_table;
mod filled;
mod held_blocks;
mod kept;
mod key;
mod laws;
mod oldest;
mod order;
mod parts;
mod reach;
mod span;

pub use block::Block;
pub use block_bytes::BlockBytes;
pub use cache::Cache;
pub use file_state::FileState;
pub use filled::Filled;
pub use key::BlockKey;
pub use laws::{
    dirty_blocks_stay, older_grants_do_nothing, other_blocks_stay, reads_are_whole,
    written_bytes_are_read,
};
