//! The rules of a trace, each judged in one pass over its records (this project).
#![tactic(auto)]

mod broadcasts;
mod fetches;
mod judging;
mod judging_told;
mod learned;
mod operations;
mod place;

pub use broadcasts::prefixes_are_broadcast_until_learned;
pub use fetches::fetches_are_of_absent_blocks;
pub use judging::{LooksBack, each_keeps};
pub use judging_told::{LooksBackTold, each_keeps_told};
pub use learned::{Learned, is_new_prefix, keep_learned};
pub use operations::operations_go_out_uncached;
pub use place::{BlockAt, FileAt, StampAt, block_at, file_at, keep_block, stamp_at};
