use crate::block_bytes::BlockBytes;

/// A block that is held.
#[derive(Debug, Drop)]
pub struct Block {
    pub bytes: BlockBytes,
    /// Where the block is dirty, the number of the writing that made it so last, counted from 1 by its client.
    pub dirty: Option<u64>,
}
