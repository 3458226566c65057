use file_views::Open;
use sprite_ids::{BlockNo, Bytes, Copying, Items, NoMemory};
use std::alloc::Global;

/// What a client keeps of a file whose server forgot it in a stop, until it tells the server (this project).
#[derive(Debug, PartialEq, Eq, Drop)]
pub struct Kept {
    /// The streams that were installed there.
    pub streams: Items<Open>,
    /// The dirty blocks, each cut at the size; or those of an answer to a callback that hadn't come to the server.
    pub blocks: Items<(BlockNo, Bytes)>,
    /// The file's size as the client knew it, in bytes.
    pub size: u32,
    /// The file's version as the client knew it.
    pub version: u32,
}

impl Copying for Kept {
    fn copy(&self, alloc: Global) -> Result<Kept, NoMemory> {
        Ok(Kept {
            streams: self.streams.copy(alloc)?,
            blocks: self.blocks.copy(alloc)?,
            size: self.size,
            version: self.version,
        })
    }
}
