use sprite_ids::{BlockNo, Bytes, Copying, FileId, NoMemory};
use std::alloc::Global;

/// Brings a file server a block that the client wrote in its cache (Nelson, Welch and Ousterhout 1988).
#[derive(Debug, PartialEq, Eq, Drop)]
pub struct WriteBackRequest {
    /// The file.
    pub file: FileId,
    /// The stamp that the client has.
    pub stamp: u32,
    /// The block.
    pub block: BlockNo,
    /// The file's size at the client, in bytes.
    pub size: u32,
    /// The block's bytes.
    pub bytes: Bytes,
}

impl Copying for WriteBackRequest {
    fn copy(&self, alloc: Global) -> Result<WriteBackRequest, NoMemory> {
        Ok(WriteBackRequest {
            file: self.file,
            stamp: self.stamp,
            block: self.block,
            size: self.size,
            bytes: self.bytes.copy(alloc)?,
        })
    }
}
