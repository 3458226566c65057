use sprite_ids::{BlockNo, Copying, FileId, NoMemory};
use std::alloc::Global;

/// Asks a file server for a block that the client will cache (Nelson, Welch and Ousterhout 1988).
#[derive(Clone, Copy, Debug, PartialEq, Eq, Hash)]
pub struct FetchRequest {
    /// The file.
    pub file: FileId,
    /// The stamp that the client has.
    pub stamp: u32,
    /// The block.
    pub block: BlockNo,
}

impl Copying for FetchRequest {
    fn copy(&self, _alloc: Global) -> Result<FetchRequest, NoMemory> {
        Ok(*self)
    }
}
