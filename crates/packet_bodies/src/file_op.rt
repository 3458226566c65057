use sprite_ids::{Copying, NoMemory};
use std::alloc::Global;

/// What is done to a file at its server, where the client doesn't do it in its cache (Nelson, Welch and Ousterhout 1988).
#[derive(Clone, Copy, Debug, PartialEq, Eq, Hash)]
pub enum FileOp {
    /// 1: reads bytes.
    Read,
    /// 2: writes bytes.
    Write,
    /// 3: tells the size.
    Size,
    /// 4: sets the stream's offset.
    Seek,
    /// 5: writes bytes at the end.
    Append,
}

impl Copying for FileOp {
    fn copy(&self, _alloc: Global) -> Result<FileOp, NoMemory> {
        Ok(*self)
    }
}
