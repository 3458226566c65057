use sprite_ids::{CallKind, Copying, FileId, NoMemory};
use std::alloc::Global;

/// A server's call to a client about a file that it caches (Nelson, Welch and Ousterhout 1988).
#[derive(Clone, Copy, Debug, PartialEq, Eq, Hash)]
pub struct CallbackRequest {
    /// The file.
    pub file: FileId,
    /// The callback's stamp.
    pub stamp: u32,
    /// What the client is to do.
    pub kind: CallKind,
}

impl Copying for CallbackRequest {
    fn copy(&self, _alloc: Global) -> Result<CallbackRequest, NoMemory> {
        Ok(*self)
    }
}
