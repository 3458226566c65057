use sprite_ids::{Bytes, Copying, NoMemory, Pid};
use std::alloc::Global;

/// Puts a page of a process to the server that keeps pages (Nelson, Welch and Ousterhout 1988).
#[derive(Debug, PartialEq, Eq, Drop)]
pub struct PageOutRequest {
    /// The process.
    pub pid: Pid,
    /// Which of its pages.
    pub page: u8,
    /// The page's bytes.
    pub bytes: Bytes,
}

impl Copying for PageOutRequest {
    fn copy(&self, alloc: Global) -> Result<PageOutRequest, NoMemory> {
        Ok(PageOutRequest {
            pid: self.pid,
            page: self.page,
            bytes: self.bytes.copy(alloc)?,
        })
    }
}
