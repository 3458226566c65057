use crate::target::Target;
use sprite_ids::{Copying, NoMemory, StreamNo};
use std::alloc::Global;

/// Tells the server of a file or pseudo-device that the kernel has closed its last reference to a stream (Nelson, Welch
/// and Ousterhout 1988).
#[derive(Clone, Copy, Debug, PartialEq, Eq, Hash)]
pub struct CloseRequest {
    /// What the stream leads to.
    pub object: Target,
    /// The stream.
    pub stream: StreamNo,
    /// How many grants of the stream the kernel received.
    pub grants: u32,
}

impl Copying for CloseRequest {
    fn copy(&self, _alloc: Global) -> Result<CloseRequest, NoMemory> {
        Ok(*self)
    }
}
