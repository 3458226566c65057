use crate::target::Target;
use sprite_ids::{Copying, Kernel, NoMemory, StreamNo};
use std::alloc::Global;

/// Tells the server of a file or pseudo-device that a stream moves with a process (Douglis and Ousterhout 1991).
#[derive(Clone, Copy, Debug, PartialEq, Eq, Hash)]
pub struct MoveRequest {
    /// The stream.
    pub stream: StreamNo,
    /// What it leads to.
    pub object: Target,
    /// The kernel that it moves to.
    pub to: Kernel,
    /// Whether references stay where it was.
    pub kept: bool,
    /// Its offset in bytes, where the source kept it.
    pub offset: Option<u32>,
    /// How many grants of the stream the source received.
    pub grants: u32,
}

impl Copying for MoveRequest {
    fn copy(&self, _alloc: Global) -> Result<MoveRequest, NoMemory> {
        Ok(*self)
    }
}
