use crate::carried_stream::CarriedStream;
use crate::descriptor::Descriptor;
use process_machine::Image;
use sprite_ids::{Copying, Items, NoMemory, Pid, StreamNo};
use sprite_paths::Path;
use std::alloc::Global;

/// A process that moves: its image and all that belongs to it (Douglis and Ousterhout 1991).
#[derive(Debug, PartialEq, Eq, Drop)]
pub struct TransferRequest {
    /// The process whose call it is.
    pub pid: Pid,
    /// The number of the call that it came to last.
    pub number: u32,
    /// Its image.
    pub image: Image,
    /// Its working directory.
    pub cwd: Path,
    /// Its descriptors and their streams.
    pub fds: Items<(Descriptor, StreamNo)>,
    /// The streams that move with it.
    pub streams: Items<CarriedStream>,
    /// Whether a kill is pending.
    pub killed: bool,
    /// Whether it is in its own `migrate`.
    pub moving: bool,
}

impl Copying for TransferRequest {
    fn copy(&self, alloc: Global) -> Result<TransferRequest, NoMemory> {
        Ok(TransferRequest {
            pid: self.pid,
            number: self.number,
            image: self.image.copy(alloc)?,
            cwd: self.cwd.copy(alloc)?,
            fds: self.fds.copy(alloc)?,
            streams: self.streams.copy(alloc)?,
            killed: self.killed,
            moving: self.moving,
        })
    }
}
