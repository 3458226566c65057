use crate::carried_stream::CarriedStream;
use crate::descriptor::Descriptor;
use sprite_ids::{Copying, Items, NoMemory, Pid, StreamNo};
use sprite_paths::Path;
use std::alloc::Global;

/// A process that starts its next program elsewhere: all that belongs to it but an image (Douglis and Ousterhout 1991).
#[derive(Debug, PartialEq, Eq, Drop)]
pub struct LaunchRequest {
    /// The process whose call it is.
    pub pid: Pid,
    /// The number of its `rexec`.
    pub number: u32,
    /// The number of the program.
    pub program: u8,
    /// Its working directory.
    pub cwd: Path,
    /// Its descriptors and their streams.
    pub fds: Items<(Descriptor, StreamNo)>,
    /// The streams that move with it.
    pub streams: Items<CarriedStream>,
    /// Whether a kill is pending.
    pub killed: bool,
}

impl Copying for LaunchRequest {
    fn copy(&self, alloc: Global) -> Result<LaunchRequest, NoMemory> {
        Ok(LaunchRequest {
            pid: self.pid,
            number: self.number,
            program: self.program,
            cwd: self.cwd.copy(alloc)?,
            fds: self.fds.copy(alloc)?,
            streams: self.streams.copy(alloc)?,
            killed: self.killed,
        })
    }
}
