use crate::descriptor::Descriptor;
use sprite_ids::{Bytes, Copying, NoMemory, Pid, StreamNo};
use sprite_paths::Path;
use std::alloc::Global;

/// Asks a file server to open a path for a process's `open` (Welch and Ousterhout 1986; the caching of the file that
/// is opened, Nelson, Welch and Ousterhout 1988).
#[derive(Debug, PartialEq, Eq, Drop)]
pub struct OpeningRequest {
    /// The process whose call it is.
    pub pid: Pid,
    /// The number of that call.
    pub number: u32,
    /// The stream that the open makes.
    pub stream: StreamNo,
    /// The path that is opened.
    pub path: Path,
    /// The flags of the open, as the call has them.
    pub flags: u8,
    /// The descriptor that the call will answer.
    pub fd: Descriptor,
    /// The path text, as the call has it.
    pub text: Bytes,
}

impl Copying for OpeningRequest {
    fn copy(&self, alloc: Global) -> Result<OpeningRequest, NoMemory> {
        Ok(OpeningRequest {
            pid: self.pid,
            number: self.number,
            stream: self.stream,
            path: self.path.copy(alloc)?,
            flags: self.flags,
            fd: self.fd,
            text: self.text.copy(alloc)?,
        })
    }
}
