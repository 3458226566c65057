use crate::descriptor::Descriptor;
use sprite_ids::{Bytes, Copying, DeviceId, NoMemory, Pid, StreamNo};
use sprite_paths::Path;
use std::alloc::Global;

/// Asks a file server to make a pseudo-device of that name (Welch and Ousterhout 1988).
#[derive(Debug, PartialEq, Eq, Drop)]
pub struct MakeRequest {
    /// The process whose call it is.
    pub pid: Pid,
    /// The number of that call.
    pub number: u32,
    /// The master's stream.
    pub stream: StreamNo,
    /// The path of the pseudo-device.
    pub path: Path,
    /// The pseudo-device.
    pub device: DeviceId,
    /// The descriptor that the call will answer.
    pub fd: Descriptor,
    /// The path text, as the call has it.
    pub text: Bytes,
}

impl Copying for MakeRequest {
    fn copy(&self, alloc: Global) -> Result<MakeRequest, NoMemory> {
        Ok(MakeRequest {
            pid: self.pid,
            number: self.number,
            stream: self.stream,
            path: self.path.copy(alloc)?,
            device: self.device,
            fd: self.fd,
            text: self.text.copy(alloc)?,
        })
    }
}
