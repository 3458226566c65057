use crate::descriptor::Descriptor;
use sprite_ids::{AskKind, Bytes, Copying, DeviceId, NoMemory, Pid};
use std::alloc::Global;

/// An operation on a pseudo-device, for its master (Welch and Ousterhout 1988).
#[derive(Debug, PartialEq, Eq, Drop)]
pub struct AskRequest {
    /// The process whose call it is.
    pub pid: Pid,
    /// The number of that call.
    pub number: u32,
    /// The pseudo-device.
    pub device: DeviceId,
    /// What is asked.
    pub kind: AskKind,
    /// How many bytes may be answered.
    pub length: u32,
    /// The bytes of the ask.
    pub bytes: Bytes,
    /// The descriptor that the call names.
    pub fd: Descriptor,
}

impl Copying for AskRequest {
    fn copy(&self, alloc: Global) -> Result<AskRequest, NoMemory> {
        Ok(AskRequest {
            pid: self.pid,
            number: self.number,
            device: self.device,
            kind: self.kind,
            length: self.length,
            bytes: self.bytes.copy(alloc)?,
            fd: self.fd,
        })
    }
}
