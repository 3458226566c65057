use sprite_ids::{Copying, DeviceId, FileId, NoMemory};
use std::alloc::Global;

/// What a stream in a packet leads to (this project). The master's end of a pseudo-device is never sent.
#[derive(Clone, Copy, Debug, PartialEq, Eq, Hash)]
pub enum Target {
    /// 1: a file.
    File(FileId),
    /// 2: a client's end of a pseudo-device.
    Device(DeviceId),
}

impl Copying for Target {
    fn copy(&self, _alloc: Global) -> Result<Target, NoMemory> {
        Ok(*self)
    }
}
