use crate::carried_mode::CarriedMode;
use crate::target::Target;
use sprite_ids::{Copying, Grant, NoMemory, StreamNo};
use std::alloc::Global;

/// A stream that moves with a process (Douglis and Ousterhout 1991).
#[derive(Clone, Copy, Debug, PartialEq, Eq, Hash)]
pub struct CarriedStream {
    /// The stream.
    pub stream: StreamNo,
    /// What it leads to.
    pub object: Target,
    /// What it was opened for, and whether it appends.
    pub mode: CarriedMode,
    /// Its offset in bytes; None where the offset is the server's.
    pub offset: Option<u32>,
    /// The grant for the target.
    pub grant: Option<Grant>,
    /// How many grants of the stream go with it.
    pub grants: u32,
}

impl Copying for CarriedStream {
    fn copy(&self, _alloc: Global) -> Result<CarriedStream, NoMemory> {
        Ok(*self)
    }
}
