use sprite_ids::{Copying, Mode, NoMemory, Object, StreamNo};
use std::alloc::Global;

/// Where a stream's offset is kept.
#[derive(Clone, Copy, Debug, PartialEq, Eq, Hash)]
pub enum Place {
    /// Here, at that offset, in bytes.
    Local(u32),
    /// At the file's server, since processes on several kernels share the stream (Welch 1986).
    Shared,
}

impl Copying for Place {
    fn copy(&self, _alloc: Global) -> Result<Place, NoMemory> {
        Ok(*self)
    }
}

/// An open stream.
#[derive(Clone, Copy, Debug, PartialEq, Eq, Hash)]
pub struct Stream {
    pub object: Object,
    pub mode: Mode,
    /// Always `Local(0)` where the object is no file.
    pub place: Place,
    /// How many grants of the stream this kernel received.
    pub grants: u32,
    /// Whether each write goes to the end of the file (this project).
    pub append: bool,
}

impl Copying for Stream {
    fn copy(&self, _alloc: Global) -> Result<Stream, NoMemory> {
        Ok(*self)
    }
}

/// A descriptor of a process that moves, with its stream.
#[derive(Clone, Copy, Debug, PartialEq, Eq, Hash)]
pub struct Carried {
    /// From 0 to 15.
    pub fd: u8,
    pub number: StreamNo,
    pub stream: Stream,
}

impl Copying for Carried {
    fn copy(&self, _alloc: Global) -> Result<Carried, NoMemory> {
        Ok(*self)
    }
}
