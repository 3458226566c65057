use crate::bytes::Bytes;
use crate::copying::Copying;
use crate::items::Items;
use crate::kernel::Kernel;
use crate::names::{BlockNo, FileId};
use crate::no_memory::NoMemory;
use std::alloc::Global;

/// Whether a client caches a file (Nelson, Welch and Ousterhout 1988).
#[derive(Clone, Copy, Debug, PartialEq, Eq, Hash)]
pub enum CacheMode {
    /// Blocks are kept, and writes are delayed.
    On,
    /// Each operation goes to the server.
    Off,
    /// Nothing was granted so far.
    None,
}

impl Copying for CacheMode {
    fn copy(&self, _alloc: Global) -> Result<CacheMode, NoMemory> {
        Ok(*self)
    }
}

/// A server's leave for a client to use a file, given with an open stream (Nelson, Welch and Ousterhout 1988; the
/// stamps are this project's).
#[derive(Clone, Copy, Debug, PartialEq, Eq, Hash)]
pub struct Grant {
    pub file: FileId,
    /// Taken from a counter of the file that each grant and callback raises.
    pub stamp: u32,
    /// The file's version before this open.
    pub old: u32,
    /// The file's version from this open on.
    pub new: u32,
    /// The file's size at the server, in bytes.
    pub size: u32,
    /// Whether the client may cache the file.
    pub on: bool,
    /// Whether the client had the file's dirty blocks just before.
    pub holder: bool,
}

impl Copying for Grant {
    fn copy(&self, _alloc: Global) -> Result<Grant, NoMemory> {
        Ok(*self)
    }
}

/// What a callback asks of a client.
#[derive(Clone, Copy, Debug, PartialEq, Eq, Hash)]
pub enum CallKind {
    /// Send the dirty blocks and keep the blocks, clean.
    Recall,
    /// Send the dirty blocks, drop all blocks and cache no more.
    Stop,
}

impl Copying for CallKind {
    fn copy(&self, _alloc: Global) -> Result<CallKind, NoMemory> {
        Ok(*self)
    }
}

/// A server's call to a client about a file that it caches (Nelson, Welch and Ousterhout 1988).
#[derive(Clone, Copy, Debug, PartialEq, Eq, Hash)]
pub struct Callback {
    pub file: FileId,
    pub to: Kernel,
    /// Taken from the same counter as the stamps of grants.
    pub stamp: u32,
    pub kind: CallKind,
}

impl Copying for Callback {
    fn copy(&self, _alloc: Global) -> Result<Callback, NoMemory> {
        Ok(*self)
    }
}

/// A client's answer to a callback: its dirty blocks, in ascending order, and its size of the file, in bytes.
#[derive(Debug, PartialEq, Eq, Drop)]
pub struct Flushed {
    pub size: u32,
    pub blocks: Items<(BlockNo, Bytes)>,
}

impl Copying for Flushed {
    fn copy(&self, alloc: Global) -> Result<Flushed, NoMemory> {
        Ok(Flushed {
            size: self.size,
            blocks: self.blocks.copy(alloc)?,
        })
    }
}
