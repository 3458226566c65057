ghost use Rattle.std.specs.Prelude.{◌≡◌};
ghost use Rattle.sprite_ids.specs.AskKind.{ask_number};

use crate::copying::Copying;
use crate::kernel::Kernel;
use crate::no_memory::NoMemory;
use std::alloc::Global;

/// A file, for as long as the cluster runs: a number is never used again.
#[derive(Clone, Copy, Debug, PartialEq, Eq, PartialOrd, Ord, Hash)]
pub struct FileId {
    /// The file server that keeps the file.
    pub server: Kernel,
    /// Counted by that server.
    pub number: u32,
}

impl Copying for FileId {
    fn copy(&self, _alloc: Global) -> Result<FileId, NoMemory> {
        Ok(*self)
    }
}

/// A pseudo-device, for as long as the cluster runs: a number is never used again (Welch and Ousterhout 1988).
#[derive(Clone, Copy, Debug, PartialEq, Eq, PartialOrd, Ord, Hash)]
pub struct DeviceId {
    /// The kernel on which the master made the device, which serves it.
    pub kernel: Kernel,
    /// Counted by that kernel.
    pub number: u32,
}

impl Copying for DeviceId {
    fn copy(&self, _alloc: Global) -> Result<DeviceId, NoMemory> {
        Ok(*self)
    }
}

/// An open stream, for as long as the cluster runs: a number is never used again.
#[derive(Clone, Copy, Debug, PartialEq, Eq, PartialOrd, Ord, Hash)]
pub struct StreamNo {
    /// The kernel on which the stream was opened.
    pub kernel: Kernel,
    /// Counted by that kernel.
    pub number: u32,
}

impl Copying for StreamNo {
    fn copy(&self, _alloc: Global) -> Result<StreamNo, NoMemory> {
        Ok(*self)
    }
}

/// A block of 4,096 bytes of a file, counted from 0.
#[derive(Clone, Copy, Debug, PartialEq, Eq, PartialOrd, Ord, Hash)]
pub struct BlockNo(pub u16);

impl Copying for BlockNo {
    fn copy(&self, _alloc: Global) -> Result<BlockNo, NoMemory> {
        Ok(*self)
    }
}

/// A remote call, counted from 1 over the whole cluster.
#[derive(Clone, Copy, Debug, PartialEq, Eq, PartialOrd, Ord, Hash)]
pub struct TxNo(pub u32);

impl Copying for TxNo {
    fn copy(&self, _alloc: Global) -> Result<TxNo, NoMemory> {
        Ok(*self)
    }
}

/// A copy of a packet that is in flight.
#[derive(Clone, Copy, Debug, PartialEq, Eq, PartialOrd, Ord, Hash)]
pub struct CopyNo(pub u64);

impl Copying for CopyNo {
    fn copy(&self, _alloc: Global) -> Result<CopyNo, NoMemory> {
        Ok(*self)
    }
}

/// What a stream was opened for.
#[derive(Clone, Copy, Debug, PartialEq, Eq, Hash)]
pub enum Mode {
    Read,
    Write,
    Both,
}

impl Copying for Mode {
    fn copy(&self, _alloc: Global) -> Result<Mode, NoMemory> {
        Ok(*self)
    }
}

/// What a stream leads to.
#[derive(Clone, Copy, Debug, PartialEq, Eq, Hash)]
pub enum Object {
    File(FileId),
    /// A client's end of a pseudo-device.
    Device(DeviceId),
    /// The master's end of a pseudo-device.
    Master(DeviceId),
}

impl Copying for Object {
    fn copy(&self, _alloc: Global) -> Result<Object, NoMemory> {
        Ok(*self)
    }
}

/// What an operation on a pseudo-device asks of its master (Welch and Ousterhout 1988).
#[derive(Clone, Copy, Debug, PartialEq, Eq, Hash)]
pub enum AskKind {
    Read,
    Write,
    /// A command of the device's own.
    Ioctl,
}

impl AskKind {
    /// The kind's number for the device's master, and in packets: 1 for a read, 2 for a write, 3 for a command (this project).
    pub fn number(self) -> u8
        ensures { result ≡ ask_number self }
    {
        match self {
            AskKind::Read => 1,
            AskKind::Write => 2,
            AskKind::Ioctl => 3,
        }
    }
}

impl Copying for AskKind {
    fn copy(&self, _alloc: Global) -> Result<AskKind, NoMemory> {
        Ok(*self)
    }
}
