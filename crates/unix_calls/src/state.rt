use process_machine::{Call, Image, Reply};
use sprite_ids::{Bytes, Ending, Items, Mode, Pid};
use sprite_paths::Path;

/// A file of the one-kernel Unix (this project).
#[derive(Clone, Copy, Debug, PartialEq, Eq)]
pub enum FileName {
    /// Of the cluster file's lines, the one at that place, from 0.
    Boot(u32),
    /// The one that the entry at that place of the journal made, from 0.
    Made(u32),
}

/// What stands at a path.
#[derive(Clone, Copy, Debug, PartialEq, Eq)]
pub enum Node {
    Directory,
    FileNode(FileName),
    /// A pseudo-device, by the place of the entry that made it (Welch and Ousterhout 1988).
    DeviceNode(u32),
}

/// A path and what stands there.
#[derive(Debug, PartialEq, Eq, Drop)]
pub struct Named {
    /// Its parts, from the root on.
    pub path: Items<Bytes>,
    pub node: Node,
}

/// A file and its bytes; an unlinked one stays, for its streams.
#[derive(Debug, PartialEq, Eq, Drop)]
pub struct File {
    pub name: FileName,
    pub bytes: Bytes,
}

/// What a stream leads to.
#[derive(Clone, Copy, Debug, PartialEq, Eq)]
pub enum Object {
    OfFile(FileName),
    /// A pseudo-device as its clients see it, by the place of the entry that made it (Welch and Ousterhout 1988).
    OfDevice(u32),
    /// A pseudo-device as its master sees it.
    OfMaster(u32),
}

/// An open stream: all descriptors that lead to it share its offset (Welch and Ousterhout 1988).
#[derive(Clone, Copy, Debug, PartialEq, Eq)]
pub struct Stream {
    /// The place of the entry that made it.
    pub place: u32,
    pub object: Object,
    pub mode: Mode,
    /// Whether each write begins at the file's end.
    pub appends: bool,
    /// Where the next read or write begins, in bytes from the file's start.
    pub offset: u64,
}

/// What an `open` asks for.
#[derive(Clone, Copy, Debug, PartialEq, Eq)]
pub struct Flags {
    pub mode: Mode,
    /// Whether a file is made where nothing stands.
    pub creates: bool,
    /// Whether a file loses its bytes.
    pub truncates: bool,
    /// Whether each write begins at the file's end.
    pub appends: bool,
}

/// An operation on a device that waits for its answer.
#[derive(Debug, PartialEq, Eq, Drop)]
pub struct Ask {
    pub pid: Pid,
    /// The number of the process's call.
    pub number: u32,
    pub call: Call,
}

/// An answer that a master left.
#[derive(Debug, PartialEq, Eq, Drop)]
pub struct Answer {
    pub pid: Pid,
    pub reply: Reply,
}

/// A pseudo-device (Welch and Ousterhout 1988).
#[derive(Debug, PartialEq, Eq, Drop)]
pub struct Device {
    /// The place of the entry that made it.
    pub place: u32,
    /// The operations that wait, first in first out.
    pub asks: Items<Ask>,
    /// The one that its master took and hasn't answered.
    pub in_hand: Option<Ask>,
    /// The answers that weren't fetched so far.
    pub answers: Items<Answer>,
}

/// A process.
#[derive(Debug, PartialEq, Eq, Drop)]
pub struct Process {
    pub pid: Pid,
    pub image: Image,
    /// Each a stream, by the place of the entry that made it, or free.
    pub descriptors: [Option<u32>; 16],
    pub cwd: Path,
    /// None for a process that runs from the start.
    pub parent: Option<Pid>,
    /// How many of its calls are done.
    pub calls: u32,
    /// The device in whose operation it is.
    pub asking: Option<u32>,
    /// Whether a kill of it is pending.
    pub killed: bool,
    /// None while it lives.
    pub ending: Option<Ending>,
    /// Whether its parent has waited for it.
    pub waited: bool,
    /// What it has printed.
    pub console: Bytes,
}
