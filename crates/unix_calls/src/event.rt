use crate::entry::Entry;
use link_plan::Fate;
use process_machine::{Call, Reply};
use sprite_ids::{
    BlockNo, CacheMode, CallKind, Copying, FileId, Kernel, Mode, NoMemory, Pid, StreamNo, TxNo,
};
use sprite_paths::Path;
use std::alloc::Global;

/// A call of a process, for whose sake a packet goes.
#[derive(Clone, Copy, Debug, PartialEq, Eq)]
pub struct About {
    pub pid: Pid,
    /// The process's calls are numbered from 1.
    pub number: u32,
}

impl Copying for About {
    fn copy(&self, _alloc: Global) -> Result<About, NoMemory> {
        Ok(*self)
    }
}

/// What a request is for.
#[derive(Debug, Drop)]
pub enum SendKind {
    /// An operation on a file at its server.
    Op { file: FileId },
    /// A block of a file is wanted.
    Fetch { file: FileId, block: BlockNo },
    /// A dirty block goes to the server.
    WriteBack { file: FileId, block: BlockNo },
    /// Who serves that prefix? (Welch and Ousterhout 1986)
    Broadcast { prefix: Path },
    /// Anything else.
    Other,
}

impl Copying for SendKind {
    fn copy(&self, alloc: Global) -> Result<SendKind, NoMemory> {
        Ok(match self {
            SendKind::Op { file } => SendKind::Op { file: *file },
            SendKind::Fetch { file, block } => SendKind::Fetch {
                file: *file,
                block: *block,
            },
            SendKind::WriteBack { file, block } => SendKind::WriteBack {
                file: *file,
                block: *block,
            },
            SendKind::Broadcast { prefix } => SendKind::Broadcast {
                prefix: prefix.copy(alloc)?,
            },
            SendKind::Other => SendKind::Other,
        })
    }
}

/// Why a block was dropped.
#[derive(Clone, Copy, Debug, PartialEq, Eq)]
pub enum DropCause {
    /// The cache is full.
    Full,
    /// The file is cached no more.
    Stop,
    /// The file's version is another one.
    Version,
}

impl Copying for DropCause {
    fn copy(&self, _alloc: Global) -> Result<DropCause, NoMemory> {
        Ok(*self)
    }
}

/// What a kernel did in one step of a run (this project).
#[derive(Debug, Drop)]
pub enum Event {
    /// A process did so many instructions.
    Burst {
        pid: Pid,
        count: u32,
    },
    /// A process came to a call.
    Issue {
        pid: Pid,
        number: u32,
        call: Call,
    },
    /// A call took effect: its entry joins the journal.
    Enter {
        entry: Entry,
    },
    /// A process was given its reply.
    Return {
        pid: Pid,
        number: u32,
        reply: Reply,
    },
    /// A request went out for the first time to that receiver.
    Send {
        tx: TxNo,
        to: Kernel,
        about: Option<About>,
        kind: SendKind,
    },
    /// The link made a fault, between the two kernels; the fate isn't `Once`.
    Fault {
        a: Kernel,
        b: Kernel,
        fate: Fate,
    },
    /// A request or a reply was taken.
    Deliver {
        tx: TxNo,
        from: Kernel,
        reply: bool,
        about: Option<About>,
    },
    /// A request was answered by nobody in its time; `last`: it isn't sent again.
    Expire {
        tx: TxNo,
        last: bool,
    },
    /// A server gave a kernel leave to use a file.
    Grant {
        file: FileId,
        to: Kernel,
        stamp: u32,
        mode: CacheMode,
    },
    /// A server called a kernel back about a file.
    Callback {
        file: FileId,
        to: Kernel,
        stamp: u32,
        kind: CallKind,
    },
    /// A kernel took the stamp of a grant or callback.
    Mode {
        file: FileId,
        stamp: u32,
        mode: CacheMode,
    },
    /// A block came into a cache.
    Filled {
        file: FileId,
        block: BlockNo,
    },
    /// A block left a cache.
    Dropped {
        file: FileId,
        block: BlockNo,
        cause: DropCause,
    },
    /// A block was written in a cache.
    Dirtied {
        file: FileId,
        block: BlockNo,
    },
    /// A dirty block became clean.
    WroteBack {
        file: FileId,
        block: BlockNo,
    },
    /// A stream was opened for a kernel, at the file's server.
    Opened {
        file: FileId,
        stream: StreamNo,
        kernel: Kernel,
        mode: Mode,
    },
    /// A kernel's last reference to a stream was closed.
    Closed {
        file: FileId,
        stream: StreamNo,
        kernel: Kernel,
        mode: Mode,
    },
    /// A stream's offset went to the server.
    Shared {
        file: FileId,
        stream: StreamNo,
    },
    /// A kernel learned who serves a prefix.
    Learned {
        prefix: Path,
        server: Kernel,
    },
    /// A process was frozen, to move.
    Freeze {
        pid: Pid,
    },
    /// A process that moved goes on.
    Thaw {
        pid: Pid,
    },
}

/// A record of a run's trace: what a kernel did.
#[derive(Debug, Drop)]
pub struct Rec {
    pub kernel: Kernel,
    pub event: Event,
}
