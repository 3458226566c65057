use crate::grant::FileGrant;
use sprite_ids::{BlockNo, Bytes, CallKind, Errno, Items, Kernel, Mode, Pid, StreamNo};

/// What an operation does with the file's bytes at the server.
#[derive(Debug, PartialEq, Eq, Drop)]
pub enum Access {
    /// Reads as many bytes from there on, or up to the end.
    Read { from: u32, length: u32 },
    /// Writes the bytes from there on.
    Write { from: u32, bytes: Bytes },
    /// Writes the bytes at the end.
    Append { bytes: Bytes },
}

/// What a request or a reply on the file says.
#[derive(Debug, PartialEq, Eq, Drop)]
pub enum FileBody {
    /// A stream is to be opened.
    Opening {
        pid: Pid,
        /// The process's call.
        number: u32,
        stream: StreamNo,
        mode: Mode,
        /// Whether the file is emptied.
        truncate: bool,
    },
    /// A kernel's last reference to a stream is closed.
    Close {
        stream: StreamNo,
        /// The grants of the stream that the kernel received.
        grants: u32,
    },
    /// An operation that the client doesn't do in its cache.
    Op {
        pid: Pid,
        /// The process's call.
        number: u32,
        /// The client's stamp when it was sent.
        stamp: u32,
        stream: StreamNo,
        access: Access,
    },
    /// A block is wanted.
    Fetch {
        /// The client's stamp when it was sent.
        stamp: u32,
        block: BlockNo,
    },
    /// A dirty block goes to the server.
    WriteBack {
        /// The client's stamp when it was sent.
        stamp: u32,
        block: BlockNo,
        /// The client's size of the file.
        size: u32,
        /// The block's bytes that stand before that size.
        bytes: Bytes,
    },
    /// The server calls a client back.
    Callback {
        stamp: u32,
        kind: CallKind,
    },
    /// A stream moves with a process (Douglis and Ousterhout 1991).
    Move {
        stream: StreamNo,
        to: Kernel,
        /// Whether references stay at the source.
        kept: bool,
        /// The grants of the stream that are taken off the source: 0 where references stay.
        grants: u32,
    },
    /// It is done.
    Done,
    /// The call is refused.
    Refused {
        errno: Errno,
    },
    /// The stream is open.
    Opened {
        grant: FileGrant,
    },
    /// What an operation answers.
    Value {
        first: u64,
        second: u64,
        bytes: Bytes,
    },
    /// The request's stamp was not the current one; this grant has it.
    Again {
        grant: FileGrant,
    },
    /// The block that was wanted, with the request's stamp.
    Block {
        stamp: u32,
        bytes: Bytes,
    },
    /// The answer to a callback: the client's size of the file, and its dirty blocks.
    Flushed {
        size: u32,
        blocks: Items<(BlockNo, Bytes)>,
    },
    /// The stream may go on to the target.
    Moved {
        grant: Option<FileGrant>,
        grants: u32,
    },
}
