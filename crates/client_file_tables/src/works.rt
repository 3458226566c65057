ghost use Rattle.std.specs.Prelude.{◌≡◌};
ghost use Rattle.client_file_tables.specs.Calls.{data_call, sync_call};

use crate::states::{DataState, SyncState};
use packet_bodies::Descriptor;
use process_machine::Call;
use sprite_ids::{BlockNo, Bytes, FileId, Items, StreamNo};

/// What an operation does with a file's data.
#[derive(Debug, PartialEq, Eq, Drop)]
pub enum DataKind {
    /// Reads from the stream's offset on.
    Read {
        /// At most that many bytes.
        length: u32,
    },
    /// Writes at the stream's offset, or at the file's end where the stream appends.
    Write {
        /// What is written.
        bytes: Bytes,
    },
    /// Moves the stream's offset.
    Seek {
        /// To there, at most a file's limit.
        offset: u32,
    },
    /// Tells the file's size.
    Size,
}

/// A read, write, seek or size of a file, from its issue to its reply. Where it waits for anything but the stream's lock, its
/// process has that lock.
#[derive(Debug, Drop)]
pub struct DataCall {
    /// The number of the call among the process's calls.
    pub number: u32,
    /// The descriptor that the call names.
    pub fd: Descriptor,
    /// What it does.
    pub kind: DataKind,
    /// The stream.
    pub stream: StreamNo,
    /// The file that the stream leads to.
    pub file: FileId,
    /// What it waits for.
    pub state: DataState,
}

impl DataCall {
    /// The call, as the process made it.
    pub fn into_call(self) -> Call
        ensures { result ≡ data_call self }
    {
        let fd = u64::from(self.fd.number());
        match self.kind {
            DataKind::Read { length } => Call::Read {
                fd,
                length: u64::from(length),
            },
            DataKind::Write { bytes } => Call::Write { fd, bytes },
            DataKind::Seek { offset } => Call::Seek {
                fd,
                offset: u64::from(offset),
            },
            DataKind::Size => Call::Size { fd },
        }
    }
}

/// A `sync` of a file: the dirty blocks of its issue go to the server, one after the other.
#[derive(Debug, Drop)]
pub struct SyncCall {
    /// The number of the call among the process's calls.
    pub number: u32,
    /// The descriptor that the call names.
    pub fd: Descriptor,
    /// The file.
    pub file: FileId,
    /// The blocks that were dirty at its issue and may be so still, in ascending order.
    pub todo: Items<BlockNo>,
    /// What it waits for.
    pub state: SyncState,
}

impl SyncCall {
    /// The call, as the process made it.
    pub fn into_call(self) -> Call
        ensures { result ≡ sync_call self }
    {
        Call::Sync {
            fd: u64::from(self.fd.number()),
        }
    }
}

/// A write-back that has no answer yet (Nelson, Welch and Ousterhout 1988).
#[derive(Clone, Copy, Debug, PartialEq, Eq)]
pub struct WriteBackOut {
    /// The file.
    pub file: FileId,
    /// The block that went.
    pub block: BlockNo,
    /// The stamp under which it went.
    pub stamp: u32,
    /// The block's dirty number then.
    pub number: u64,
}
