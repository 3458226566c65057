use sprite_ids::{BlockNo, Kernel, NoMemory, StreamNo, TxNo};
use sprite_paths::Path;
use stream_table::Place;

/// What a name call waits for (Welch and Ousterhout 1986).
#[derive(Debug, Drop)]
pub enum NameState {
    /// That the server of this prefix answers a broadcast.
    Broadcasting {
        /// The broadcast.
        tx: TxNo,
        /// The prefix.
        prefix: Path,
    },
    /// That the server gives a sign of life, before the request goes (this project).
    Echoing {
        /// The echo.
        tx: TxNo,
        /// The server.
        server: Kernel,
    },
    /// The answer to the request itself.
    Asking {
        /// The request.
        tx: TxNo,
    },
}

/// What an operation on a file's data waits for (Nelson, Welch and Ousterhout 1988; turns and rooms are this project's).
#[derive(Clone, Copy, Debug, PartialEq, Eq)]
pub enum DataState {
    /// The stream's lock; in every other state the process has it (Welch 1986).
    WaitLock,
    /// Its turn to fill blocks.
    Turn,
    /// The answer to a write-back, after which a block may be dropped.
    Room {
        /// The write-back.
        tx: TxNo,
    },
    /// A block of the file.
    Fetching {
        /// The fetch.
        tx: TxNo,
        /// The block.
        block: BlockNo,
    },
    /// The answer to the operation, which is done at the server.
    AtServer {
        /// The request.
        tx: TxNo,
    },
}

/// What a `sync` waits for.
#[derive(Clone, Copy, Debug, PartialEq, Eq)]
pub enum SyncState {
    /// Nothing: it looks.
    Looking,
    /// The answer to a write-back of its first block that is out already.
    WaitOther {
        /// The write-back.
        tx: TxNo,
    },
    /// The answer to its own write-back of its first block.
    WaitOwn {
        /// The write-back.
        tx: TxNo,
    },
}

/// What a close waits for.
#[derive(Clone, Copy, Debug, PartialEq, Eq)]
pub enum CloseState {
    /// The lock of the stream of its first descriptor.
    WaitLock,
    /// The server's answer: this kernel's last reference to the stream is gone (Nelson, Welch and Ousterhout 1988).
    Closing {
        /// The request.
        tx: TxNo,
        /// The stream.
        stream: StreamNo,
    },
}

/// What the move of a stream waits for (Douglis and Ousterhout 1991).
#[derive(Clone, Copy, Debug, PartialEq, Eq)]
pub enum MoveState {
    /// The stream's lock.
    WaitLock,
    /// The server's answer.
    MovingOut {
        /// The request.
        tx: TxNo,
        /// Whether references stay here.
        kept: bool,
        /// Where the offset was kept before.
        place: Place,
    },
}
