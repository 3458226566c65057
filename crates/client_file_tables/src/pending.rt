use crate::moves::{CloseWork, MoveWork};
use crate::names::NameCall;
use crate::works::{DataCall, SyncCall};

/// An operation that waits for something: a process has at most one (this project).
#[derive(Debug, Drop)]
pub enum Pending {
    /// A name call.
    Name(NameCall),
    /// A read, write, seek or size of a file.
    Data(DataCall),
    /// A `sync`.
    Sync(SyncCall),
    /// A `close`, or the closes at the end of a process.
    Close(CloseWork),
    /// A stream that moves.
    Move(MoveWork),
}
