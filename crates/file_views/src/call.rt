use crate::body::FileBody;
use crate::grant::FileGrant;
use sprite_ids::{Kernel, StreamNo};

/// A call on the file that isn't finished.
#[derive(Debug, PartialEq, Eq, Drop)]
pub struct FileCall {
    pub number: u32,
    pub from: Kernel,
    pub to: Kernel,
    /// The request.
    pub body: FileBody,
    /// The block's dirty number when a write-back was sent, else None.
    pub dirty: Option<u64>,
    /// Whether the request came to its receiver.
    pub taken: bool,
    /// The reply, once it is made.
    pub reply: Option<FileBody>,
}

/// A stream that a process in transit carries to its target, with the grant for it.
#[derive(Clone, Copy, Debug, PartialEq, Eq)]
pub struct Carry {
    /// The number of the move's call.
    pub call: u32,
    pub to: Kernel,
    pub stream: StreamNo,
    pub grant: Option<FileGrant>,
}
