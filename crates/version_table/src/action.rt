ghost use Rattle.std.specs.Prelude.{◌≡◌};
ghost use Rattle.version_table.specs.Opens.{receiver, stream_of, truncates, shares};

use sprite_ids::{Callback, Grant, Items, Kernel, Mode, StreamNo};

/// What asks for a grant.
#[derive(Clone, Copy, Debug, PartialEq, Eq)]
pub enum Action {
    /// A kernel opens a stream.
    Opening {
        kernel: Kernel,
        stream: StreamNo,
        mode: Mode,
        /// Whether the file is emptied (this project's callbacks and versions go with it).
        truncate: bool,
    },
    /// A stream moves with a process (Douglis and Ousterhout 1991).
    Moving {
        stream: StreamNo,
        from: Kernel,
        to: Kernel,
        /// Whether references stay at the source; the stream is then shared.
        kept: bool,
        /// The grants of the stream that the source received, taken off it where no references stay.
        grants: u32,
    },
}

/// What the table decides on an open or a move.
#[derive(Debug, PartialEq, Eq, Drop)]
pub enum Decision {
    /// It is granted. The grant's size is 0: the server puts the size there.
    Grant(Grant),
    /// These callbacks go first, in ascending order of kernels, each kernel once; the file is busy until they are
    /// answered and the file is settled.
    CallFirst(Items<Callback>),
}

impl Action {
    // The kernel that is granted.
    pub(crate) fn receiver(&self) -> Kernel
        ensures { result ≡ receiver self.now }
    {
        match self {
            Action::Opening { kernel, .. } => *kernel,
            Action::Moving { to, .. } => *to,
        }
    }

    // The stream that is opened or moved.
    pub(crate) fn stream(&self) -> StreamNo
        ensures { result ≡ stream_of self.now }
    {
        match self {
            Action::Opening { stream, .. } => *stream,
            Action::Moving { stream, .. } => *stream,
        }
    }

    // Whether the file is truncated.
    pub(crate) fn truncates(&self) -> bool
        ensures { result ≡ truncates self.now }
    {
        match self {
            Action::Opening { truncate, .. } => *truncate,
            Action::Moving { .. } => false,
        }
    }

    // Whether the stream becomes shared.
    pub(crate) fn shares(&self) -> bool
        ensures { result ≡ shares self.now }
    {
        match self {
            Action::Opening { .. } => false,
            Action::Moving { kept, .. } => *kept,
        }
    }
}
