use crate::states::NameState;
use packet_bodies::{Descriptor, NameOp};
use process_machine::Call;
use sprite_ids::{DeviceId, StreamNo};
use sprite_paths::Path;

/// What a name call does at the server.
#[derive(Debug, Drop)]
pub enum NameKind {
    /// Opens the path.
    Open {
        /// The flags, as the call has them; they are lawful.
        flags: u8,
        /// The stream that the open makes.
        stream: StreamNo,
        /// The descriptor that the call will answer, the lowest free one at its issue.
        fd: Descriptor,
    },
    /// Makes a pseudo-device of that path (Welch and Ousterhout 1988).
    Make {
        /// The pseudo-device.
        device: DeviceId,
        /// The master's stream.
        stream: StreamNo,
        /// The descriptor that the call will answer, the lowest free one at its issue.
        fd: Descriptor,
    },
    /// Any other name call.
    Name {
        /// What is done.
        op: NameOp,
        /// The new path of a rename.
        second: Option<Path>,
        /// How many bytes a list may answer.
        max: u32,
    },
}

/// A name call, as it was issued (Welch and Ousterhout 1986).
#[derive(Debug, Drop)]
pub struct NameWork {
    /// The number of the call among the process's calls.
    pub number: u32,
    /// The call, as the process made it.
    pub call: Call,
    /// The cleaned path that it names; a rename's old one.
    pub path: Path,
    /// What it does at the server.
    pub kind: NameKind,
}

/// A name call that waits.
#[derive(Debug, Drop)]
pub struct NameCall {
    /// The call.
    pub work: NameWork,
    /// What it waits for.
    pub state: NameState,
}
