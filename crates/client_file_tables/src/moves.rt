use crate::states::{CloseState, MoveState};
use packet_bodies::Descriptor;
use sprite_ids::{DeviceId, Grant, Items, Kernel, Pid, StreamNo};
use stream_table::Place;
use unix_calls::About;

/// For what descriptors are closed.
#[derive(Clone, Copy, Debug, PartialEq, Eq)]
pub enum ClosingOf {
    /// For the `close` of one descriptor.
    Call {
        /// The number of the call among the process's calls.
        number: u32,
        /// The descriptor.
        fd: Descriptor,
    },
    /// The process has ended, by that call or by none.
    End {
        /// The call for whose sake requests go.
        about: Option<About>,
    },
}

/// Descriptors of a process that are closed one after the other.
#[derive(Debug, Drop)]
pub struct CloseWork {
    /// For what.
    pub of: ClosingOf,
    /// The descriptors, 0 to 15, in ascending order.
    pub fds: Items<u8>,
    /// What it waits for.
    pub state: CloseState,
}

/// A stream of a frozen process that moves (Douglis and Ousterhout 1991).
#[derive(Debug, Drop)]
pub struct MoveWork {
    /// The call for whose sake the process moves: its own, or none.
    pub about: Option<About>,
    /// The stream.
    pub stream: StreamNo,
    /// The kernel that it moves to.
    pub to: Kernel,
    /// What it waits for.
    pub state: MoveState,
}

/// What the processes' side of a kernel is told beside the replies (this project).
#[derive(Clone, Copy, Debug, PartialEq, Eq)]
pub enum Report {
    /// A stream of the process has moved (Douglis and Ousterhout 1991).
    Moved {
        /// The frozen process.
        pid: Pid,
        /// Where the stream's offset is kept from now on.
        place: Place,
        /// The target's grant; None for a pseudo-device.
        grant: Option<Grant>,
        /// How many grants of the stream go with it.
        grants: u32,
    },
    /// All descriptors of a process that has ended are closed.
    AllClosed {
        /// The process.
        pid: Pid,
    },
    /// The last reference to a master's stream is closed (Welch and Ousterhout 1988).
    MasterClosed {
        /// Its pseudo-device.
        device: DeviceId,
    },
}
