use packet_bodies::{ReplyBody, Request};
use process_machine::Call;
use sprite_ids::{BlockNo, FileId, Kernel, Pid, TxNo};

/// What a kernel is given for one step (this project).
#[derive(Debug, Drop)]
pub enum Input {
    /// A process that runs here came to a call.
    Issued {
        /// The process.
        pid: Pid,
        /// The number of the call among the process's calls, from 1.
        number: u32,
        /// The call.
        call: Call,
    },
    /// A kernel asks something of this one, for the first time (Welch 1986).
    Request {
        /// The remote call.
        tx: TxNo,
        /// The kernel that asks.
        from: Kernel,
        /// What it asks.
        body: Request,
    },
    /// A remote call of this kernel was answered (Welch 1986).
    Replied {
        /// The remote call.
        tx: TxNo,
        /// The kernel that answers: of a broadcast, the one that serves the prefix.
        from: Kernel,
        /// The answer.
        body: ReplyBody,
    },
    /// A remote call of this kernel, an echo or a broadcast, was tried eight times and is given up.
    GaveUp {
        /// The remote call.
        tx: TxNo,
    },
    /// A dirty block has been delayed long enough and is to be written back (Nelson, Welch and Ousterhout 1988).
    Due {
        /// The file.
        file: FileId,
        /// The block.
        block: BlockNo,
    },
    /// A process that runs here came to a page that is away.
    PageNeeded {
        /// The process.
        pid: Pid,
        /// Which of its pages.
        page: u8,
    },
}
