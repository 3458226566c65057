use process_machine::{Call, Image, Reply};
use sprite_ids::TxNo;

/// What a process that is here is doing (Douglis and Ousterhout 1991; the states are this project's).
#[derive(Debug, Drop)]
pub enum ProcState {
    /// It is between two calls, and runs.
    Ready,
    /// It is between two calls, and waits for a page.
    PageWait {
        /// The remote call that fetches the page.
        tx: TxNo,
        /// Which of its pages.
        page: u8,
    },
    /// It is inside a call whose reply is given before this step ends; no process is so between two steps.
    Returning,
    /// It is inside a call on files.
    InFiles,
    /// It is inside a call that is done at another kernel: its own home, or of a `kill` the home of its argument.
    AtHome {
        /// The remote call that asks for it.
        tx: TxNo,
    },
    /// It is inside `wait`, which is parked at this kernel, its home.
    Waiting,
    /// It is inside `pd_get`.
    Getting {
        /// The pseudo-device of which it is a master.
        device: u32,
        /// How many bytes the ask may have.
        max: u32,
    },
    /// It is inside an operation on a pseudo-device.
    InAsk {
        /// The remote call that asks the device's kernel; None where the device is this kernel's.
        tx: Option<TxNo>,
    },
    /// It is inside `fork`, and its pages that are away are fetched first.
    ForkPages {
        /// The remote call that fetches the page.
        tx: TxNo,
        /// Which of its pages.
        page: u8,
    },
    /// It came here in its own `migrate`, and the pages that this call names are fetched before the reply is given.
    AnswerPages {
        /// The remote call that fetches the page.
        tx: TxNo,
        /// Which of its pages.
        page: u8,
        /// The reply.
        reply: Reply,
    },
    /// It has come here, and its home isn't told of it yet.
    Arriving {
        /// The remote call that tells its home.
        tx: TxNo,
        /// Whether it is in its own `migrate` or `rexec`.
        moving: bool,
    },
    /// It dies by a kill, and its home isn't told of it yet.
    Dying {
        /// The remote call that tells its home.
        tx: TxNo,
    },
    /// It has ended, and its descriptors are closed.
    Ending,
}

/// A process that is here (this project).
#[derive(Debug, Drop)]
pub struct Proc {
    /// The number of the call that it came to last, from 1; 0 where it came to none.
    pub number: u32,
    /// Its image.
    pub image: Image,
    /// Whether the call that it is in made its image anew, so that the reply isn't put into it.
    pub fresh: bool,
    /// Whether a kill is known here.
    pub killed: bool,
    /// Whether it is to leave this kernel when it is next between two calls.
    pub evict: bool,
    /// The call that it is in; None where it is in none, or came here inside of it.
    pub call: Option<Call>,
    /// What it is doing.
    pub state: ProcState,
}
