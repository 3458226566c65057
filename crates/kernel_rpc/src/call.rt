use sprite_ids::{Bytes, CopyNo, Items, Kernel, Pid, Tries, TxNo};

/// How far a receiver is with the request of a call.
#[derive(Clone, Copy, Debug, PartialEq, Eq)]
pub enum Part {
    /// No copy of the request was handed to it.
    Waiting,
    /// It was handed the request, and has neither answered nor gone silent.
    Holding,
    /// It was handed the request and can't answer it.
    Silent,
    /// It has answered.
    Answered,
}

/// A receiver of a call's request.
#[derive(Clone, Copy, Debug, PartialEq, Eq)]
pub struct Receiver {
    pub kernel: Kernel,
    pub part: Part,
}

/// A remote call that isn't finished (Welch 1986).
#[derive(Debug, PartialEq, Eq, Drop)]
pub struct Call {
    pub tx: TxNo,
    /// The caller.
    pub from: Kernel,
    /// The caller's channel, which has no other unfinished call.
    pub port: u32,
    /// The kernel that is to answer.
    pub owner: Kernel,
    pub tries: Tries,
    /// How many tries were lost so far, from 0 to 7. It isn't counted where there is no end of tries.
    pub lost: u8,
    /// The fault count of the caller and the owner as the call began.
    pub before: u64,
    /// What the request packet names: a process, and the number of its system call. None where the packet
    /// names none, whatever the request is sent for.
    pub about: Option<(Pid, u32)>,
    /// The kernels to which the request goes, in the order of sending; the owner is one of them.
    pub receivers: Items<Receiver>,
    /// The request, as it is spelled.
    pub body: Bytes,
    /// The reply, as it is spelled, once the owner has answered.
    pub reply: Option<Bytes>,
}

/// A copy of a packet that is in flight.
#[derive(Clone, Copy, Debug, PartialEq, Eq)]
pub struct PacketCopy {
    pub number: CopyNo,
    pub tx: TxNo,
    pub from: Kernel,
    pub to: Kernel,
    /// Whether the packet is the reply.
    pub reply: bool,
    /// Whether it goes behind every copy for its receiver that isn't late.
    pub late: bool,
    /// What the request packet of its call names; a reply's copy has it too.
    pub about: Option<(Pid, u32)>,
}

/// What a copy is to the kernel to which it comes.
#[derive(Clone, Copy, Debug, PartialEq, Eq)]
pub enum Arrival {
    /// The request, for the first time.
    FirstRequest,
    /// The reply, for the first time.
    FirstReply,
    /// The request once more, after the kernel has answered it.
    AskedAgain,
    /// A copy that the call is past.
    Past,
}

/// How a call stands.
#[derive(Clone, Copy, Debug, PartialEq, Eq)]
pub enum CallState {
    /// No receiver has it: none was handed the request, or those that were can't answer it.
    Sent,
    /// A receiver has it.
    Taken,
    /// The owner has answered, and the reply wasn't handed to the caller.
    Answered,
    /// The reply was handed to the caller.
    Done,
    /// It was given up after its last try.
    GivenUp,
}
