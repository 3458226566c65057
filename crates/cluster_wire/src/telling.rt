use link_plan::Fate;
use sprite_ids::{Items, Kernel, TxNo};

/// A packet of a remote call that went out for the first time, and what the link made of it.
#[derive(Clone, Copy, Debug)]
pub struct Sent {
    /// The remote call.
    pub tx: TxNo,
    /// The kernel to which it went.
    pub to: Kernel,
    /// What the link made of it.
    pub fate: Fate,
}

/// What the link made of all that a step of a kernel said.
#[derive(Debug, Drop)]
pub struct Said {
    /// The number of the next remote call, as the step began.
    pub next: TxNo,
    /// Of the requests, in their order.
    pub sent: Items<Sent>,
    /// Of the replies, in their order, each with the kernel that it goes to.
    pub answered: Items<(Kernel, Fate)>,
}
