use link_plan::Fate;
use sprite_ids::{Items, Kernel, TxNo};

/// What a copy of a packet was to the kernel to which it came.
#[derive(Debug, PartialEq, Eq, Drop)]
pub enum Delivered<M> {
    /// The request of a call, for the first time at this kernel.
    Request(TxNo, M),
    /// The reply to a call of this kernel, for the first time.
    Reply(TxNo, M),
    /// The request of a call that this kernel has answered; its reply was sent again, with this fate.
    Repeated(TxNo, Fate),
    /// A copy that its call is past.
    Old,
}

/// What became of a call whose timer fired.
#[derive(Debug, PartialEq, Eq, Drop)]
pub enum Expired {
    /// The request was sent again to each receiver, with these fates.
    Resent(Items<(Kernel, Fate)>),
    /// The call was given up: the eighth try of an echo or a broadcast was lost. These are the fault counts of the caller and
    /// the owner as the call began and now.
    GivenUp { before: u64, now: u64 },
}
