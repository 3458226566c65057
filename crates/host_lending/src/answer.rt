use sprite_ids::Kernel;

/// What a daemon that lends hosts answers (this project).
#[derive(Clone, Copy, Debug, PartialEq, Eq)]
pub enum LendAnswer {
    /// The host is idle, or busy, from now on; it was not lent.
    Noted,
    /// The host is busy from now on, and the borrower that held it has lost it.
    Revoked(Kernel),
    /// The borrower holds the host, which was free.
    Lent(Kernel),
    /// The borrower holds the host, which another borrower has lost.
    Moved {
        /// The host.
        host: Kernel,
        /// Who held it.
        from: Kernel,
    },
    /// No host is free, and no other borrower holds at least two more than the one that asks.
    NoHost,
    /// The borrower held the host, and doesn't any longer.
    Returned,
    /// The borrower doesn't hold the host; nothing changes.
    NotHeld,
    /// So many loans of the borrower are ended.
    Left(usize),
}
