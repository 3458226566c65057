use sprite_ids::Kernel;

/// What a daemon that lends hosts is told or asked (this project).
#[derive(Clone, Copy, Debug, PartialEq, Eq)]
pub enum LendEvent {
    /// Nobody works at the host any longer.
    Idle {
        /// The host.
        host: Kernel,
    },
    /// The owner of the host is back.
    Owner {
        /// The host.
        host: Kernel,
    },
    /// A borrower asks for a host.
    Borrow {
        /// Who asks.
        borrower: Kernel,
    },
    /// A borrower gives a host back.
    Return {
        /// Who gives it back.
        borrower: Kernel,
        /// The host.
        host: Kernel,
    },
    /// A borrower gives all its hosts back.
    Leave {
        /// Who leaves.
        borrower: Kernel,
    },
}
