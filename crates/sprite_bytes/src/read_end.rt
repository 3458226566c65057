ghost use Rattle.std.specs.Prelude.{◌≡◌};
ghost use Rattle.sprite_bytes.specs.declared.read_end.ReadEnd.TheVariants.{NoMemory};

use std::alloc::{AllocError, AllocFailed};
use thiserror::Error;

/// Why reading to the end of a source ended early. Bytes may have been taken from the source by then (this project).
#[derive(Clone, Copy, Debug, PartialEq, Eq, Error)]
pub enum ReadEnd {
    /// A read failed. `before` is the source's count of faults when the call began, `now` the count when it ended;
    /// the count rose between them or stands at `u64::MAX`.
    #[error("reading failed: {before} faults before, {now} now")]
    Fault {
        /// The count when the call began.
        before: u64,
        /// The count when it ended.
        now: u64,
    },
    /// More bytes came than the limit allows.
    #[error("too many bytes came")]
    TooLong,
    /// Memory was wanting, the one cause that no clause ties down.
    #[error("out of memory")]
    NoMemory,
}

impl From<AllocError> for ReadEnd {
    ghost from_gives = { λ _ end. end ≡ NoMemory };

    fn from(_error: AllocError) -> ReadEnd {
        ReadEnd::NoMemory
    }
}

impl<T: Drop> From<AllocFailed<T>> for ReadEnd {
    ghost from_gives = { λ _ end. end ≡ NoMemory };

    fn from(_error: AllocFailed<T>) -> ReadEnd {
        ReadEnd::NoMemory
    }
}
