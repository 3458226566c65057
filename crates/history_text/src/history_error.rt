ghost use Rattle.std.specs.Prelude.{◌≡◌};
ghost use Rattle.history_text.specs.declared.history_error.HistoryError.TheVariants.{NoMemory as NoMemoryLeft};

use std::alloc::{AllocError, AllocFailed};
use thiserror::Error;

/// Why a history was not printed or read (this project).
#[derive(Clone, Copy, Debug, PartialEq, Eq, Error)]
pub enum HistoryError {
    /// The first line, counted from 1, that is no entry's; in printing, the place of the first entry that has no line.
    #[error("line {0} is no entry's")]
    Line(usize),
    /// Memory was wanting, the one cause that no clause ties down.
    #[error("out of memory")]
    NoMemory,
}

impl From<AllocError> for HistoryError {
    ghost from_gives = { λ _ end. end ≡ NoMemoryLeft };

    fn from(_error: AllocError) -> HistoryError {
        HistoryError::NoMemory
    }
}

impl<T: Drop> From<AllocFailed<T>> for HistoryError {
    ghost from_gives = { λ _ end. end ≡ NoMemoryLeft };

    fn from(_error: AllocFailed<T>) -> HistoryError {
        HistoryError::NoMemory
    }
}
