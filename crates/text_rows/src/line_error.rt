ghost use Rattle.std.specs.Prelude.{◌≡◌};
ghost use Rattle.text_rows.specs.declared.line_error.LineError.TheVariants.{NoMemory as NoMemoryLeft};

use sprite_ids::NoMemory;
use std::alloc::{AllocError, AllocFailed};
use thiserror::Error;

/// Why a text with a row a line was not read (this project).
#[derive(Clone, Copy, Debug, PartialEq, Eq, Error)]
pub enum LineError {
    /// The first line, counted from 1, that isn't of its form.
    #[error("line {0} isn't of its form")]
    Line(usize),
    /// Memory was wanting, the one cause that no clause ties down.
    #[error("out of memory")]
    NoMemory,
}

impl From<AllocError> for LineError {
    ghost from_gives = { λ _ end. end ≡ NoMemoryLeft };

    fn from(_error: AllocError) -> LineError {
        LineError::NoMemory
    }
}

impl<T: Drop> From<AllocFailed<T>> for LineError {
    ghost from_gives = { λ _ end. end ≡ NoMemoryLeft };

    fn from(_error: AllocFailed<T>) -> LineError {
        LineError::NoMemory
    }
}

impl From<NoMemory> for LineError {
    ghost from_gives = { λ _ end. end ≡ NoMemoryLeft };

    fn from(_error: NoMemory) -> LineError {
        LineError::NoMemory
    }
}
