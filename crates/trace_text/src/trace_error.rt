ghost use Rattle.std.specs.Prelude.{◌≡◌};
ghost use Rattle.trace_text.specs.declared.trace_error.TraceError.TheVariants.{NoMemory as NoMemoryLeft};

use thiserror::Error;

/// Why a trace was not read (this project).
#[derive(Clone, Copy, Debug, PartialEq, Eq, Error)]
pub enum TraceError {
    /// The first line, counted from 1, that is no record's.
    #[error("line {0} is no record's")]
    Line(usize),
    /// Memory was wanting, the one cause that no clause ties down.
    #[error("out of memory")]
    NoMemory,
}

impl From<sprite_ids::NoMemory> for TraceError {
    ghost from_gives = { λ _ end. end ≡ NoMemoryLeft };

    fn from(_error: sprite_ids::NoMemory) -> TraceError {
        TraceError::NoMemory
    }
}
