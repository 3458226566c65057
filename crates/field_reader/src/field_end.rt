ghost use Rattle.std.specs.Prelude.{◌≡◌};
ghost use Rattle.field_reader.specs.declared.field_end.FieldEnd.TheVariants.{NoMemory as NoMemoryLeft};

use sprite_ids::NoMemory;
use std::alloc::{AllocError, AllocFailed};
use thiserror::Error;

/// Why a value was not spelled, or none was read at the front of bytes (this project).
#[derive(Clone, Copy, Debug, PartialEq, Eq, Error)]
pub enum FieldEnd {
    /// No value of the type is spelled so, or the value has no spelling.
    #[error("no value is spelled so")]
    NotSpelled,
    /// Memory was wanting.
    #[error("out of memory")]
    NoMemory,
}

impl From<AllocError> for FieldEnd {
    ghost from_gives = { λ _ end. end ≡ NoMemoryLeft };

    fn from(_error: AllocError) -> FieldEnd {
        FieldEnd::NoMemory
    }
}

impl<T: Drop> From<AllocFailed<T>> for FieldEnd {
    ghost from_gives = { λ _ end. end ≡ NoMemoryLeft };

    fn from(_error: AllocFailed<T>) -> FieldEnd {
        FieldEnd::NoMemory
    }
}

impl From<NoMemory> for FieldEnd {
    ghost from_gives = { λ _ end. end ≡ NoMemoryLeft };

    fn from(_error: NoMemory) -> FieldEnd {
        FieldEnd::NoMemory
    }
}
