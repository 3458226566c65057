use sprite_ids::NoMemory;
use thiserror::Error;

/// Why a process got no descriptor.
#[derive(Clone, Copy, Debug, PartialEq, Eq, Error)]
pub enum StreamEnd {
    /// The descriptor that was named isn't in use.
    #[error("no such descriptor")]
    BadFd,
    /// All 16 descriptors are in use (this project).
    #[error("too many descriptors")]
    TooMany,
    /// Memory was wanting.
    #[error("out of memory")]
    NoMemory,
}

impl From<NoMemory> for StreamEnd {
    ghost use Rattle.std.specs.Prelude.{◌≡◌};
    ghost use Rattle.stream_table.specs.declared.end.StreamEnd.TheVariants.{NoMemory};

    ghost from_gives = { λ _ end. end ≡ NoMemory };

    fn from(_error: NoMemory) -> StreamEnd {
        StreamEnd::NoMemory
    }
}
