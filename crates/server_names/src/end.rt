use sprite_ids::{Errno, NoMemory};
use sprite_paths::Path;
use std::alloc::AllocError;
use thiserror::Error;

/// Why an operation on a name was not done.
#[derive(Debug, PartialEq, Eq, Drop, Error)]
pub enum NameEnd {
    /// It is refused.
    #[error("refused")]
    Errno(Errno),
    /// The walk met a remote link, at this path: another domain hangs there (Welch and Ousterhout 1986).
    #[error("in another domain")]
    Redirect(Path),
    /// Memory was wanting.
    #[error("out of memory")]
    NoMemory,
}

impl From<NoMemory> for NameEnd {
    ghost use Rattle.std.specs.Prelude.{◌≡◌};
    ghost use Rattle.server_names.specs.declared.end.NameEnd.TheVariants.{NoMemory};

    ghost from_gives = { λ _ end. end ≡ NoMemory };

    fn from(_error: NoMemory) -> NameEnd {
        NameEnd::NoMemory
    }
}

impl From<AllocError> for NameEnd {
    ghost use Rattle.std.specs.Prelude.{◌≡◌};
    ghost use Rattle.server_names.specs.declared.end.NameEnd.TheVariants.{NoMemory};

    ghost from_gives = { λ _ end. end ≡ NoMemory };

    fn from(_error: AllocError) -> NameEnd {
        NameEnd::NoMemory
    }
}
