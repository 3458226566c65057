use sprite_ids::{NoMemory, Pid};
use thiserror::Error;

/// Why no process was born.
#[derive(Clone, Copy, Debug, PartialEq, Eq, Error)]
pub enum HomeEnd {
    /// The home made 200 processes already (this project).
    #[error("too many births")]
    TooMany,
    /// Memory was wanting.
    #[error("out of memory")]
    NoMemory,
}

impl From<NoMemory> for HomeEnd {
    ghost use Rattle.std.specs.Prelude.{◌≡◌};
    ghost use Rattle.home_table.specs.declared.end.HomeEnd.TheVariants.{NoMemory};

    ghost from_gives = { λ _ end. end ≡ NoMemory };

    fn from(_error: NoMemory) -> HomeEnd {
        HomeEnd::NoMemory
    }
}

/// What a `wait` is told.
#[derive(Clone, Copy, Debug, PartialEq, Eq)]
pub enum WaitAnswer {
    /// The child that had ended, and its status: its exit code from 0 to 255, 256 after a bad step, 257 after a kill (this
    /// project).
    Child(Pid, u16),
    /// Every child was waited for, or there was none.
    NoChild,
    /// There are children that were not waited for, and none of them has ended.
    NotYet,
}
