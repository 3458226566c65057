use sprite_ids::NoMemory;
use thiserror::Error;

/// Why no ask was taken.
#[derive(Clone, Copy, Debug, PartialEq, Eq, Error)]
pub enum TakeEnd {
    /// One is in hand.
    #[error("one is in hand")]
    Busy,
    /// None waits.
    #[error("none waits")]
    Empty,
    /// The first has more bytes than were asked for.
    #[error("the first is too long")]
    Long,
    /// Memory was wanting.
    #[error("out of memory")]
    NoMemory,
}

impl From<NoMemory> for TakeEnd {
    ghost use Rattle.std.specs.Prelude.{◌≡◌};
    ghost use Rattle.pseudo_device.specs.declared.end.TakeEnd.TheVariants.{NoMemory};

    ghost from_gives = { λ _ end. end ≡ NoMemory };

    fn from(_error: NoMemory) -> TakeEnd {
        TakeEnd::NoMemory
    }
}

/// Why an answer was not taken.
#[derive(Clone, Copy, Debug, PartialEq, Eq, Error)]
pub enum PutEnd {
    /// None is in hand, or it can't have that answer.
    #[error("no such answer")]
    Invalid,
    /// Memory was wanting.
    #[error("out of memory")]
    NoMemory,
}

impl From<NoMemory> for PutEnd {
    ghost use Rattle.std.specs.Prelude.{◌≡◌};
    ghost use Rattle.pseudo_device.specs.declared.end.PutEnd.TheVariants.{NoMemory};

    ghost from_gives = { λ _ end. end ≡ NoMemory };

    fn from(_error: NoMemory) -> PutEnd {
        PutEnd::NoMemory
    }
}
