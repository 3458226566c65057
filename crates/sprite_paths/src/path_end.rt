use sprite_ids::NoMemory;
use thiserror::Error;

/// Why a text was not cleaned.
#[derive(Clone, Copy, Debug, PartialEq, Eq, Error)]
pub enum PathEnd {
    /// The text is no path text, or it leads to a path past the limits (this project).
    #[error("bad name")]
    BadName,
    /// Memory was wanting.
    #[error("out of memory")]
    NoMemory,
}

impl From<NoMemory> for PathEnd {
    ghost use Rattle.std.specs.Prelude.{◌≡◌};
    ghost use Rattle.sprite_paths.specs.declared.path_end.PathEnd.TheVariants.{NoMemory};

    ghost from_gives = { λ _ end. end ≡ NoMemory };

    fn from(_error: NoMemory) -> PathEnd {
        PathEnd::NoMemory
    }
}
