use sprite_ids::{Bytes, NoMemory};
use thiserror::Error;

/// Why a cluster file is refused (this project).
#[derive(Debug, PartialEq, Eq, Drop)]
pub struct Refusal {
    /// 1 too long, 2 no TOML document, 3 an unknown key, 4 a key is missing, 5 a value of a wrong type, 6 out of limits,
    /// 7 a name twice, 8 no domain `/`, 9 an unknown host, 10 a bad path, 11 a bad line of a program, 12 an unknown
    /// program.
    pub number: u8,
    /// The place, as it is printed behind the number; empty for 1, 2 and 8.
    pub at: Bytes,
}

/// Why bytes gave no description.
#[derive(Debug, PartialEq, Eq, Drop, Error)]
pub enum FileEnd {
    /// They are no cluster file.
    #[error("refused")]
    Refused(Refusal),
    #[error("out of memory")]
    NoMemory,
}

impl From<NoMemory> for FileEnd {
    ghost use Rattle.std.specs.Prelude.{◌≡◌};
    ghost use Rattle.cluster_file.specs.declared.refusal.FileEnd.TheVariants as end;

    ghost from_gives = { λ _ e. e ≡ end.NoMemory };

    fn from(_error: NoMemory) -> FileEnd {
        FileEnd::NoMemory
    }
}
