ghost use Rattle.std.specs.Prelude.{◌≡◌};
ghost use Rattle.write_delay.specs.Delays.{named};

use sprite_ids::{BlockNo, FileId};

/// A block of a file, as the list finds it.
#[derive(Clone, Copy, Debug, PartialEq, Eq, Hash)]
pub struct DelayedBlock {
    pub file: FileId,
    pub block: BlockNo,
}

impl DelayedBlock {
    // Its file and its number.
    pub(crate) fn named(&self) -> (FileId, BlockNo)
        ensures { result ≡ named self.now }
    {
        (self.file, self.block)
    }
}
