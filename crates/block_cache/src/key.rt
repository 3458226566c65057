ghost use Rattle.std.specs.Prelude.{◌≡◌};

use sprite_ids::{BlockNo, FileId};

/// A block of a file, as the cache finds it.
#[derive(Clone, Copy, Debug, PartialEq, Eq, Hash)]
pub struct BlockKey {
    pub file: FileId,
    pub block: BlockNo,
}

impl BlockKey {
    // That block of the file.
    pub(crate) fn of(file: &FileId, block: BlockNo) -> BlockKey
        ensures { result ≡ record { file = file.now; block = block } }
    {
        BlockKey { file: *file, block }
    }

    // The same key.
    pub(crate) fn copied(&self) -> BlockKey
        ensures { result ≡ self.now }
    {
        *self
    }
}
