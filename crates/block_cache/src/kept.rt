ghost use Rattle.std.specs.Prelude.{◌≡◌};
ghost use Rattle.block_cache.specs.Ages.{last_of};

use crate::block::Block;

/// A block that is held, with the number of its last use.
#[derive(Debug, Drop)]
pub(crate) struct Kept {
    pub block: Block,
    pub age: u64,
}

/// When a block was used last, and what it is written back by, where it is dirty.
#[derive(Clone, Copy, Debug)]
pub(crate) struct LastUse {
    pub age: u64,
    pub dirty: Option<u64>,
}

impl Kept {
    // The block's last use.
    pub fn last_use(&self) -> LastUse
        ensures { result ≡ last_of self.now }
    {
        LastUse {
            age: self.age,
            dirty: self.block.dirty,
        }
    }
}
