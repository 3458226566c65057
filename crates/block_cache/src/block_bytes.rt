ghost use Rattle.std.specs.Prelude.{◌≡◌, ◌≤◌, ◌+◌, IfOk, length};
ghost use Rattle.block_cache.specs.Ranges.{over, padded};

use crate::span::BLOCK;
use sprite_ids::NoMemory;
use std::alloc::Global;
use std::marker::Model;

/// The 4,096 bytes of a block. Contracts see them as their list.
#[derive(Debug, Drop)]
pub struct BlockBytes {
    items: Vec<u8>,
}

impl Model for BlockBytes {
    ghost use Rattle.std.specs.Prelude.{◌≡◌, List, ℕ, length};

    ghost Value = { List ℕ };

    ghost view = { λ bytes. bytes.items.items };

    ghost invariant = { λ bytes. length bytes.items.items ≡ 4096 };
}

impl BlockBytes {
    // The bytes, with zeros behind them. The one error is want of memory.
    pub(crate) fn of_slice(alloc: Global, bytes: &[u8]) -> Result<BlockBytes, NoMemory>
        requires { length bytes.now ≤ 4096 }
        ensures { IfOk result (λ block. block ≡ padded bytes.now) }
    {
        let mut items = Vec::from_slice(alloc, bytes)?;
        items.resize(BLOCK as usize, 0)?;
        Ok(BlockBytes { items })
    }

    // The bytes.
    pub(crate) fn as_slice(&self) -> &[u8]
        ensures bytes { result.now ≡ self.now }
        ensures whole { length self.now ≡ 4096 }
    {
        self.items.as_slice()
    }

    // Puts the bytes over those that stand there.
    pub(crate) fn write(&mut self, at: usize, bytes: &[u8])
        requires { at + length bytes.now ≤ 4096 }
        ensures { self.new ≡ over self.old at bytes.now }
    {
        self.items[at..at + bytes.len()].copy_from_slice(bytes);
    }
}
