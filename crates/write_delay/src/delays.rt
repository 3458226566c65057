ghost use Rattle.std.specs.Prelude.{◌≡◌, ◌≤◌, ◌+◌, [], false, nat_le, IfOk, OnOk, OnErr, IsTrue, length};
ghost use Rattle.sprite_ids.specs.Lists.{without};
ghost use Rattle.write_delay.specs.Delays.{is_of, listed, dirtied, due, AreOnce, FallsFrom};

use crate::delayed_block::DelayedBlock;
use lru::LruCache;
use sprite_ids::{BlockNo, FileId, NoMemory};
use std::alloc::Global;
use std::marker::Model;

/// After how many recorded steps a dirty block is due (this project).
const DELAY: u64 = 30;

/// The dirty blocks that wait to be written back, each once. Contracts see them with the recorded step at which each was
/// made dirty last, from the one that was made dirty last to the one that was first.
///
/// Each call takes constant time on average, but for `due` where a step was less than one before it, which looks at all.
#[derive(Debug, Drop)]
pub struct Delays {
    blocks: LruCache<DelayedBlock, u64>,
    // Whether no block was made dirty at a step less than that of a block before it.
    in_order: bool,
}

impl Model for Delays {
    ghost use Rattle.std.specs.Prelude.{◌≡◌, ◌≤◌, ◌^◌, ℕ, true, List};
    ghost use Rattle.write_delay.specs.declared.delayed_block.DelayedBlock.{DelayedBlock};
    ghost use Rattle.write_delay.specs.Delays.{Falls};

    ghost Value = { List (DelayedBlock × ℕ) };

    ghost view = { λ delays. delays.blocks.entries };

    ghost invariant = { λ delays. (2 ^ 63 ≤ delays.blocks.cap) × (delays.in_order ≡ true → Falls delays.blocks.entries) };
}

impl Delays {
    /// No blocks. It keeps the allocator. The one error is want of memory.
    pub fn new(alloc: Global) -> Result<Delays, NoMemory>
        ensures { IfOk result (λ delays. delays ≡ []) }
    {
        Ok(Delays {
            blocks: LruCache::unbounded(alloc)?,
            in_order: true,
        })
    }

    /// How many blocks are listed. That none is listed twice comes with it.
    pub fn len(&self) -> usize
        ensures len { result ≡ length self.now }
        ensures once { AreOnce self.now }
    {
        self.blocks.len()
    }

    /// Lists the block as the one that was made dirty last, at that step. A block that is listed already leaves its old place
    /// and step.
    ///
    /// Want of memory, the one error, comes only for a block that isn't listed, and the list is then as before.
    pub fn dirtied(&mut self, file: FileId, block: BlockNo, step: u64) -> Result<(), NoMemory>
        ensures ok { OnOk result (self.new ≡ dirtied self.old file block step) }
        ensures err { OnErr result (self.new ≡ self.old) }
        ensures absent { OnErr result (listed self.old file block ≡ false) }
    {
        let in_order = self.blocks.len() == 0 || self.is_followed_by(step);
        self.blocks.put(DelayedBlock { file, block }, step)?;
        self.in_order = in_order;
        Ok(())
    }

    /// Takes the block off the list, where it is listed.
    pub fn cleaned(&mut self, file: FileId, block: BlockNo)
        ensures { self.new ≡ without (is_of file block) self.old }
    {
        if self.blocks.len() == 0 {
            return;
        }
        let _step = self.blocks.pop(&DelayedBlock { file, block });
    }

    /// Whether the block is listed.
    pub fn listed(&self, file: FileId, block: BlockNo) -> bool
        ensures { result ≡ listed self.now file block }
    {
        self.blocks.contains(&DelayedBlock { file, block })
    }

    /// Of the blocks that were made dirty at least 30 steps before this one, that which was first; None exactly where there is
    /// none.
    pub fn due(&self, step: u64) -> Option<(FileId, BlockNo)>
        ensures { result ≡ due self.now step }
    {
        if !self.in_order {
            return oldest_due(&self.blocks, step);
        }
        let (block, made) = self.blocks.peek_lru()?;
        if !is_due(*made, step) {
            return None;
        }
        Some(block.named())
    }

    // Whether the list stays in the order of steps with one more block, made dirty at that step.
    fn is_followed_by(&self, step: u64) -> bool
        ensures { IsTrue result → FallsFrom step self.now }
    {
        match self.blocks.peek_mru() {
            Some((_block, newest)) => self.in_order && *newest <= step,
            None => true,
        }
    }
}

// Whether a block that was made dirty at the first step is due at the second.
fn is_due(made: u64, step: u64) -> bool
    ensures { result ≡ nat_le (made + 30) step }
{
    step.saturating_sub(made) >= DELAY
}

// Of the blocks that are due, that which was made dirty first.
fn oldest_due(blocks: &LruCache<DelayedBlock, u64>, step: u64) -> Option<(FileId, BlockNo)>
    ensures { result ≡ due blocks.now.entries step }
{
    for (block, made) in blocks.iter().rev() {
        if is_due(*made, step) {
            return Some(block.named());
        }
    }
    None
}
