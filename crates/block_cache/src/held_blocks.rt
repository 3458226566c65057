ghost use Rattle.std.specs.Prelude.{◌≡◌, ◌≤◌, ◌<◌, ◌+◌, ◌-◌, ◌*◌, ◌∷◌, [], IfOk, OnOk, OnErr, length, option_copied, option_map, false};
ghost use Rattle.std.specs.NonZero.{non_zero_usize_get};
ghost use Rattle.std.specs.Map.{remove_entry};
ghost use Rattle.lru.specs.LruCache.{lru_cache, IsValid, promoted};
ghost use Rattle.block_cache.specs.Blocks.{is_at, is_key, block_at, is_held, written_there, cleaned, oldest, is_dirty_of, is_clean_outside};
ghost use Rattle.block_cache.specs.Held.{clean_block, named_of};

use crate::ages::Ages;
use crate::block::Block;
use crate::kept::Kept;
use crate::key::BlockKey;
use crate::{oldest, order};
use lru::LruCache;
use sprite_ids::{BlockNo, FileId, NoMemory};
use std::alloc::Global;
use std::marker::Model;
use std::num::NonZeroUsize;

/// The blocks that are held. Contracts see them, the most recently used first, and how many there may be. The clean ones and
/// the dirty ones stand in orders of use of their own beside that, so that nobody walks past dirty blocks for a clean one, or
/// past clean blocks for a dirty one. Where memory was wanting for these orders they aren't kept any more, and the blocks are
/// walked instead.
#[derive(Debug, Drop)]
pub(crate) struct HeldBlocks {
    order: LruCache<BlockKey, Kept>,
    ages: Ages,
}

impl Model for HeldBlocks {
    ghost use Rattle.lru.specs.LruCache.{lru_cache};
    ghost use Rattle.block_cache.specs.Ages.{Order, plain, AreTold};

    ghost Value = { Order };

    ghost view = { λ held. lru_cache (plain held.order.entries) held.order.cap };

    ghost invariant = { λ held. AreTold held.ages held.order.entries };
}

impl HeldBlocks {
    // No blocks, of that many at most.
    pub fn new(alloc: Global, most: NonZeroUsize) -> Result<HeldBlocks, NoMemory>
        ensures { IfOk result (λ held. held ≡ lru_cache [] (non_zero_usize_get most)) }
    {
        Ok(HeldBlocks {
            order: LruCache::sparse(alloc, most)?,
            ages: Ages::new(alloc),
        })
    }

    // How many there are. That none is there twice comes with it.
    pub fn len(&self) -> usize
        ensures len { result ≡ length self.now.entries }
        ensures valid { IsValid is_key self.now }
    {
        self.order.len()
    }

    // The block, where it is held.
    pub fn find(&self, file: &FileId, block: BlockNo) -> Option<&Block>
        ensures { option_copied result ≡ block_at self.now.entries file.now block.0 }
    {
        match order::find(&self.order, file, block) {
            Some(held) => Some(&held.block),
            None => None,
        }
    }

    // Puts a clean block in, which isn't held, as the most recently used.
    pub fn put(&mut self, alloc: Global, key: BlockKey, bytes: &[u8]) -> Result<(), NoMemory>
        requires absent { is_held self.old.entries key.file key.block.0 ≡ false }
        requires room { length self.old.entries < self.old.cap }
        requires bytes { length bytes.now ≤ 4096 }
        ensures ok { OnOk result (self.new ≡ lru_cache ((key, clean_block bytes.now) ∷ self.old.entries) self.old.cap) }
        ensures err { OnErr result (self.new ≡ self.old) }
    {
        order::put(&mut self.order, alloc, key, bytes, self.ages.next())?;
        self.ages.use_anew(&key, None);
        Ok(())
    }

    // Makes the block clean, where it is held.
    pub fn clean(&mut self, file: &FileId, block: BlockNo)
        ensures { self.new ≡ lru_cache (cleaned self.old.entries file.now block.0) self.old.cap }
    {
        let Some(last) = order::last_use(&self.order, file, block) else {
            return;
        };
        if last.dirty.is_some() {
            order::clean(&mut self.order, file, block);
            self.ages.clean(&BlockKey::of(file, block), &last);
        }
    }

    // Drops the block, where it is held.
    pub fn pop(&mut self, key: &BlockKey)
        ensures { self.new ≡ lru_cache (remove_entry (is_at key.now.file key.now.block.0) self.old.entries) self.old.cap }
    {
        if let Some(last) = order::pop(&mut self.order, key) {
            self.ages.forget(&last);
        }
    }

    // Uses the block.
    pub fn use_one(&mut self, key: &BlockKey)
        ensures { self.new ≡ lru_cache (promoted (is_at key.now.file key.now.block.0) self.old.entries) self.old.cap }
    {
        if let Some(last) = order::use_one(&mut self.order, key, self.ages.next()) {
            self.ages.renew(key, &last, last.dirty);
        }
    }

    // Writes those of the bytes from there on that stand in the block, uses it, and makes it dirty with that number.
    pub fn write_one(&mut self, key: &BlockKey, from: u32, bytes: &[u8], number: u64)
        requires reached { key.now.block.0 ≤ 1024 }
        requires touches { from ≤ 4096 * key.now.block.0 + 4096 }
        ensures { self.new ≡ lru_cache (written_there self.old.entries key.now.file key.now.block.0 from bytes.now number (block_at self.old.entries key.now.file key.now.block.0)) self.old.cap }
    {
        let age = self.ages.next();
        if let Some(last) = order::write_one(&mut self.order, key, from, bytes, number, age) {
            self.ages.renew(key, &last, Some(number));
        }
    }

    // The least recently used dirty block of the file, or of all, with its number.
    pub fn oldest_dirty(&self, file: &Option<FileId>) -> Option<(FileId, BlockNo, u64)>
        ensures { result ≡ named_of (oldest (is_dirty_of file.now) self.now.entries) }
    {
        if self.ages.are_kept() {
            self.ages.oldest_dirty(file)
        } else {
            oldest::oldest_dirty(&self.order, file)
        }
    }

    // The least recently used clean block outside these of the file.
    pub fn oldest_clean(&self, file: &FileId, first: BlockNo, last: BlockNo) -> Option<BlockKey>
        ensures { result ≡ option_map (λ entry. entry.0) (oldest (is_clean_outside file.now first last) self.now.entries) }
    {
        if self.ages.are_kept() {
            self.ages.oldest_clean(file, first, last)
        } else {
            oldest::oldest_clean(&self.order, file, first, last)
        }
    }
}
