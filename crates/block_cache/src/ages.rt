ghost use Rattle.std.specs.Prelude.{◌≡◌, [], true, None};
ghost use Rattle.block_cache.specs.Ages.{ages_of, forgotten, noted, noted_by, used_anew, first_clean, first_dirty};

use crate::kept::LastUse;
use crate::key::BlockKey;
use crate::oldest::{is_of, is_within};
use sprite_ids::{BlockNo, FileId};
use std::alloc::Global;
use std::collections::BTreeMap;
use std::marker::Model;

/// The blocks in the order of their last uses, the clean ones and the dirty ones apart. Uses are numbered, and each block
/// stands under the number of its last one, a dirty block with what it is written back by. Contracts see the numbers in
/// ascending order with their blocks, the number of the next use, and whether these lists are kept: they aren't from the
/// time on at which memory was wanting for them.
#[derive(Debug, Drop)]
pub(crate) struct Ages {
    clean: BTreeMap<u64, BlockKey>,
    dirty: BTreeMap<u64, (BlockKey, u64)>,
    next: u64,
    kept: bool,
}

impl Model for Ages {
    ghost use Rattle.block_cache.specs.Ages.{Lists, ages_of};

    ghost Value = { Lists };

    ghost view = { λ ages. ages_of ages.clean.entries ages.dirty.entries ages.next ages.kept };
}

impl Ages {
    // No blocks.
    pub fn new(alloc: Global) -> Ages
        ensures { result ≡ ages_of [] [] 0 true }
    {
        Ages {
            clean: BTreeMap::new(alloc),
            dirty: BTreeMap::new(alloc),
            next: 0,
            kept: true,
        }
    }

    // The number of the next use.
    pub fn next(&self) -> u64
        ensures { result ≡ self.now.next }
    {
        self.next
    }

    // Whether the lists are kept.
    pub fn are_kept(&self) -> bool
        ensures { result ≡ self.now.kept }
    {
        self.kept
    }

    // Takes out the block of that use.
    pub fn forget(&mut self, last: &LastUse)
        ensures { self.new ≡ forgotten self.old last.now }
    {
        match last.dirty {
            Some(_) => {
                self.dirty.remove(&last.age);
            }
            None => {
                self.clean.remove(&last.age);
            }
        }
    }

    // Puts the block in under that use.
    pub fn note(&mut self, key: &BlockKey, last: &LastUse)
        ensures { self.new.kept ≡ true → self.new ≡ noted self.old key.now last.now }
    {
        if self.kept {
            self.kept = match last.dirty {
                Some(number) => self.dirty.insert(last.age, (key.copied(), number)).is_ok(),
                None => self.clean.insert(last.age, key.copied()).is_ok(),
            };
        }
    }

    // Puts the block in under the next use, and counts that.
    pub fn use_anew(&mut self, key: &BlockKey, dirty: Option<u64>)
        ensures { self.new.kept ≡ true → self.new ≡ used_anew self.old key.now dirty }
    {
        let age = self.next;
        self.note(key, &LastUse { age, dirty });
        match age.checked_add(1) {
            Some(next) => self.next = next,
            None => self.kept = false,
        }
    }

    // Takes the block of that use out, and puts it in under the next one.
    pub fn renew(&mut self, key: &BlockKey, last: &LastUse, dirty: Option<u64>)
        ensures { self.new.kept ≡ true → self.new ≡ used_anew (forgotten self.old last.now) key.now dirty }
    {
        self.forget(last);
        self.use_anew(key, dirty);
    }

    // Makes the dirty block of that use a clean one.
    pub fn clean(&mut self, key: &BlockKey, last: &LastUse)
        ensures { self.new.kept ≡ true → self.new ≡ noted_by (forgotten self.old last.now) key.now last.now.age None }
    {
        self.forget(last);
        let age = last.age;
        self.note(key, &LastUse { age, dirty: None });
    }

    // The least recently used clean block outside these of the file.
    pub fn oldest_clean(&self, file: &FileId, first: BlockNo, last: BlockNo) -> Option<BlockKey>
        ensures { result ≡ first_clean file.now first last self.now.clean }
    {
        for key in self.clean.values() {
            if !is_within(file, first, last, key) {
                return Some(key.copied());
            }
        }
        None
    }

    // The least recently used dirty block of the file, or of all, with its number.
    pub fn oldest_dirty(&self, file: &Option<FileId>) -> Option<(FileId, BlockNo, u64)>
        ensures { result ≡ first_dirty file.now self.now.dirty }
    {
        for block in self.dirty.values() {
            if is_of(file, &block.0) {
                return Some((block.0.file, block.0.block, block.1));
            }
        }
        None
    }
}
