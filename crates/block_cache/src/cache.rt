ghost use Rattle.std.specs.Prelude.{◌≡◌, ◌≤◌, ◌<◌, ◌+◌, [], true, None, IfOk, OnOk, OnErr, IsSome, IsTrue, length, option_map};
ghost use Rattle.std.specs.List.{list_all};
ghost use Rattle.indexmap.specs.IndexMap.{values};
ghost use Rattle.block_cache.specs.Files.{is_low, grown, known, state_of, with_state};
ghost use Rattle.block_cache.specs.Ranges.{cut, file_blocks};
ghost use Rattle.block_cache.specs.Blocks.{AreOnce, dirty_at, bytes_at, held_under, dirty_under};
ghost use Rattle.block_cache.specs.Held.{IsSound, has_room, is_full, is_newer, after_grant, after_callback, flushed_of, missing, fill_answer, after_fill, read_of, after_read, after_write, write_back_next, is_written_back, after_write_back, oldest_clean, after_drop};

use crate::blocks;
use crate::file_state::FileState;
use crate::file_table::FileTable;
use crate::filled::Filled;
use crate::held_blocks::HeldBlocks;
use crate::key::BlockKey;
use crate::reach::Reach;
use crate::span::Span;
use sprite_ids::{BlockNo, CallKind, FileId, Flushed, Grant, NoMemory};
use std::alloc::Global;
use std::marker::Model;
use std::num::NonZeroUsize;

/// The most that a counter may be before a call that raises it (this project).
const COUNTER: u64 = 2_000_000_000;

/// What one client kernel holds of files. Contracts see how many blocks there may be, what is known of each file, the
/// blocks, the most recently used first, and the dirty number that was given last.
#[derive(Debug, Drop)]
pub struct Cache {
    alloc: Global,
    size: u16,
    files: FileTable,
    blocks: HeldBlocks,
    reach: Reach,
    last: u64,
}

impl Model for Cache {
    ghost use Rattle.std.specs.Prelude.{◌≡◌, ◌≤◌, ◌<◌, ◌^◌, max};
    ghost use Rattle.block_cache.specs.Held.{Held, IsSound};
    ghost use Rattle.block_cache.specs.Reach.{AreUnder};

    ghost Value = { Held };

    ghost view = { λ cache. record { size = cache.size; files = cache.files; blocks = cache.blocks.entries; last = cache.last } };

    ghost invariant = { λ cache. (cache.blocks.cap ≡ max 1 cache.size) × (cache.last < 2 ^ 64) × IsSound (record { size = cache.size; files = cache.files; blocks = cache.blocks.entries; last = cache.last }) × AreUnder cache.reach cache.blocks.entries };
}

impl Cache {
    /// A cache for that many blocks, in which there are none and nothing is known of any file. It keeps the allocator.
    /// The one error is want of memory.
    pub fn new(alloc: Global, size: u16) -> Result<Cache, NoMemory>
        ensures { IfOk result (λ cache. cache ≡ record { size = size; files = []; blocks = []; last = 0 }) }
    {
        let capacity = match NonZeroUsize::new(usize::from(size)) {
            Some(size) => size,
            None => NonZeroUsize::MIN,
        };
        Ok(Cache {
            alloc,
            size,
            files: FileTable::new(alloc),
            blocks: HeldBlocks::new(alloc, capacity)?,
            reach: Reach::new(alloc),
            last: 0,
        })
    }

    /// For how many blocks there is room. What is true of each cache comes with it.
    pub fn size(&self) -> u16
        ensures size { result ≡ self.now.size }
        ensures sound { IsSound self.now }
    {
        self.size
    }

    /// Whether each counter (dirty numbers, stamps, versions) is at most 2,000,000,000.
    pub fn room(&self) -> bool
        ensures { result ≡ has_room self.now }
    {
        self.last <= COUNTER && self.files.are_low()
    }

    /// What is known of the file: None exactly where no grant or callback of it was taken.
    pub fn state(&self, file: FileId) -> Option<FileState>
        ensures { result ≡ state_of self.now.files file }
    {
        self.files.state(&file)
    }

    /// Whether the file is cached: the last grant let it be, and no callback stopped that since.
    pub fn cached(&self, file: FileId) -> bool
        ensures { result ≡ (known self.now.files file).on }
    {
        self.known(&file).on
    }

    /// Takes a grant of the file's server. False comes exactly where its stamp isn't newer than the file's, which is 0
    /// where nothing is known, and then nothing changes.
    ///
    /// Else the file's blocks are dropped where its version here isn't the grant's old one or the grant doesn't let it be
    /// cached; the size here stays where the grant says that the client had the dirty blocks and its version is the old one,
    /// else it is the grant's; stamp, version and mode are the grant's. After want of memory, the one error, all is as before.
    pub fn take_grant(&mut self, grant: &Grant) -> Result<bool, NoMemory>
        ensures answer { IfOk result (λ newer. newer ≡ is_newer self.old grant.now) }
        ensures ok { OnOk result (self.new ≡ after_grant self.old grant.now) }
        ensures err { OnErr result (self.new ≡ self.old) }
    {
        let known = self.known(&grant.file);
        if grant.stamp <= known.stamp {
            return Ok(false);
        }
        self.files.put(&grant.file, known.granted(grant))?;
        if known.keeps(grant) {
            return Ok(true);
        }
        let end = self.reach.end(&grant.file);
        blocks::drop_all(&mut self.blocks, &grant.file, end);
        Ok(true)
    }

    /// Takes a callback of the file's server, with its stamp, and answers the size here and the dirty blocks, in ascending
    /// order, each cut at that size. After Recall the blocks are clean and stay; after Stop they are dropped and the file
    /// isn't cached any more. After want of memory, the one error, all is as before.
    pub fn take_callback(
        &mut self,
        file: FileId,
        stamp: u32,
        kind: CallKind,
    ) -> Result<Flushed, NoMemory>
        ensures answer { IfOk result (λ flushed. flushed ≡ flushed_of self.old file) }
        ensures ok { OnOk result (self.new ≡ after_callback self.old file stamp kind) }
        ensures err { OnErr result (self.new ≡ self.old) }
    {
        let known = self.known(&file);
        let flushed = self.flushed(&file)?;
        let end = self.reach.end(&file);
        self.files.put(&file, known.called(stamp, kind))?;
        match kind {
            CallKind::Recall => {
                blocks::clean_all(&mut self.blocks, &file, end);
                Ok(flushed)
            }
            CallKind::Stop => {
                blocks::drop_all(&mut self.blocks, &file, end);
                Ok(flushed)
            }
        }
    }

    /// The first block that the range of the file touches and that isn't held. The range ends at most at 4,194,304.
    pub fn missing(&self, file: FileId, from: u32, length: u32) -> Option<BlockNo>
        requires { from + length ≤ 4194304 }
        ensures { result ≡ missing self.now file from length }
    {
        blocks::missing(&self.blocks, &file, &Span::of(from, length))
    }

    /// Puts in a block that was fetched under that stamp, clean, with zeros behind its bytes, as the most recently used one.
    ///
    /// Old comes exactly where the stamp isn't the file's; else Kept exactly where the block is held already; else Full
    /// exactly where there is no room for it: then nothing changes. The block is under 1,024, has at most 4,096 bytes, and
    /// is of a file that is cached where the stamp is the file's. After want of memory, the one error, all is as before.
    pub fn fill(
        &mut self,
        file: FileId,
        stamp: u32,
        block: BlockNo,
        bytes: &[u8],
    ) -> Result<Filled, NoMemory>
        requires reached { block.0 < 1024 }
        requires bytes { length bytes.now ≤ 4096 }
        requires cached { (known self.old.files file).stamp ≡ stamp → (known self.old.files file).on ≡ true }
        ensures answer { IfOk result (λ filled. filled ≡ fill_answer self.old file stamp block.0) }
        ensures ok { IfOk result (λ filled. self.new ≡ after_fill self.old file block bytes.now filled) }
        ensures err { OnErr result (self.new ≡ self.old) }
    {
        if self.known(&file).stamp != stamp {
            return Ok(Filled::Old);
        }
        if blocks::is_held(&self.blocks, &file, block) {
            return Ok(Filled::Kept);
        }
        if self.full() {
            return Ok(Filled::Full);
        }
        self.reach.raise(&file, block.0 + 1)?;
        self.blocks
            .put(self.alloc, BlockKey { file, block }, bytes)?;
        Ok(Filled::Filled)
    }

    /// The bytes of a range of the file, whose blocks are all held; each of these is used, in ascending order. The file is
    /// cached, and the range ends at most at 4,194,304. After want of memory, the one error, all is as before.
    pub fn read(&mut self, file: FileId, from: u32, length: u32) -> Result<Vec<u8>, NoMemory>
        requires within { from + length ≤ 4194304 }
        requires cached { (known self.old.files file).on ≡ true }
        requires there { missing self.old file from length ≡ None }
        ensures bytes { IfOk result (λ bytes. bytes.items ≡ read_of self.old file from length) }
        ensures ok { OnOk result (self.new ≡ after_read self.old file from length) }
        ensures err { OnErr result (self.new ≡ self.old) }
    {
        let span = Span::of(from, length);
        let bytes = blocks::read(&self.blocks, self.alloc, &file, from, from + length, &span)?;
        blocks::use_all(&mut self.blocks, &file, &span);
        Ok(bytes)
    }

    /// Writes the bytes into a range of the file, whose blocks are all held: each of these, in ascending order, is used, gets
    /// its part, and is dirty with the next number. The size here grows to the range's end where it was less. A write of no
    /// bytes changes nothing. The file is cached, the range ends at most at 4,194,304, and `room` is true.
    pub fn write(&mut self, file: FileId, from: u32, bytes: &[u8])
        requires within { from + length bytes.now ≤ 4194304 }
        requires cached { (known self.old.files file).on ≡ true }
        requires there { missing self.old file from (length bytes.now) ≡ None }
        requires room { IsTrue (has_room self.old) }
        ensures { self.new ≡ after_write self.old file from bytes.now }
    {
        if bytes.is_empty() {
            return;
        }
        let length = bytes.len() as u32;
        let span = Span::of(from, length);
        blocks::write(&mut self.blocks, &file, from, bytes, self.last, &span);
        self.last += u64::from(span.count);
        self.files.grow(&file, from + length);
    }

    /// The least recently used dirty block of the file, or of all files, with its number; None exactly where there is none.
    pub fn write_back_next(&self, file: Option<FileId>) -> Option<(FileId, BlockNo, u64)>
        ensures { result ≡ write_back_next self.now file }
    {
        self.blocks.oldest_dirty(&file)
    }

    /// Takes the answer to a write-back of the block, which was sent under that stamp with that dirty number. True comes
    /// exactly where the stamp is the file's and the block is dirty with that number, and makes it clean; else nothing
    /// changes.
    pub fn wrote_back(&mut self, file: FileId, stamp: u32, block: BlockNo, number: u64) -> bool
        ensures answer { result ≡ is_written_back self.old file stamp block.0 number }
        ensures blocks { self.new ≡ after_write_back self.old file stamp block.0 number }
    {
        if self.known(&file).stamp != stamp || self.dirty(file, block) != Some(number) {
            return false;
        }
        self.blocks.clean(&file, block);
        true
    }

    /// The block's dirty number; None exactly where it isn't held dirty.
    pub fn dirty(&self, file: FileId, block: BlockNo) -> Option<u64>
        ensures { result ≡ dirty_at self.now.blocks file block.0 }
    {
        blocks::dirty_at(&self.blocks, &file, block)
    }

    /// Drops the least recently used clean block that isn't one of these of the file, and answers it; None comes exactly
    /// where there is none, and then nothing changes.
    pub fn drop_clean(
        &mut self,
        file: FileId,
        first: BlockNo,
        last: BlockNo,
    ) -> Option<(FileId, BlockNo)>
        ensures answer { result ≡ option_map (λ entry. (entry.0.file, entry.0.block)) (oldest_clean self.old file first last) }
        ensures blocks { self.new ≡ after_drop self.old file first last }
    {
        let key = self.blocks.oldest_clean(&file, first, last)?;
        self.blocks.pop(&key);
        Some((key.file, key.block))
    }

    /// Whether there is no room for one more block. That no block is held twice comes with it.
    pub fn full(&self) -> bool
        ensures full { result ≡ is_full self.now }
        ensures once { AreOnce self.now.blocks }
    {
        self.blocks.len() >= usize::from(self.size)
    }

    /// The file's blocks that are held, in ascending order. The one error is want of memory.
    pub fn held(&self, file: FileId) -> Result<Vec<BlockNo>, NoMemory>
        ensures { IfOk result (λ held. held.items ≡ held_under self.now.blocks file file_blocks) }
    {
        blocks::held_blocks(&self.blocks, self.alloc, &file, self.reach.end(&file))
    }

    /// The file's blocks that are dirty, in ascending order. The one error is want of memory.
    pub fn dirty_blocks(&self, file: FileId) -> Result<Vec<BlockNo>, NoMemory>
        ensures { IfOk result (λ dirty. dirty.items ≡ dirty_under self.now.blocks file file_blocks) }
    {
        blocks::dirty_blocks(&self.blocks, self.alloc, &file, self.reach.end(&file))
    }

    /// The bytes of a block that stand before the file's size; none where it isn't held. It isn't used by that. The one error
    /// is want of memory.
    pub fn bytes_of(&self, file: FileId, block: BlockNo) -> Result<Vec<u8>, NoMemory>
        ensures { IfOk result (λ bytes. bytes.items ≡ cut (bytes_at self.now.blocks file block.0) block.0 (known self.now.files file).size) }
    {
        let size = self.known(&file).size;
        let bytes = blocks::cut_bytes(&self.blocks, self.alloc, &file, block, size)?;
        Ok(bytes.into_vec())
    }

    // What is known of the file.
    fn known(&self, file: &FileId) -> FileState
        ensures { result ≡ known self.now.files file.now }
    {
        self.files.known(file)
    }

    // The answer to a callback.
    fn flushed(&self, file: &FileId) -> Result<Flushed, NoMemory>
        ensures { IfOk result (λ flushed. flushed ≡ flushed_of self.now file.now) }
    {
        let size = self.known(file).size;
        let end = self.reach.end(file);
        let dirty = blocks::dirty_blocks(&self.blocks, self.alloc, file, end)?;
        let blocks = blocks::flush(&self.blocks, self.alloc, file, size, dirty.as_slice())?;
        Ok(Flushed { size, blocks })
    }
}
