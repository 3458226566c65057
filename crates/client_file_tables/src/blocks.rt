ghost use Rattle.std.specs.Prelude.{◌≡◌, IfOk, OnOk};
ghost use Rattle.block_cache.specs.Files.{known};
ghost use Rattle.client_file_tables.specs.Blocks.{missing_in, fills, bytes_read, reads, writes, drops_full, has_clean};

use crate::client_files::ClientFiles;
use crate::extent::Extent;
use block_cache::{FileState, Filled};
use sprite_ids::{BlockNo, Bytes, FileId, NoMemory};
use std::alloc::Global;
use unix_calls::{DropCause, Event};

/// How many blocks a file has at most (this project).
const FILE_BLOCKS: u16 = 1024;

/// How many bytes a block has.
const BLOCK: usize = 4096;

/// The most bytes that any file may have (this project).
const FILE_END: u64 = 4_194_304;

impl ClientFiles {
    /// What is known of the file: stamp, version and size 0, and not cached, where no grant or callback of it was taken.
    pub fn known(&self, file: &FileId) -> FileState
        ensures { result ≡ known self.now.cache.files file.now }
    {
        match self.cache.state(*file) {
            Some(state) => state,
            None => FileState {
                stamp: 0,
                version: 0,
                size: 0,
                on: false,
            },
        }
    }

    /// The first block of the range that isn't held. None where all are, or where the range ends behind 4,194,304.
    pub fn missing(&self, file: &FileId, extent: &Extent) -> Option<BlockNo>
        ensures { result ≡ missing_in file.now extent.now self.now }
    {
        if !extent.is_within() {
            return None;
        }
        self.cache.missing(*file, extent.from, extent.length)
    }

    /// Puts in a block that was fetched under that stamp, and notes it, where the stamp is the file's, the file is cached,
    /// the block isn't held and there is room for it; else nothing changes. The one error is want of memory.
    pub fn fill(
        &mut self,
        file: &FileId,
        stamp: u32,
        block: BlockNo,
        bytes: &[u8],
    ) -> Result<(), NoMemory>
        ensures { OnOk result (self.new ≡ fills file.now stamp block bytes.now self.old) }
    {
        if block.0 >= FILE_BLOCKS || bytes.len() > BLOCK || !self.cache.cached(*file) {
            return Ok(());
        }
        match self.cache.fill(*file, stamp, block, bytes)? {
            Filled::Filled => self.note(Event::Filled { file: *file, block }),
            _ => Ok(()),
        }
    }

    /// The bytes of a range of a cached file whose blocks are all held; each of these is used. None come, and nothing
    /// changes, where the file isn't cached, a block is missing, or the range ends behind 4,194,304. The one error is want
    /// of memory.
    pub fn read(&mut self, alloc: Global, file: &FileId, extent: &Extent) -> Result<Bytes, NoMemory>
        ensures bytes { IfOk result (λ bytes. bytes ≡ bytes_read file.now extent.now self.old) }
        ensures files { OnOk result (self.new ≡ reads file.now extent.now self.old) }
    {
        if !extent.is_within() || !self.cache.cached(*file) {
            return Ok(Bytes::new(alloc));
        }
        match self.cache.missing(*file, extent.from, extent.length) {
            Some(_) => Ok(Bytes::new(alloc)),
            None => {
                let bytes = self.cache.read(*file, extent.from, extent.length)?;
                Ok(Bytes::of_vec(bytes))
            }
        }
    }

    /// Writes the bytes into a range of a cached file whose blocks are all held; each of these is used and is dirty. Nothing
    /// changes where the file isn't cached, a block is missing, or the range ends behind 4,194,304. The one error is want of
    /// memory, where a counter of the cache has come to its limit.
    pub fn write(&mut self, file: &FileId, from: u32, bytes: &[u8]) -> Result<(), NoMemory>
        ensures { OnOk result (self.new ≡ writes file.now from bytes.now self.old) }
    {
        if !self.cache.room() {
            return Err(NoMemory);
        }
        if u64::from(from) + bytes.len() as u64 > FILE_END || !self.cache.cached(*file) {
            return Ok(());
        }
        match self.cache.missing(*file, from, bytes.len() as u32) {
            Some(_) => Ok(()),
            None => {
                self.cache.write(*file, from, bytes);
                Ok(())
            }
        }
    }

    /// Drops the least recently used clean block outside the blocks of that range of the file, and notes it: the cache is
    /// full (Nelson, Welch and Ousterhout 1988). False where there is none, or where the range ends behind 4,194,304, and
    /// then nothing changes. The one error is want of memory.
    pub fn drop_full(&mut self, file: &FileId, extent: &Extent) -> Result<bool, NoMemory>
        ensures dropped { IfOk result (λ dropped. dropped ≡ has_clean file.now extent.now self.old) }
        ensures files { OnOk result (self.new ≡ drops_full file.now extent.now self.old) }
    {
        if !extent.is_within() {
            return Ok(false);
        }
        let span = extent.span();
        let last = BlockNo((span.first + span.count).saturating_sub(1));
        match self.cache.drop_clean(*file, BlockNo(span.first), last) {
            Some((file, block)) => {
                let cause = DropCause::Full;
                self.note(Event::Dropped { file, block, cause })?;
                Ok(true)
            }
            None => Ok(false),
        }
    }
}
