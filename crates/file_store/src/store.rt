ghost use Rattle.std.specs.Prelude.{◌≡◌, ◌≤◌, ◌<◌, ◌+◌, ◌*◌, [], false, IfOk, OnOk, OnErr, IsTrue, length};
ghost use Rattle.file_store.specs.Content.{read_of, written, block_put};
ghost use Rattle.file_store.specs.Files.{is_there, held, with_bytes, with_new, without, AreWithin};

use crate::content::Content;
use crate::files;
use lru::LruCache;
use sprite_ids::{BlockNo, FileId, NoMemory};
use std::alloc::Global;
use std::marker::Model;

/// The files of one server. Contracts see the most bytes that a file may have, and the files with their bytes, in the order
/// in which they were made.
#[derive(Debug, Drop)]
pub struct Store {
    alloc: Global,
    limit: u32,
    // None before the first file. It is never promoted, so a file is dropped from any place in it at the same cost.
    files: Option<LruCache<FileId, Content>>,
}

impl Model for Store {
    ghost use Rattle.std.specs.Prelude.{◌≤◌};
    ghost use Rattle.file_store.specs.Files.{Files, AreWithin, files_in};

    ghost Value = { Files };

    ghost view = { λ store. record { limit = store.limit; files = files_in store.files } };

    ghost invariant = { λ store. (store.limit ≤ 4294967295) × AreWithin store.limit (files_in store.files) };
}

impl Store {
    /// No files, and the most bytes that a file may have. It takes no memory, and keeps the allocator.
    pub fn new(alloc: Global, limit: u32) -> Store
        ensures { result ≡ record { limit = limit; files = [] } }
    {
        Store {
            alloc,
            limit,
            files: None,
        }
    }

    /// The most bytes that a file may have.
    pub fn limit(&self) -> u32
        ensures { result ≡ self.now.limit }
    {
        self.limit
    }

    /// Whether the file is there: it was made, and wasn't forgotten since.
    pub fn has(&self, file: FileId) -> bool
        ensures { result ≡ is_there self.now.files file }
    {
        files::find(&self.files, &file).is_some()
    }

    /// Makes the file, which isn't there yet; it has no bytes. After want of memory, the one error, all is as before.
    pub fn make(&mut self, file: FileId) -> Result<(), NoMemory>
        requires { is_there self.old.files file ≡ false }
        ensures ok { OnOk result (self.new ≡ record self.old { files = with_new self.old.files file }) }
        ensures err { OnErr result (self.new ≡ self.old) }
    {
        files::make(&mut self.files, self.alloc, &file)
    }

    /// How many bytes the file has, which is there.
    pub fn size(&self, file: FileId) -> u32
        requires { IsTrue (is_there self.now.files file) }
        ensures { result ≡ length (held self.now.files file) }
    {
        match files::find(&self.files, &file) {
            Some(content) => content.len() as u32,
            None => 0,
        }
    }

    /// The file's bytes from `from` on: `length` of them, or fewer where the file ends before. The file is there, and
    /// the range stays within the limit. The one error is want of memory.
    pub fn read_at(&self, file: FileId, from: u32, length: u32) -> Result<Vec<u8>, NoMemory>
        requires there { IsTrue (is_there self.now.files file) }
        requires within { from + length ≤ self.now.limit }
        ensures { IfOk result (λ bytes. bytes.items ≡ read_of (held self.now.files file) from length) }
    {
        match files::find(&self.files, &file) {
            Some(content) => content.read(self.alloc, from, length),
            None => Ok(Vec::new(self.alloc)),
        }
    }

    /// Writes the bytes into the file, from `from` on. The file grows where they end past its end, and what lies
    /// between is zeros; a write of no bytes changes nothing. The file is there, and the range stays within the limit.
    /// After want of memory, the one error, all is as before.
    pub fn write_at(&mut self, file: FileId, from: u32, bytes: &[u8]) -> Result<(), NoMemory>
        requires there { IsTrue (is_there self.old.files file) }
        requires within { from + length bytes.now ≤ self.old.limit }
        ensures ok { OnOk result (self.new ≡ record self.old { files = with_bytes self.old.files file (written (held self.old.files file) from bytes.now) }) }
        ensures err { OnErr result (self.new ≡ self.old) }
    {
        files::write(&mut self.files, &file, from, bytes)
    }

    /// Puts the bytes at the block's place, which is 4,096 times its number, and lets the file grow to `size` where it
    /// is shorter; the file is never cut. The file is there, and the bytes and `size` stay within the limit. After want
    /// of memory, the one error, all is as before.
    pub fn put_block(
        &mut self,
        file: FileId,
        block: BlockNo,
        size: u32,
        bytes: &[u8],
    ) -> Result<(), NoMemory>
        requires there { IsTrue (is_there self.old.files file) }
        requires within { 4096 * block.0 + length bytes.now ≤ self.old.limit }
        requires size { size ≤ self.old.limit }
        ensures ok { OnOk result (self.new ≡ record self.old { files = with_bytes self.old.files file (block_put (held self.old.files file) block.0 size bytes.now) }) }
        ensures err { OnErr result (self.new ≡ self.old) }
    {
        files::put_block(&mut self.files, &file, block, size, bytes)
    }

    /// Drops all bytes of the file, which is there and stays there.
    pub fn truncate(&mut self, file: FileId)
        requires { IsTrue (is_there self.old.files file) }
        ensures { self.new ≡ record self.old { files = with_bytes self.old.files file [] } }
    {
        files::clear(&mut self.files, &file);
    }

    /// Drops the file, which is there.
    pub fn forget(&mut self, file: FileId)
        requires { IsTrue (is_there self.old.files file) }
        ensures { self.new ≡ record self.old { files = without self.old.files file } }
    {
        files::forget(&mut self.files, &file);
    }
}
