ghost use Rattle.std.specs.Prelude.{◌≡◌, ◌≤◌, ◌<◌, OnOk, IfOk, IfSome, length, replicate};
ghost use Rattle.std.specs.List.{list_any, position};
ghost use Rattle.sprite_ids.specs.Lists.{less};
ghost use Rattle.server_kernel.specs.Files.{is_that, size_in, bytes_in, mode_in, start_in, sized, made_file, emptied, written_to, block_put_in, taken_off, is_last_off, dropped, marked, forgotten, waits};

use crate::asked::Asked;
use crate::server::Server;
use sprite_ids::{BlockNo, Bytes, Copying, FileId, Grant, Items, Kernel, Mode, NoMemory, StreamNo};
use std::alloc::Global;

/// The most grants that a stream may have at a kernel where it becomes shared (this project).
const ROOM: u32 = 2_000_000_000;

impl Server {
    // How many bytes the file has; 0 where it isn't there.
    pub(crate) fn size_of(&self, file: &FileId) -> u32
        ensures { result ≡ size_in file.now self.now }
    {
        if self.store.has(*file) {
            self.store.size(*file)
        } else {
            0
        }
    }

    // The file's bytes from there on, at most that many and none behind a file's limit. None come of a file that isn't
    // there, or from a place behind the limit.
    pub(crate) fn bytes_of(
        &self,
        alloc: Global,
        file: &FileId,
        from: u32,
        length: u32,
    ) -> Result<Bytes, NoMemory>
        ensures { IfOk result (λ bytes. bytes ≡ bytes_in file.now from length self.now) }
    {
        let limit = self.store.limit();
        if !self.store.has(*file) || from > limit {
            return Ok(Bytes::new(alloc));
        }
        if length > limit - from {
            return Ok(Bytes::of_vec(self.store.read_at(*file, from, limit - from)?));
        }
        Ok(Bytes::of_vec(self.store.read_at(*file, from, length)?))
    }

    // What the stream was opened for; for reading where nobody has it open.
    pub(crate) fn mode_of(&self, file: &FileId, stream: &StreamNo) -> Mode
        ensures { result ≡ mode_in file.now stream.now self.now }
    {
        match self.versions.mode(*file, *stream) {
            Some(mode) => mode,
            None => Mode::Read,
        }
    }

    // Where a request begins that has that offset: at the stream's own where it has none, and at 0 where the stream isn't
    // shared.
    pub(crate) fn start_of(&self, stream: &StreamNo, offset: Option<u32>) -> u32
        ensures { result ≡ start_in stream.now offset self.now }
    {
        match offset {
            Some(start) => start,
            None => match self.shadows.offset(*stream) {
                Some(start) => start,
                None => 0,
            },
        }
    }

    // The grant with the file's size.
    pub(crate) fn sized(&self, file: &FileId, grant: &Grant) -> Grant
        ensures { result ≡ sized file.now grant.now self.now }
    {
        Grant {
            file: grant.file,
            stamp: grant.stamp,
            old: grant.old,
            new: grant.new,
            size: self.size_of(file),
            on: grant.on,
            holder: grant.holder,
        }
    }

    // Makes an empty file. It isn't there: its number is new.
    pub(crate) fn make_file(&mut self, file: &FileId) -> Result<(), NoMemory>
        ensures { OnOk result (self.new ≡ made_file file.now self.old) }
    {
        if self.store.has(*file) {
            return Ok(());
        }
        self.store.make(*file)
    }

    // Drops the file's bytes. It is there: somebody opens it.
    pub(crate) fn empty(&mut self, file: &FileId)
        ensures { self.new ≡ emptied file.now self.old }
    {
        if self.store.has(*file) {
            self.store.truncate(*file);
        }
    }

    // Writes the bytes there. The file is there and they stay within its limit: the caller has looked.
    pub(crate) fn write(&mut self, file: &FileId, from: u32, bytes: &[u8]) -> Result<(), NoMemory>
        ensures { OnOk result (self.new ≡ written_to file.now from bytes.now self.old) }
    {
        let end = u64::from(from) + bytes.len() as u64;
        if self.store.has(*file) && end <= u64::from(self.store.limit()) {
            self.store.write_at(*file, from, bytes)?;
        }
        Ok(())
    }

    // Puts the block into the file, which is there and has it within its limit: no client has others.
    pub(crate) fn put_block(
        &mut self,
        file: &FileId,
        block: BlockNo,
        size: u32,
        bytes: &[u8],
    ) -> Result<(), NoMemory>
        ensures { OnOk result (self.new ≡ block_put_in file.now block size bytes.now self.old) }
    {
        let limit = u64::from(self.store.limit());
        let end = 4096 * u64::from(block.0) + bytes.len() as u64;
        if self.store.has(*file) && end <= limit && u64::from(size) <= limit {
            self.store.put_block(*file, block, size, bytes)?;
        }
        Ok(())
    }

    // Takes the grants of the stream off the kernel, and tells whether nobody has the file open then. The file isn't busy:
    // the caller has looked.
    pub(crate) fn take_off(
        &mut self,
        file: &FileId,
        kernel: Kernel,
        stream: &StreamNo,
        grants: u32,
    ) -> bool
        ensures server { self.new ≡ taken_off file.now kernel stream.now grants self.old }
        ensures last { result ≡ is_last_off file.now kernel stream.now grants self.old }
    {
        if self.versions.busy(*file) {
            return false;
        }
        self.versions.close(*file, kernel, *stream, grants)
    }

    // Whether the file has no name any more.
    pub(crate) fn is_unlinked(&self, file: &FileId) -> bool
        ensures { result ≡ list_any (is_that file.now) self.now.unlinked }
    {
        self.unlinked.as_slice().iter().any(|known| *known == *file)
    }

    // Notes that the file has no name any more.
    pub(crate) fn mark(&mut self, file: &FileId) -> Result<(), NoMemory>
        ensures { OnOk result (self.new ≡ marked file.now self.old) }
    {
        self.unlinked.append(&[*file])
    }

    // Forgets a file that has no name and that nobody has open.
    pub(crate) fn forget(&mut self, file: &FileId)
        ensures { self.new ≡ forgotten file.now self.old }
    {
        take_out(&mut self.unlinked, file);
        self.drop_bytes(file);
        self.versions.forget(*file);
    }

    // Drops the file with its bytes. It is there: it was made and not forgotten.
    fn drop_bytes(&mut self, file: &FileId)
        ensures { self.new ≡ dropped file.now self.old }
    {
        if self.store.has(*file) {
            self.store.forget(*file);
        }
    }

    // Keeps the request until the file isn't busy any more.
    pub(crate) fn wait(
        &mut self,
        alloc: Global,
        asked: &Asked,
        file: &FileId,
    ) -> Result<(), NoMemory>
        ensures { OnOk result (self.new ≡ waits asked.now file.now self.old) }
    {
        self.waiting.push(*file, asked.copy(alloc)?)
    }
}

// Takes the file out of the list, where it is there.
fn take_out(files: &mut Items<FileId>, file: &FileId)
    ensures { files.new ≡ less (is_that file.now) files.old }
{
    if let Some(at) = place_in(files, file) {
        files.remove(at);
    }
}

// Where the file stands.
fn place_in(files: &Items<FileId>, file: &FileId) -> Option<usize>
    ensures { result ≡ position (is_that file.now) files.now }
{
    files.as_slice().iter().position(|known| *known == *file)
}

// A list in which the kernel stands once for each of its grants. Where there are more than may be counted, the answer is
// want of memory.
pub(crate) fn repeated(alloc: Global, kernel: Kernel, count: u32) -> Result<Vec<Kernel>, NoMemory>
    ensures list { IfOk result (λ kernels. kernels.items ≡ replicate count kernel) }
    ensures few { IfOk result (λ kernels. length kernels.items ≤ 2000000000) }
{
    if count > ROOM {
        return Err(NoMemory);
    }
    let mut kernels = Vec::new(alloc);
    kernels.resize(count as usize, kernel)?;
    Ok(kernels)
}
