ghost use Rattle.std.specs.Prelude.{◌≡◌, ◌≤◌, ◌+◌, ◌*◌, [], None, false, OnOk, OnErr, IsTrue, length, option_copied};
ghost use Rattle.file_store.specs.Content.{written, block_put};
ghost use Rattle.file_store.specs.Files.{files_in, is_there, bytes_of, held, with_bytes, with_new, without};

use crate::content::Content;
use lru::LruCache;
use sprite_ids::{BlockNo, FileId, NoMemory};
use std::alloc::Global;

// The file's content, where it is there.
pub(crate) fn find<'a>(
    files: &'a Option<LruCache<FileId, Content>>,
    file: &FileId,
) -> Option<&'a Content>
    ensures { option_copied result ≡ bytes_of (files_in files.now) file.now }
{
    match files {
        Some(list) => list.peek(file),
        None => None,
    }
}

// Makes the file, which isn't there yet.
pub(crate) fn make(
    files: &mut Option<LruCache<FileId, Content>>,
    alloc: Global,
    file: &FileId,
) -> Result<(), NoMemory>
    requires { is_there (files_in files.old) file.now ≡ false }
    ensures ok { OnOk result (files_in files.new ≡ with_new (files_in files.old) file.now) }
    ensures err { OnErr result (files_in files.new ≡ files_in files.old) }
{
    match files {
        Some(list) => append(list, alloc, file),
        None => begin(files, alloc, file),
    }
}

// Makes the first file.
fn begin(
    files: &mut Option<LruCache<FileId, Content>>,
    alloc: Global,
    file: &FileId,
) -> Result<(), NoMemory>
    requires { files.old ≡ None }
    ensures ok { OnOk result (files_in files.new ≡ with_new (files_in files.old) file.now) }
    ensures err { OnErr result (files_in files.new ≡ files_in files.old) }
{
    let mut list = LruCache::unbounded(alloc)?;
    append(&mut list, alloc, file)?;
    *files = Some(list);
    Ok(())
}

// Puts in a file without bytes that isn't there, behind the others.
fn append(
    list: &mut LruCache<FileId, Content>,
    alloc: Global,
    file: &FileId,
) -> Result<(), NoMemory>
    requires { is_there list.old.entries file.now ≡ false }
    ensures ok { OnOk result (list.new.entries ≡ with_new list.old.entries file.now) }
    ensures err { OnErr result (list.new.entries ≡ list.old.entries) }
{
    if list.len() >= list.cap().get() {
        return Err(NoMemory);
    }
    list.put(*file, Content::new(alloc))?;
    list.demote(file);
    Ok(())
}

// Writes the bytes into the file, which is there.
pub(crate) fn write(
    files: &mut Option<LruCache<FileId, Content>>,
    file: &FileId,
    from: u32,
    bytes: &[u8],
) -> Result<(), NoMemory>
    requires there { IsTrue (is_there (files_in files.old) file.now) }
    requires within { from + length bytes.now ≤ 4294967295 }
    ensures ok { OnOk result (files_in files.new ≡ with_bytes (files_in files.old) file.now (written (held (files_in files.old) file.now) from bytes.now)) }
    ensures err { OnErr result (files_in files.new ≡ files_in files.old) }
{
    match files {
        Some(list) => write_in(list, file, from, bytes),
        None => Ok(()),
    }
}

// Writes the bytes into the file of the list, which is there.
fn write_in(
    list: &mut LruCache<FileId, Content>,
    file: &FileId,
    from: u32,
    bytes: &[u8],
) -> Result<(), NoMemory>
    requires there { IsTrue (is_there list.old.entries file.now) }
    requires within { from + length bytes.now ≤ 4294967295 }
    ensures ok { OnOk result (list.new.entries ≡ with_bytes list.old.entries file.now (written (held list.old.entries file.now) from bytes.now)) }
    ensures err { OnErr result (list.new.entries ≡ list.old.entries) }
{
    match list.peek_mut(file) {
        Some(content) => content.write(from, bytes),
        None => Ok(()),
    }
}

// Puts the block into the file, which is there.
pub(crate) fn put_block(
    files: &mut Option<LruCache<FileId, Content>>,
    file: &FileId,
    block: BlockNo,
    size: u32,
    bytes: &[u8],
) -> Result<(), NoMemory>
    requires there { IsTrue (is_there (files_in files.old) file.now) }
    requires within { 4096 * block.0 + length bytes.now ≤ 4294967295 }
    ensures ok { OnOk result (files_in files.new ≡ with_bytes (files_in files.old) file.now (block_put (held (files_in files.old) file.now) block.0 size bytes.now)) }
    ensures err { OnErr result (files_in files.new ≡ files_in files.old) }
{
    match files {
        Some(list) => put_block_in(list, file, block, size, bytes),
        None => Ok(()),
    }
}

// Puts the block into the file of the list, which is there.
fn put_block_in(
    list: &mut LruCache<FileId, Content>,
    file: &FileId,
    block: BlockNo,
    size: u32,
    bytes: &[u8],
) -> Result<(), NoMemory>
    requires there { IsTrue (is_there list.old.entries file.now) }
    requires within { 4096 * block.0 + length bytes.now ≤ 4294967295 }
    ensures ok { OnOk result (list.new.entries ≡ with_bytes list.old.entries file.now (block_put (held list.old.entries file.now) block.0 size bytes.now)) }
    ensures err { OnErr result (list.new.entries ≡ list.old.entries) }
{
    match list.peek_mut(file) {
        Some(content) => content.put_block(block, size, bytes),
        None => Ok(()),
    }
}

// Drops all bytes of the file, which is there.
pub(crate) fn clear(files: &mut Option<LruCache<FileId, Content>>, file: &FileId)
    requires { IsTrue (is_there (files_in files.old) file.now) }
    ensures { files_in files.new ≡ with_bytes (files_in files.old) file.now [] }
{
    if let Some(list) = files {
        clear_in(list, file);
    }
}

// Drops all bytes of the file of the list, which is there.
fn clear_in(list: &mut LruCache<FileId, Content>, file: &FileId)
    requires { IsTrue (is_there list.old.entries file.now) }
    ensures { list.new.entries ≡ with_bytes list.old.entries file.now [] }
{
    if let Some(content) = list.peek_mut(file) {
        content.clear();
    }
}

// Drops the file.
pub(crate) fn forget(files: &mut Option<LruCache<FileId, Content>>, file: &FileId)
    ensures { files_in files.new ≡ without (files_in files.old) file.now }
{
    if let Some(list) = files {
        take_out(list, file);
    }
}

// Takes the file out of the list.
fn take_out(list: &mut LruCache<FileId, Content>, file: &FileId)
    ensures { list.new.entries ≡ without list.old.entries file.now }
{
    // That each file is there once comes with the length.
    let _length = list.len();
    list.pop(file);
}
