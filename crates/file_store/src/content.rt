ghost use Rattle.std.specs.Prelude.{◌≡◌, ◌≤◌, ◌+◌, ◌*◌, [], IfOk, OnOk, OnErr, length};
ghost use Rattle.file_store.specs.Content.{read_of, written, grown, block_put};

use sprite_ids::{BlockNo, NoMemory};
use std::alloc::Global;
use std::marker::Model;

/// How many bytes a block has.
const BLOCK: u32 = 4096;

/// The bytes of one file. Contracts see them as their list.
#[derive(Debug, Drop)]
pub struct Content {
    items: Vec<u8>,
}

impl Model for Content {
    ghost use Rattle.std.specs.Prelude.{List, ℕ};

    ghost Value = { List ℕ };

    ghost view = { λ content. content.items.items };
}

impl Content {
    // No bytes.
    pub(crate) fn new(alloc: Global) -> Content
        ensures { result ≡ [] }
    {
        Content {
            items: Vec::new(alloc),
        }
    }

    // How many bytes there are.
    pub(crate) fn len(&self) -> usize
        ensures { result ≡ length self.now }
    {
        self.items.len()
    }

    // The bytes from there on, at most that many.
    pub(crate) fn read(&self, alloc: Global, from: u32, length: u32) -> Result<Vec<u8>, NoMemory>
        ensures { IfOk result (λ bytes. bytes.items ≡ read_of self.now from length) }
    {
        part_of(alloc, self.items.as_slice(), from, length)
    }

    // Writes the bytes there.
    pub(crate) fn write(&mut self, from: u32, bytes: &[u8]) -> Result<(), NoMemory>
        requires { from + length bytes.now ≤ 4294967295 }
        ensures ok { OnOk result (self.new ≡ written self.old from bytes.now) }
        ensures err { OnErr result (self.new ≡ self.old) }
    {
        write(&mut self.items, from, bytes)
    }

    // Lets the bytes grow, and puts a block.
    pub(crate) fn put_block(
        &mut self,
        block: BlockNo,
        size: u32,
        bytes: &[u8],
    ) -> Result<(), NoMemory>
        requires { 4096 * block.0 + length bytes.now ≤ 4294967295 }
        ensures ok { OnOk result (self.new ≡ block_put self.old block.0 size bytes.now) }
        ensures err { OnErr result (self.new ≡ self.old) }
    {
        let before = self.items.len();
        grow(&mut self.items, size as usize)?;
        if let Err(error) = write(&mut self.items, u32::from(block.0) * BLOCK, bytes) {
            self.items.truncate(before);
            return Err(error);
        }
        Ok(())
    }

    // Drops all bytes.
    pub(crate) fn clear(&mut self)
        ensures { self.new ≡ [] }
    {
        self.items.clear();
    }
}

// A copy of the bytes from there on, at most that many.
fn part_of(alloc: Global, bytes: &[u8], from: u32, length: u32) -> Result<Vec<u8>, NoMemory>
    ensures { IfOk result (λ part. part.items ≡ read_of bytes.now from length) }
{
    let (_, rest) = bytes.split_at(bytes.len().min(from as usize));
    let (part, _) = rest.split_at(rest.len().min(length as usize));
    Ok(Vec::from_slice(alloc, part)?)
}

// Lets the bytes grow with zeros, where there are fewer.
fn grow(items: &mut Vec<u8>, size: usize) -> Result<(), NoMemory>
    ensures ok { OnOk result (items.new.items ≡ grown items.old.items size) }
    ensures err { OnErr result (items.new.items ≡ items.old.items) }
{
    if items.len() < size {
        items.resize(size, 0)?;
    }
    Ok(())
}

// Puts the bytes over those that stand there, and lets them grow before where they have to.
fn write(items: &mut Vec<u8>, from: u32, bytes: &[u8]) -> Result<(), NoMemory>
    requires { from + length bytes.now ≤ 4294967295 }
    ensures ok { OnOk result (items.new.items ≡ written items.old.items from bytes.now) }
    ensures err { OnErr result (items.new.items ≡ items.old.items) }
{
    if bytes.is_empty() {
        return Ok(());
    }
    let from = from as usize;
    let end = from + bytes.len();
    grow(items, end)?;
    items[from..end].copy_from_slice(bytes);
    Ok(())
}
