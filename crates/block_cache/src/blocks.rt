ghost use Rattle.std.specs.Prelude.{◌≡◌, ◌≤◌, ◌+◌, ◌*◌, ◌++◌, IfOk, OnOk};
ghost use Rattle.std.specs.List.{AllByRecursion};
ghost use Rattle.lru.specs.LruCache.{lru_cache};
ghost use Rattle.block_cache.specs.Blocks.{is_held, dirty_at, bytes_at, without, held_under, dirty_under, flushed, cleaned_under, missing_of, used, parts, written};
ghost use Rattle.block_cache.specs.Held.{IsReached};
ghost use Rattle.block_cache.specs.Ranges.{file_blocks, part, cut};
ghost use Rattle.block_cache.specs.Reach.{IsUnder};

use crate::held_blocks::HeldBlocks;
use crate::key::BlockKey;
use crate::parts::{cut, part};
use crate::span::Span;
use sprite_ids::{BlockNo, Bytes, FileId, Items, NoMemory};
use std::alloc::Global;

// Whether the block is held.
pub(crate) fn is_held(blocks: &HeldBlocks, file: &FileId, block: BlockNo) -> bool
    ensures { result ≡ is_held blocks.now.entries file.now block.0 }
{
    blocks.find(file, block).is_some()
}

// The block's dirty number, where it is held dirty.
pub(crate) fn dirty_at(blocks: &HeldBlocks, file: &FileId, block: BlockNo) -> Option<u64>
    ensures { result ≡ dirty_at blocks.now.entries file.now block.0 }
{
    match blocks.find(file, block) {
        Some(block) => block.dirty,
        None => None,
    }
}

// The file's blocks that are held, in ascending order; all of them are under `end`.
pub(crate) fn held_blocks(
    blocks: &HeldBlocks,
    alloc: Global,
    file: &FileId,
    end: u16,
) -> Result<Vec<BlockNo>, NoMemory>
    requires reached { AllByRecursion IsReached blocks.now.entries }
    requires under { AllByRecursion (IsUnder file.now end) blocks.now.entries }
    ensures { IfOk result (λ held. held.items ≡ held_under blocks.now.entries file.now file_blocks) }
{
    let mut held = Vec::new(alloc);
    for number in 0..end {
        if is_held(blocks, file, BlockNo(number)) {
            held.push(BlockNo(number))?;
        }
    }
    Ok(held)
}

// The file's blocks that are dirty, in ascending order; all that are held are under `end`.
pub(crate) fn dirty_blocks(
    blocks: &HeldBlocks,
    alloc: Global,
    file: &FileId,
    end: u16,
) -> Result<Vec<BlockNo>, NoMemory>
    requires reached { AllByRecursion IsReached blocks.now.entries }
    requires under { AllByRecursion (IsUnder file.now end) blocks.now.entries }
    ensures { IfOk result (λ dirty. dirty.items ≡ dirty_under blocks.now.entries file.now file_blocks) }
{
    let mut dirty = Vec::new(alloc);
    for number in 0..end {
        if dirty_at(blocks, file, BlockNo(number)).is_some() {
            dirty.push(BlockNo(number))?;
        }
    }
    Ok(dirty)
}

// A copy of the block's bytes that stand before the file's size; none where it isn't held.
pub(crate) fn cut_bytes(
    blocks: &HeldBlocks,
    alloc: Global,
    file: &FileId,
    block: BlockNo,
    size: u32,
) -> Result<Bytes, NoMemory>
    ensures { IfOk result (λ bytes. bytes ≡ cut (bytes_at blocks.now.entries file.now block.0) block.0 size) }
{
    match blocks.find(file, block) {
        Some(held) => Bytes::of_slice(alloc, cut(held.bytes.as_slice(), block, size)),
        None => Ok(Bytes::new(alloc)),
    }
}

// These blocks with their bytes that stand before the file's size.
pub(crate) fn flush(
    blocks: &HeldBlocks,
    alloc: Global,
    file: &FileId,
    size: u32,
    numbers: &[BlockNo],
) -> Result<Items<(BlockNo, Bytes)>, NoMemory>
    ensures { IfOk result (λ sent. sent ≡ flushed blocks.now.entries file.now size numbers.now) }
{
    let mut sent = Items::new(alloc);
    for number in numbers {
        let bytes = cut_bytes(blocks, alloc, file, *number, size)?;
        sent.push((*number, bytes))?;
    }
    Ok(sent)
}

// Makes the file's blocks clean; all of them are under `end`.
pub(crate) fn clean_all(blocks: &mut HeldBlocks, file: &FileId, end: u16)
    requires reached { AllByRecursion IsReached blocks.old.entries }
    requires under { AllByRecursion (IsUnder file.now end) blocks.old.entries }
    ensures { blocks.new ≡ lru_cache (cleaned_under blocks.old.entries file.now file_blocks) blocks.old.cap }
{
    for number in 0..end {
        blocks.clean(file, BlockNo(number));
    }
}

// Drops the file's blocks; all of them are under `end`.
pub(crate) fn drop_all(blocks: &mut HeldBlocks, file: &FileId, end: u16)
    requires { AllByRecursion (IsUnder file.now end) blocks.old.entries }
    ensures { blocks.new ≡ lru_cache (without blocks.old.entries file.now) blocks.old.cap }
{
    if blocks.len() == 0 {
        return;
    }
    for number in 0..end {
        blocks.pop(&BlockKey::of(file, BlockNo(number)));
    }
}

// The first block of the span that isn't held.
pub(crate) fn missing(blocks: &HeldBlocks, file: &FileId, span: &Span) -> Option<BlockNo>
    requires { span.now.first + span.now.count ≤ 1024 }
    ensures { result ≡ missing_of blocks.now.entries file.now span.now.first span.now.count }
{
    for place in 0..span.count {
        let block = BlockNo(span.first + place);
        if !is_held(blocks, file, block) {
            return Some(block);
        }
    }
    None
}

// The bytes of the span's blocks that stand in the range.
pub(crate) fn read(
    blocks: &HeldBlocks,
    alloc: Global,
    file: &FileId,
    from: u32,
    end: u32,
    span: &Span,
) -> Result<Vec<u8>, NoMemory>
    requires { span.now.first + span.now.count ≤ 1024 }
    ensures { IfOk result (λ bytes. bytes.items ≡ parts blocks.now.entries file.now from end span.now.first span.now.count) }
{
    let mut bytes = Vec::new(alloc);
    for place in 0..span.count {
        let key = BlockKey::of(file, BlockNo(span.first + place));
        append(&mut bytes, blocks, &key, from, end)?;
    }
    Ok(bytes)
}

// Puts the block's bytes that stand in the range behind the others.
fn append(
    bytes: &mut Vec<u8>,
    blocks: &HeldBlocks,
    key: &BlockKey,
    from: u32,
    end: u32,
) -> Result<(), NoMemory>
    ensures { OnOk result (bytes.new.items ≡ bytes.old.items ++ part (bytes_at blocks.now.entries key.now.file key.now.block.0) key.now.block.0 from end) }
{
    if let Some(held) = blocks.find(&key.file, key.block) {
        bytes.extend_from_slice(part(held.bytes.as_slice(), key.block, from, end))?;
    }
    Ok(())
}

// Uses the span's blocks, in ascending order.
pub(crate) fn use_all(blocks: &mut HeldBlocks, file: &FileId, span: &Span)
    requires { span.now.first + span.now.count ≤ 1024 }
    ensures { blocks.new ≡ lru_cache (used blocks.old.entries file.now span.now.first span.now.count) blocks.old.cap }
{
    for place in 0..span.count {
        blocks.use_one(&BlockKey::of(file, BlockNo(span.first + place)));
    }
}

// Writes the bytes from there on into the span's blocks, and uses these, in ascending order, each with the next number.
pub(crate) fn write(
    blocks: &mut HeldBlocks,
    file: &FileId,
    from: u32,
    bytes: &[u8],
    last: u64,
    span: &Span,
)
    requires span { span.now.first + span.now.count ≤ 1024 }
    requires touches { from ≤ 4096 * span.now.first + 4096 }
    requires last { last ≤ 2000000000 }
    ensures { blocks.new ≡ lru_cache (written blocks.old.entries file.now from bytes.now last span.now.first span.now.count) blocks.old.cap }
{
    for place in 0..span.count {
        let key = BlockKey::of(file, BlockNo(span.first + place));
        blocks.write_one(&key, from, bytes, last + u64::from(place) + 1);
    }
}
