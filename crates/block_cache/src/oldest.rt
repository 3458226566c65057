ghost use Rattle.std.specs.Prelude.{◌≡◌, option_map};
ghost use Rattle.block_cache.specs.Ages.{plain};
ghost use Rattle.block_cache.specs.Blocks.{is_of, oldest, is_dirty_of, is_clean_outside, is_within};
ghost use Rattle.block_cache.specs.Held.{named, named_of};

use crate::block::Block;
use crate::kept::Kept;
use crate::key::BlockKey;
use lru::LruCache;
use sprite_ids::{BlockNo, FileId};

// The least recently used dirty block of the file, or of all, with its number.
pub(crate) fn oldest_dirty(
    blocks: &LruCache<BlockKey, Kept>,
    file: &Option<FileId>,
) -> Option<(FileId, BlockNo, u64)>
    ensures { result ≡ named_of (oldest (is_dirty_of file.now) (plain blocks.now.entries)) }
{
    for (key, held) in blocks.iter().rev() {
        if is_dirty_of(file, key, &held.block) {
            return named(key, &held.block);
        }
    }
    None
}

// The least recently used clean block outside these of the file.
pub(crate) fn oldest_clean(
    blocks: &LruCache<BlockKey, Kept>,
    file: &FileId,
    first: BlockNo,
    last: BlockNo,
) -> Option<BlockKey>
    ensures { result ≡ option_map (λ entry. entry.0) (oldest (is_clean_outside file.now first last) (plain blocks.now.entries)) }
{
    for (key, held) in blocks.iter().rev() {
        if is_clean_outside(file, first, last, key, &held.block) {
            return Some(key.copied());
        }
    }
    None
}

// Whether it is a dirty block of the file, or of any.
fn is_dirty_of(file: &Option<FileId>, key: &BlockKey, block: &Block) -> bool
    ensures { result ≡ is_dirty_of file.now (key.now, block.now) }
{
    is_of(file, key) && block.dirty.is_some()
}

// Whether the block is one of the file, or of any.
pub(crate) fn is_of(file: &Option<FileId>, key: &BlockKey) -> bool
    ensures { result ≡ is_of file.now key.now }
{
    match file {
        Some(file) => key.file == *file,
        None => true,
    }
}

// What the block is written back by, where it is dirty.
fn named(key: &BlockKey, block: &Block) -> Option<(FileId, BlockNo, u64)>
    ensures { result ≡ named (key.now, block.now) block.now.dirty }
{
    match block.dirty {
        Some(number) => Some((key.file, key.block, number)),
        None => None,
    }
}

// Whether it is a clean block outside these of the file.
fn is_clean_outside(
    file: &FileId,
    first: BlockNo,
    last: BlockNo,
    key: &BlockKey,
    block: &Block,
) -> bool
    ensures { result ≡ is_clean_outside file.now first last (key.now, block.now) }
{
    block.dirty.is_none() && !is_within(file, first, last, key)
}

// Whether it is one of these blocks of the file.
pub(crate) fn is_within(file: &FileId, first: BlockNo, last: BlockNo, key: &BlockKey) -> bool
    ensures { result ≡ is_within file.now first last key.now }
{
    key.file == *file && first.0 <= key.block.0 && key.block.0 <= last.0
}
