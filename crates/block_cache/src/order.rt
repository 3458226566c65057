ghost use Rattle.std.specs.Prelude.{◌≡◌, ◌≤◌, ◌<◌, ◌+◌, ◌*◌, ◌∷◌, OnOk, OnErr, is_some, length, option_copied, option_map, false};
ghost use Rattle.std.specs.Map.{lookup, remove_entry};
ghost use Rattle.lru.specs.LruCache.{lru_cache};
ghost use Rattle.block_cache.specs.Blocks.{is_at};
ghost use Rattle.block_cache.specs.Ages.{last_of, used_there, soiled_there, cleaned_row};
ghost use Rattle.block_cache.specs.Held.{clean_block};

use crate::block::Block;
use crate::block_bytes::BlockBytes;
use crate::kept::{Kept, LastUse};
use crate::key::BlockKey;
use crate::parts::{piece, start_of};
use lru::LruCache;
use sprite_ids::{BlockNo, FileId, NoMemory};
use std::alloc::Global;

// The block, where it is held.
pub(crate) fn find<'a>(
    blocks: &'a LruCache<BlockKey, Kept>,
    file: &FileId,
    block: BlockNo,
) -> Option<&'a Kept>
    ensures { option_copied result ≡ lookup (is_at file.now block.0) blocks.now.entries }
{
    blocks.peek(&BlockKey::of(file, block))
}

// The block's last use, where it is held.
pub(crate) fn last_use(
    blocks: &LruCache<BlockKey, Kept>,
    file: &FileId,
    block: BlockNo,
) -> Option<LastUse>
    ensures { result ≡ option_map last_of (lookup (is_at file.now block.0) blocks.now.entries) }
{
    match find(blocks, file, block) {
        Some(held) => Some(held.last_use()),
        None => None,
    }
}

// Puts a clean block in, which isn't held, as the most recently used, under that number.
pub(crate) fn put(
    blocks: &mut LruCache<BlockKey, Kept>,
    alloc: Global,
    key: BlockKey,
    bytes: &[u8],
    age: u64,
) -> Result<(), NoMemory>
    requires absent { is_some (lookup (is_at key.file key.block.0) blocks.old.entries) ≡ false }
    requires room { length blocks.old.entries < blocks.old.cap }
    requires bytes { length bytes.now ≤ 4096 }
    ensures ok { OnOk result (blocks.new ≡ lru_cache ((key, record { block = clean_block bytes.now; age = age }) ∷ blocks.old.entries) blocks.old.cap) }
    ensures err { OnErr result (blocks.new ≡ blocks.old) }
{
    let bytes = BlockBytes::of_slice(alloc, bytes)?;
    let block = Block { bytes, dirty: None };
    blocks.put(key, Kept { block, age })?;
    Ok(())
}

// Makes the block clean, where it is held.
pub(crate) fn clean(blocks: &mut LruCache<BlockKey, Kept>, file: &FileId, block: BlockNo)
    ensures { blocks.new ≡ lru_cache (cleaned_row (is_at file.now block.0) blocks.old.entries (lookup (is_at file.now block.0) blocks.old.entries)) blocks.old.cap }
{
    if let Some(held) = blocks.peek_mut(&BlockKey::of(file, block)) {
        held.block.dirty = None;
    }
}

// Uses the block under that number; its use before, where it is held.
pub(crate) fn use_one(
    blocks: &mut LruCache<BlockKey, Kept>,
    key: &BlockKey,
    age: u64,
) -> Option<LastUse>
    ensures before { result ≡ option_map last_of (lookup (is_at key.now.file key.now.block.0) blocks.old.entries) }
    ensures rows { blocks.new ≡ lru_cache (used_there (is_at key.now.file key.now.block.0) blocks.old.entries age (lookup (is_at key.now.file key.now.block.0) blocks.old.entries)) blocks.old.cap }
{
    match blocks.get_mut(key) {
        Some(held) => {
            let before = held.last_use();
            held.age = age;
            Some(before)
        }
        None => None,
    }
}

// Writes those of the bytes from there on that stand in the block, makes it dirty with that number, and uses it under the
// other; its use before, where it is held.
pub(crate) fn write_one(
    blocks: &mut LruCache<BlockKey, Kept>,
    key: &BlockKey,
    from: u32,
    bytes: &[u8],
    number: u64,
    age: u64,
) -> Option<LastUse>
    requires reached { key.now.block.0 ≤ 1024 }
    requires touches { from ≤ 4096 * key.now.block.0 + 4096 }
    ensures before { result ≡ option_map last_of (lookup (is_at key.now.file key.now.block.0) blocks.old.entries) }
    ensures rows { blocks.new ≡ lru_cache (soiled_there (is_at key.now.file key.now.block.0) blocks.old.entries key.now.block.0 from bytes.now number age (lookup (is_at key.now.file key.now.block.0) blocks.old.entries)) blocks.old.cap }
{
    match blocks.get_mut(key) {
        Some(held) => {
            let before = held.last_use();
            let at = from.saturating_sub(start_of(key.block)) as usize;
            held.block.bytes.write(at, piece(bytes, key.block, from));
            held.block.dirty = Some(number);
            held.age = age;
            Some(before)
        }
        None => None,
    }
}

// Drops the block; its last use, where it was held.
pub(crate) fn pop(blocks: &mut LruCache<BlockKey, Kept>, key: &BlockKey) -> Option<LastUse>
    ensures before { result ≡ option_map last_of (lookup (is_at key.now.file key.now.block.0) blocks.old.entries) }
    ensures rows { blocks.new ≡ lru_cache (remove_entry (is_at key.now.file key.now.block.0) blocks.old.entries) blocks.old.cap }
{
    match blocks.pop(key) {
        Some(held) => Some(held.last_use()),
        None => None,
    }
}
