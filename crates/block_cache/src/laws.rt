ghost use Rattle.block_cache.specs.Laws.{OlderGrantsDoNothing, WrittenBytesAreRead, ReadsAreWhole, DirtyBlocksStay, OtherBlocksStay};

/// A law: a grant that isn't newer than what is known of its file changes nothing.
pub fn older_grants_do_nothing()
    ensures { OlderGrantsDoNothing }
{}

/// A law: a read of the range of a write gives the bytes that were written.
pub fn written_bytes_are_read()
    ensures { WrittenBytesAreRead }
{}

/// A law: a read gives as many bytes as were asked.
pub fn reads_are_whole()
    ensures { ReadsAreWhole }
{}

/// A law: a dirty block leaves, or becomes clean, only by the answer to its write-back, by a callback, or by a grant of
/// another version or without leave to cache. Fills, reads, the dropping of clean blocks and other grants leave it as it
/// is, and writes leave it dirty.
pub fn dirty_blocks_stay()
    ensures { DirtyBlocksStay }
{}

/// A law: a write leaves the blocks that it doesn't touch, and grants and callbacks those of other files.
pub fn other_blocks_stay()
    ensures { OtherBlocksStay }
{}
