ghost use Rattle.std.specs.Prelude.{◌≡◌, ◌≤◌, ◌*◌};
ghost use Rattle.block_cache.specs.Ranges.{part, piece, cut};

use crate::span::BLOCK;
use sprite_ids::BlockNo;

// Where the byte at the block's begin stands in its file.
pub(crate) fn start_of(block: BlockNo) -> u32
    ensures { result ≡ 4096 * block.0 }
{
    u32::from(block.0) * BLOCK
}

// The bytes of a block that stand before the file's size.
pub(crate) fn cut(bytes: &[u8], block: BlockNo, size: u32) -> &[u8]
    ensures { result.now ≡ cut bytes.now block.0 size }
{
    let (cut, _) = bytes.split_at(
        bytes
            .len()
            .min(size.saturating_sub(start_of(block)) as usize),
    );
    cut
}

// The bytes of a block that stand in the range.
pub(crate) fn part(bytes: &[u8], block: BlockNo, from: u32, end: u32) -> &[u8]
    ensures { result.now ≡ part bytes.now block.0 from end }
{
    let (head, _) = bytes.split_at(
        bytes
            .len()
            .min(end.saturating_sub(start_of(block)) as usize),
    );
    let (_, part) = head.split_at(
        head.len()
            .min(from.saturating_sub(start_of(block)) as usize),
    );
    part
}

// Those of the bytes from there on that stand in the block.
pub(crate) fn piece(bytes: &[u8], block: BlockNo, from: u32) -> &[u8]
    requires { block.0 ≤ 1024 }
    ensures { result.now ≡ piece bytes.now block.0 from }
{
    let start = start_of(block);
    let room = (start + BLOCK).saturating_sub(from) as usize;
    let (head, _) = bytes.split_at(bytes.len().min(room));
    let (_, piece) = head.split_at(head.len().min(start.saturating_sub(from) as usize));
    piece
}
