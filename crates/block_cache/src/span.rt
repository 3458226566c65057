ghost use Rattle.std.specs.Prelude.{◌≡◌, ◌≤◌, ◌+◌, ◌*◌};
ghost use Rattle.block_cache.specs.Ranges.{first_block, block_count};

/// How many bytes a block has.
pub(crate) const BLOCK: u32 = 4096;

/// The blocks that a range of bytes touches: none where it has no bytes.
#[derive(Clone, Copy, Debug)]
pub(crate) struct Span {
    pub first: u16,
    pub count: u16,
}

impl Span {
    // The blocks of that many bytes from there on, among the first 4,194,304, which are 1,024 blocks (this project).
    pub fn of(from: u32, length: u32) -> Span
        requires { from + length ≤ 4194304 }
        ensures first { result.first ≡ first_block from }
        ensures count { result.count ≡ block_count from length }
        ensures touches { from ≤ 4096 * result.first + 4096 }
        ensures within { result.first + result.count ≤ 1024 }
    {
        let first = from / BLOCK;
        let count = if length == 0 {
            0
        } else {
            (from + length - 1) / BLOCK + 1 - first
        };
        Span {
            first: first as u16,
            count: count as u16,
        }
    }
}
