ghost use Rattle.std.specs.Prelude.{◌≡◌, ◌≤◌, ◌+◌, ◌*◌};
ghost use Rattle.block_cache.specs.Ranges.{first_block, block_count};
ghost use Rattle.client_file_tables.specs.Extents.{is_within};

/// How many bytes a block has.
const BLOCK: u32 = 4096;

/// The most bytes that any file may have (this project).
const FILE_END: u64 = 4_194_304;

/// A range of a file's bytes.
#[derive(Clone, Copy, Debug, PartialEq, Eq)]
pub struct Extent {
    /// Where it begins.
    pub from: u32,
    /// How many bytes it has.
    pub length: u32,
}

impl Extent {
    // Whether it lies where a file may have bytes.
    pub(crate) fn is_within(&self) -> bool
        ensures { result ≡ is_within self.now }
    {
        u64::from(self.from) + u64::from(self.length) <= FILE_END
    }

    // The blocks that it touches.
    pub(crate) fn span(&self) -> Span
        requires { self.now.from + self.now.length ≤ 4194304 }
        ensures first { result.first ≡ first_block self.now.from }
        ensures count { result.count ≡ block_count self.now.from self.now.length }
        ensures within { result.first + result.count ≤ 1024 }
    {
        let first = self.from / BLOCK;
        let count = if self.length == 0 {
            0
        } else {
            (self.from + self.length - 1) / BLOCK + 1 - first
        };
        Span {
            first: first as u16,
            count: count as u16,
        }
    }
}

/// The blocks that a range touches: none where it has no bytes.
#[derive(Clone, Copy, Debug, PartialEq, Eq)]
pub(crate) struct Span {
    pub first: u16,
    pub count: u16,
}
