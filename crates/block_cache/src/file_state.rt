ghost use Rattle.std.specs.Prelude.{◌≡◌};
ghost use Rattle.block_cache.specs.Files.{new_file, granted, called, grown, is_low, one_high, keeps};

use sprite_ids::{CallKind, Grant};

/// The most that a counter may be before a call that raises it (this project).
const COUNTER: u32 = 2_000_000_000;

/// What a client knows of a file by the grants and callbacks that it took, and by what it wrote since.
#[derive(Clone, Copy, Debug, PartialEq, Eq)]
pub struct FileState {
    /// That of the last grant or callback.
    pub stamp: u32,
    /// The file's version, as its blocks here have it.
    pub version: u32,
    /// In bytes.
    pub size: u32,
    /// Whether the file is cached.
    pub on: bool,
}

impl FileState {
    // A file of which nothing is known.
    pub(crate) fn new() -> FileState
        ensures { result ≡ new_file }
    {
        FileState {
            stamp: 0,
            version: 0,
            size: 0,
            on: false,
        }
    }

    // After a grant that is newer. The client's own size stays where it held the dirty blocks of that version.
    pub(crate) fn granted(self, grant: &Grant) -> FileState
        ensures { result ≡ granted self grant.now }
    {
        let own = grant.holder && self.version == grant.old;
        FileState {
            stamp: grant.stamp,
            version: grant.new,
            size: if own { self.size } else { grant.size },
            on: grant.on,
        }
    }

    // Whether the blocks stay at a grant that is newer.
    pub(crate) fn keeps(self, grant: &Grant) -> bool
        ensures { result ≡ keeps self grant.now }
    {
        grant.on && self.version == grant.old
    }

    // After a callback.
    pub(crate) fn called(self, stamp: u32, kind: CallKind) -> FileState
        ensures { result ≡ called self stamp kind }
    {
        match kind {
            CallKind::Recall => FileState { stamp, ..self },
            CallKind::Stop => FileState {
                stamp,
                on: false,
                ..self
            },
        }
    }

    // After a write that ends there.
    pub(crate) fn grown(self, end: u32) -> FileState
        ensures { result ≡ grown self end }
    {
        FileState {
            size: self.size.max(end),
            ..self
        }
    }

    // Whether the stamp and the version are at most 2,000,000,000.
    pub(crate) fn is_low(&self) -> bool
        ensures { result ≡ is_low self.now }
    {
        self.stamp <= COUNTER && self.version <= COUNTER
    }
    // 1 where it isn't low.
    pub(crate) fn high(&self) -> u64
        ensures { result ≡ one_high self.now }
    {
        if self.is_low() { 0 } else { 1 }
    }
}
