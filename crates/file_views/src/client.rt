use crate::step::FileStep;
use sprite_ids::{BlockNo, Bytes, CacheMode, Items, StreamNo};

/// A block that a client holds.
#[derive(Debug, PartialEq, Eq, Drop)]
pub struct Held {
    pub block: BlockNo,
    /// A whole block, with zeros after the file's end.
    pub bytes: Bytes,
    /// The number that the block took when it was made dirty last; None for a clean one.
    pub dirty: Option<u64>,
}

/// What a client keeps of the file (Nelson, Welch and Ousterhout 1988).
#[derive(Debug, PartialEq, Eq, Drop)]
pub struct Client {
    /// The stamp of the grant or callback that it took last, 0 at first.
    pub stamp: u32,
    /// The file's version as it knows it, 0 at first.
    pub version: u32,
    /// The file's size as it knows it, in bytes.
    pub size: u32,
    /// Whether it caches the file.
    pub mode: CacheMode,
    /// The blocks that it holds, each once.
    pub blocks: Items<Held>,
    /// The installed streams, each once for each of its grants that came here.
    pub streams: Items<StreamNo>,
    /// The readings, writings and appends that wait here for blocks, in order.
    pub waiting: Items<FileStep>,
    /// The dirty number given last here, 0 at first.
    pub count: u64,
}
