use crate::devices::Devices;
use crate::files::Files;
use crate::streams::Streams;
use crate::tree::NameTree;
use sprite_ids::Items;

/// The state of the one-kernel Unix, but for its processes (this project).
#[derive(Debug, Drop)]
pub struct World {
    /// The tree of names, by ascending path.
    pub nodes: NameTree,
    /// The files, also those without a name.
    pub files: Files,
    /// The streams, by the ascending place of the entry that made them.
    pub streams: Streams,
    /// The pseudo-devices, by the ascending place of the entry that made them.
    pub devices: Devices,
    /// How often `tick` was called at each kernel.
    pub ticks: Items<u64>,
    /// The most bytes that a file may have.
    pub limit: u32,
    /// How many entries led here.
    pub entries: u32,
}
