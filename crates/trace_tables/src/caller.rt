use crate::tied::Tied;
use sprite_ids::Kernel;

/// What the one-kernel Unix tells, before a record, of the call and the process that the record is about (this project).
#[derive(Clone, Copy, Debug, PartialEq, Eq)]
pub struct Caller {
    /// The file and the stream that the call goes by.
    pub tied: Option<Tied>,
    /// How many entries stand before the record.
    pub place: u32,
    /// Of the entry of a call by names that left the kernel of its process: the server of the longest domain of its first path
    /// (Welch and Ousterhout 1986). None for any other record.
    pub server: Option<Kernel>,
    /// Of an ask the device that it goes to, of its answer the device that the process asks: the place of the entry that made it.
    /// None for any other record.
    pub device: Option<u32>,
    /// Of an issue whether the process holds the master stream of a device; false for any other record.
    pub is_master: bool,
}
