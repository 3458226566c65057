use packet_bodies::CarriedStream;
use process_machine::Image;
use sprite_ids::{Items, Pid};
use sprite_paths::Path;
use stream_table::Carried;

/// What a process that arrives goes on with.
#[derive(Debug, Drop)]
pub enum Load {
    /// Its image.
    Image(Image),
    /// The program of that number, which it starts.
    Program(u8),
}

/// A process that arrives, with all that belongs to it: what contracts see of `Arrived`.
#[derive(Debug, Drop)]
pub struct Arrival {
    /// The process.
    pub pid: Pid,
    /// The number of the call that it came to last.
    pub number: u32,
    /// What it goes on with.
    pub load: Load,
    /// Its working directory.
    pub cwd: Path,
    /// The streams that moved with it, as the packet tells them.
    pub streams: Items<CarriedStream>,
    /// Its descriptors, each with its stream.
    pub descriptors: Items<Carried>,
    /// Whether a kill is pending.
    pub killed: bool,
    /// Whether it is inside its own `migrate` or `rexec`.
    pub moving: bool,
}
