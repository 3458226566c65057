use crate::moves::MovedStream;
use crate::process::Process;
use sprite_ids::Kernel;

/// A process that was frozen, and what has been done about it since: what contracts see of `Frozen`, `Moving` and `Sent`.
#[derive(Debug, Drop)]
pub struct Freeze {
    /// The process as it was frozen.
    pub process: Process,
    /// Where it goes.
    pub to: Kernel,
    /// The program that it starts there; None where it goes on as it is.
    pub program: Option<u8>,
    /// The moves of its streams, in their order: the places that are free come last.
    pub moved: [Option<MovedStream>; 16],
}
