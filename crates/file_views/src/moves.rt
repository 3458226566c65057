use crate::step::FileStep;
use sprite_ids::{BlockNo, Kernel};

/// What happens in a cluster beside the steps of one file: a client counts its calls and its dirty blocks over all files,
/// fills blocks of one file at a time, and makes room for a block before it asks for it (this project).
#[derive(Debug, PartialEq, Eq, Drop)]
pub enum ClientMove {
    /// The next call's number rises to that.
    Number { next: u32 },
    /// The kernel's dirty number given last rises to that.
    Count { kernel: Kernel, count: u64 },
    /// A reading, writing or append waits at its kernel, and nothing is sent.
    Queue { step: FileStep },
    /// The kernel asks for a block, for what waits there.
    Fetch { kernel: Kernel, block: BlockNo },
    /// What waits at the kernel looks again whether it can be done.
    Look { kernel: Kernel },
    /// The kernel holds a block past the file's end, of zeros.
    Zeros { kernel: Kernel, block: BlockNo },
    /// The version of a file that nobody caches rises to that.
    Raise { version: u32 },
    /// A file that nobody has open or caches is uncached.
    Uncache,
}
