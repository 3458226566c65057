ghost use Rattle.std.specs.Prelude.{◌≡◌, OnOk};
ghost use Rattle.trace_rules.specs.Places.{HoldsOn};

use indexmap::IndexSet;
use sprite_ids::{BlockNo, FileId, Kernel, NoMemory};
use unix_calls::{Event, Rec};

/// A block of a file in a kernel's cache (this project).
#[derive(Clone, Copy, Debug, PartialEq, Eq, Hash)]
pub struct BlockAt {
    pub kernel: Kernel,
    pub file: FileId,
    pub block: BlockNo,
}

/// A file, as a kernel uses it (this project).
#[derive(Clone, Copy, Debug, PartialEq, Eq, Hash)]
pub struct FileAt {
    pub kernel: Kernel,
    pub file: FileId,
}

/// A grant or callback of a file to a kernel, by its stamp (this project).
#[derive(Clone, Copy, Debug, PartialEq, Eq, Hash)]
pub struct StampAt {
    pub kernel: Kernel,
    pub file: FileId,
    pub stamp: u32,
}

/// That block of the file at that kernel.
pub fn block_at(kernel: Kernel, file: &FileId, block: &BlockNo) -> BlockAt
    ensures { result ≡ record { kernel = kernel; file = file.now; block = block.now } }
{
    BlockAt {
        kernel,
        file: *file,
        block: *block,
    }
}

/// That file at that kernel.
pub fn file_at(kernel: Kernel, file: &FileId) -> FileAt
    ensures { result ≡ record { kernel = kernel; file = file.now } }
{
    FileAt {
        kernel,
        file: *file,
    }
}

/// That stamp of the file, for that kernel.
pub fn stamp_at(kernel: Kernel, file: &FileId, stamp: u32) -> StampAt
    ensures { result ≡ record { kernel = kernel; file = file.now; stamp = stamp } }
{
    StampAt {
        kernel,
        file: *file,
        stamp,
    }
}

/// Keeps a block that a record puts into a kernel's cache, and no longer one that it takes out. The one error is want of memory.
pub fn keep_block(held: &mut IndexSet<BlockAt>, rec: &Rec) -> Result<(), NoMemory>
    ensures { OnOk result (HoldsOn rec.now held.old.keys held.new.keys) }
{
    match &rec.event {
        Event::Filled { file, block } => {
            held.insert(block_at(rec.kernel, file, block))?;
        }
        Event::Dropped { file, block, .. } => {
            held.swap_remove(&block_at(rec.kernel, file, block));
        }
        _ => {}
    }
    Ok(())
}
