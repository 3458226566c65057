use sprite_ids::{FileId, Kernel};

/// A block in a kernel's cache; its number may be any that a range of bytes leads to (this project).
#[derive(Clone, Copy, Debug, PartialEq, Eq, Hash)]
pub(crate) struct HeldAt {
    pub(crate) kernel: Kernel,
    pub(crate) file: FileId,
    pub(crate) block: u64,
}
