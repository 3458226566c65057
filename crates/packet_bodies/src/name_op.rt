use sprite_ids::{Copying, NoMemory};
use std::alloc::Global;

/// What a name call does at a file server (this project).
#[derive(Clone, Copy, Debug, PartialEq, Eq, Hash)]
pub enum NameOp {
    /// 1: finds the path.
    Walk,
    /// 2: tells what the path names.
    Stat,
    /// 3: makes a directory.
    Mkdir,
    /// 4: takes an empty directory away.
    Rmdir,
    /// 5: takes a name away.
    Unlink,
    /// 6: gives a file or directory another name.
    Rename,
    /// 7: tells a directory's names.
    List,
    /// 8: checks a new working directory.
    Chdir,
}

impl Copying for NameOp {
    fn copy(&self, _alloc: Global) -> Result<NameOp, NoMemory> {
        Ok(*self)
    }
}
