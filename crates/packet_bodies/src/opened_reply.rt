use crate::target::Target;
use sprite_ids::{Copying, Grant, NoMemory};
use std::alloc::Global;

/// What an open made.
#[derive(Clone, Copy, Debug, PartialEq, Eq, Hash)]
pub struct OpenedReply {
    /// What the path leads to.
    pub object: Target,
    /// The grant, where it is a file.
    pub grant: Option<Grant>,
    /// The file's size, in bytes.
    pub size: u32,
}

impl Copying for OpenedReply {
    fn copy(&self, _alloc: Global) -> Result<OpenedReply, NoMemory> {
        Ok(*self)
    }
}
