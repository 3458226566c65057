use sprite_ids::{Bytes, Copying, NoMemory};
use std::alloc::Global;

/// What a call answers.
#[derive(Debug, PartialEq, Eq, Drop)]
pub struct ValueReply {
    /// The first value.
    pub first: u64,
    /// The second value.
    pub second: u64,
    /// The bytes.
    pub bytes: Bytes,
}

impl Copying for ValueReply {
    fn copy(&self, alloc: Global) -> Result<ValueReply, NoMemory> {
        Ok(ValueReply {
            first: self.first,
            second: self.second,
            bytes: self.bytes.copy(alloc)?,
        })
    }
}
