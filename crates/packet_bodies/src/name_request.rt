use crate::name_op::NameOp;
use sprite_ids::{Bytes, Copying, NoMemory, Pid};
use sprite_paths::Path;
use std::alloc::Global;

/// Asks a file server to do a name call of a process (Welch and Ousterhout 1986).
#[derive(Debug, PartialEq, Eq, Drop)]
pub struct NameRequest {
    /// The process whose call it is.
    pub pid: Pid,
    /// The number of that call.
    pub number: u32,
    /// What is done.
    pub op: NameOp,
    /// The path that it is done to.
    pub path: Path,
    /// The new path of a rename.
    pub second: Option<Path>,
    /// How many bytes a list may answer.
    pub max: u32,
    /// The path text, as the call has it.
    pub text: Bytes,
    /// The text of the new path.
    pub second_text: Option<Bytes>,
}

impl Copying for NameRequest {
    fn copy(&self, alloc: Global) -> Result<NameRequest, NoMemory> {
        Ok(NameRequest {
            pid: self.pid,
            number: self.number,
            op: self.op,
            path: self.path.copy(alloc)?,
            second: self.second.copy(alloc)?,
            max: self.max,
            text: self.text.copy(alloc)?,
            second_text: self.second_text.copy(alloc)?,
        })
    }
}
