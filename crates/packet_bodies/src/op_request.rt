use crate::descriptor::Descriptor;
use crate::file_op::FileOp;
use sprite_ids::{Bytes, Copying, FileId, NoMemory, Pid, StreamNo};
use std::alloc::Global;

/// Asks a file server to read, write, measure or seek in a file that the client doesn't cache, or whose offset is the
/// server's (Nelson, Welch and Ousterhout 1988).
#[derive(Debug, PartialEq, Eq, Drop)]
pub struct OpRequest {
    /// The process whose call it is.
    pub pid: Pid,
    /// The number of that call.
    pub number: u32,
    /// The file.
    pub file: FileId,
    /// The stamp that the client has.
    pub stamp: u32,
    /// The stream.
    pub stream: StreamNo,
    /// What is done.
    pub op: FileOp,
    /// The offset in bytes, of a seek its target; None where the offset is the server's, and for an append.
    pub offset: Option<u32>,
    /// How many bytes a read asks for.
    pub length: u32,
    /// The bytes of a write or an append.
    pub bytes: Bytes,
    /// The descriptor that the call names.
    pub fd: Descriptor,
}

impl Copying for OpRequest {
    fn copy(&self, alloc: Global) -> Result<OpRequest, NoMemory> {
        Ok(OpRequest {
            pid: self.pid,
            number: self.number,
            file: self.file,
            stamp: self.stamp,
            stream: self.stream,
            op: self.op,
            offset: self.offset,
            length: self.length,
            bytes: self.bytes.copy(alloc)?,
            fd: self.fd,
        })
    }
}
