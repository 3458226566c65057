use packet_bodies::Request;
use sprite_ids::{Copying, FileId, Kernel, NoMemory, Pid, TxNo};
use std::alloc::Global;

/// A request of another kernel, as the server took it.
#[derive(Debug, Drop)]
pub struct Asked {
    /// The remote call.
    pub tx: TxNo,
    /// The kernel that asks.
    pub from: Kernel,
    /// What it asks.
    pub body: Request,
}

impl Copying for Asked {
    fn copy(&self, alloc: Global) -> Result<Asked, NoMemory> {
        Ok(Asked {
            tx: self.tx,
            from: self.from,
            body: self.body.copy(alloc)?,
        })
    }
}

/// A callback that has no answer yet (Nelson, Welch and Ousterhout 1988).
#[derive(Clone, Copy, Debug, PartialEq, Eq)]
pub struct CallOut {
    /// The file that it is about.
    pub file: FileId,
    /// The kernel that it went to.
    pub kernel: Kernel,
}

/// The call of a process that a request carries.
#[derive(Clone, Copy, Debug, PartialEq, Eq)]
pub(crate) struct Caller {
    /// The remote call that brought it.
    pub tx: TxNo,
    /// The process.
    pub pid: Pid,
    /// The call's number among the process's calls.
    pub number: u32,
}
