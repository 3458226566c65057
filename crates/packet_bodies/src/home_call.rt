use sprite_ids::{Bytes, Copying, NoMemory, Pid};
use std::alloc::Global;

/// A system call that is done at the process's home, wherever the process runs (Douglis and Ousterhout 1991). Each is
/// spelled with its place in the table of system calls.
#[derive(Debug, PartialEq, Eq, Drop)]
pub enum HomeCall {
    /// 1: writes the bytes to the console.
    Print {
        /// What is written.
        bytes: Bytes,
    },
    /// 2: ends the process.
    Exit {
        /// 0 to 255, 256 for a bad step, 257 for a death by a kill.
        code: u64,
    },
    /// 4: tells the parent's number.
    Getppid,
    /// 5: tells the home's name.
    Host {
        /// How many bytes the name may have.
        max: u64,
    },
    /// 6: counts up.
    Tick,
    /// 7: makes a child.
    Fork,
    /// 9: waits for a child's end.
    Wait,
    /// 10: kills a process.
    Kill {
        /// The process that is killed.
        pid: Pid,
    },
}

impl Copying for HomeCall {
    fn copy(&self, alloc: Global) -> Result<HomeCall, NoMemory> {
        Ok(match self {
            HomeCall::Print { bytes } => HomeCall::Print {
                bytes: bytes.copy(alloc)?,
            },
            HomeCall::Exit { code } => HomeCall::Exit { code: *code },
            HomeCall::Getppid => HomeCall::Getppid,
            HomeCall::Host { max } => HomeCall::Host { max: *max },
            HomeCall::Tick => HomeCall::Tick,
            HomeCall::Fork => HomeCall::Fork,
            HomeCall::Wait => HomeCall::Wait,
            HomeCall::Kill { pid } => HomeCall::Kill { pid: *pid },
        })
    }
}
