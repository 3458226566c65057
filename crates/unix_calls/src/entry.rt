use process_machine::{Call, Reply};
use sprite_ids::{Copying, NoMemory, Pid};
use std::alloc::Global;

/// What an entry says of its call.
#[derive(Clone, Copy, Debug, PartialEq, Eq)]
pub enum Part {
    /// The whole call, with its reply.
    Whole,
    /// An operation on a pseudo-device goes to its master.
    Ask,
    /// That operation is answered.
    Done,
    /// A killed process ends, with no call.
    Death,
}

impl Copying for Part {
    fn copy(&self, _alloc: Global) -> Result<Part, NoMemory> {
        Ok(*self)
    }
}

/// One step of the one-kernel Unix: a process's call and its reply (this project).
#[derive(Debug, PartialEq, Eq, Drop)]
pub struct Entry {
    pub pid: Pid,
    /// The process's calls are numbered from 1.
    pub number: u32,
    pub part: Part,
    /// None exactly for a death.
    pub call: Option<Call>,
    /// None exactly for an ask and a death.
    pub reply: Option<Reply>,
}

impl Copying for Entry {
    fn copy(&self, alloc: Global) -> Result<Entry, NoMemory> {
        let call = self.call.copy(alloc)?;
        let reply = self.reply.copy(alloc)?;
        Ok(Entry {
            pid: self.pid,
            number: self.number,
            part: self.part,
            call,
            reply,
        })
    }
}
