ghost use Rattle.std.specs.Prelude.{◌≡◌, IfOk};
ghost use Rattle.pseudo_device.specs.Device.{most, takes, reply_of, told};

use process_machine::Reply;
use sprite_ids::{AskKind, Bytes, Copying, Errno, NoMemory, Pid};
use std::alloc::Global;

/// An operation on a pseudo-device, which its master is to answer (Welch and Ousterhout 1988; the fields are this
/// project's).
#[derive(Debug, PartialEq, Eq, Drop)]
pub struct Ask {
    /// The process whose operation it is.
    pub pid: Pid,
    /// The number of the process's call.
    pub number: u32,
    /// The process's descriptor of the device.
    pub fd: u8,
    pub kind: AskKind,
    /// The most bytes that an answer to a read or a command may have.
    pub length: u32,
    /// What the master is given: of a read its length, of a write its bytes, of a command its number and its bytes.
    pub bytes: Bytes,
}

/// An answer to an operation on a pseudo-device, with that operation.
#[derive(Debug, PartialEq, Eq, Drop)]
pub struct Answer {
    pub ask: Ask,
    pub reply: Reply,
}

impl Copying for Ask {
    fn copy(&self, alloc: Global) -> Result<Ask, NoMemory> {
        Ok(Ask {
            pid: self.pid,
            number: self.number,
            fd: self.fd,
            kind: self.kind,
            length: self.length,
            bytes: self.bytes.copy(alloc)?,
        })
    }
}

impl Ask {
    /// The reply of the master's call that takes the ask: the number of its kind, how many bytes it has, and the bytes. The
    /// one error is want of memory.
    pub fn told(&self, alloc: Global) -> Result<Reply, NoMemory>
        ensures { IfOk result (λ reply. reply ≡ told self.now) }
    {
        Ok(Reply::Value {
            first: u64::from(self.kind.number()),
            second: self.bytes.len() as u64,
            bytes: self.bytes.copy(alloc)?,
        })
    }

    // The most bytes that its answer may have.
    fn most(&self) -> u32
        ensures { result ≡ most self.now }
    {
        match self.kind {
            AskKind::Write => 0,
            AskKind::Read | AskKind::Ioctl => self.length,
        }
    }

    // Whether it can have that answer: an error without bytes, or no more bytes than were asked for.
    pub(crate) fn takes(&self, bytes: &[u8], errno: Option<Errno>) -> bool
        ensures { result ≡ takes self.now bytes.now errno }
    {
        match errno {
            Some(_) => bytes.is_empty(),
            None => bytes.len() <= self.most() as usize,
        }
    }

    // The reply of its process's call, of that answer.
    pub(crate) fn reply(
        &self,
        alloc: Global,
        bytes: &[u8],
        errno: Option<Errno>,
    ) -> Result<Reply, NoMemory>
        ensures { IfOk result (λ reply. reply ≡ reply_of self.now bytes.now errno) }
    {
        if let Some(errno) = errno {
            return Ok(Reply::Error(errno));
        }
        let first = match self.kind {
            AskKind::Write => self.bytes.len(),
            AskKind::Read | AskKind::Ioctl => bytes.len(),
        };
        Ok(Reply::Value {
            first: first as u64,
            second: 0,
            bytes: Bytes::of_slice(alloc, bytes)?,
        })
    }
}
