ghost use Rattle.std.specs.Prelude.{◌≡◌, IfOk, OnOk};
ghost use Rattle.client_file_tables.specs.Closes.{closes_all, fds_of, is_used, ends_by};

use crate::client_files::ClientFiles;
use crate::moves::{CloseWork, ClosingOf};
use crate::pending::Pending;
use crate::states::CloseState;
use sprite_ids::{Items, NoMemory, Pid};
use std::alloc::Global;
use unix_calls::About;

impl ClientFiles {
    /// The process has ended, by that call or by none: its descriptors are closed from now on, in ascending order, and
    /// `AllClosed` is reported after the last. The one error is want of memory.
    pub fn close_all(
        &mut self,
        alloc: Global,
        pid: Pid,
        about: &Option<About>,
    ) -> Result<(), NoMemory>
        ensures { OnOk result (self.new ≡ closes_all pid about.now self.old) }
    {
        let fds = self.fds_of(alloc, pid)?;
        self.start(pid, Pending::Close(ends_by(about, fds)))
    }

    /// The descriptors of the process that are in use, in ascending order. The one error is want of memory.
    pub fn fds_of(&self, alloc: Global, pid: Pid) -> Result<Items<u8>, NoMemory>
        ensures { IfOk result (λ fds. fds ≡ fds_of pid self.now) }
    {
        let mut fds = Items::new(alloc);
        for fd in 0..16 {
            if self.is_used(pid, fd) {
                fds.push(fd)?;
            }
        }
        Ok(fds)
    }

    // Whether the process's descriptor is in use.
    fn is_used(&self, pid: Pid, fd: u8) -> bool
        ensures { result ≡ is_used pid fd self.now }
    {
        self.streams.get(pid, u64::from(fd)).is_some()
    }
}

// The closes at the end of a process.
fn ends_by(about: &Option<About>, fds: Items<u8>) -> CloseWork
    ensures { result ≡ ends_by about.now fds }
{
    CloseWork {
        of: ClosingOf::End { about: *about },
        fds,
        state: CloseState::WaitLock,
    }
}
