ghost use Rattle.std.specs.Prelude.{◌≡◌, IfOk, OnOk};
ghost use Rattle.stream_table.specs.Entries.{has_lock, holder_of};
ghost use Rattle.client_file_tables.specs.Locks.{locks, waits_for_lock, unlocks, hands_over};

use crate::client_files::ClientFiles;
use sprite_ids::{NoMemory, Pid, StreamNo};

impl ClientFiles {
    /// Gives the process the stream's lock, where no other has it, and tells whether the process has it then. Where another
    /// has it, the process waits for it, once, behind all that wait already (Welch 1986; the order is this project's). The
    /// one error is want of memory.
    pub fn lock(&mut self, pid: Pid, stream: &StreamNo) -> Result<bool, NoMemory>
        ensures has { IfOk result (λ has. has ≡ has_lock pid (holder_of self.old.streams.entries stream.now)) }
        ensures files { OnOk result (self.new ≡ locks pid stream.now self.old) }
    {
        if self.streams.lock(*stream, pid)? {
            return Ok(true);
        }
        self.wait_for_lock(pid, stream)?;
        Ok(false)
    }

    fn wait_for_lock(&mut self, pid: Pid, stream: &StreamNo) -> Result<(), NoMemory>
        ensures { OnOk result (self.new ≡ waits_for_lock pid stream.now self.old) }
    {
        if self.lock_waits.has_row(stream, &pid) {
            return Ok(());
        }
        self.lock_waits.push(*stream, pid)
    }

    /// Frees the stream's lock, or hands it over to the process that has waited for it longest, whose operation then looks
    /// at everything anew. The one error is want of memory.
    pub fn unlock(&mut self, stream: &StreamNo) -> Result<(), NoMemory>
        ensures { OnOk result (self.new ≡ unlocks stream.now self.old) }
    {
        self.streams.unlock(*stream);
        match self.lock_waits.take(stream) {
            Some(pid) => self.hand_over(pid, stream),
            None => Ok(()),
        }
    }

    fn hand_over(&mut self, pid: Pid, stream: &StreamNo) -> Result<(), NoMemory>
        ensures { OnOk result (self.new ≡ hands_over pid stream.now self.old) }
    {
        let _has = self.streams.lock(*stream, pid)?;
        self.wake(pid)
    }
}
