ghost use Rattle.std.specs.Prelude.{◌≡◌, OnOk};
ghost use Rattle.std.specs.List.{list_any, position};
ghost use Rattle.sprite_ids.specs.Lists.{less};
ghost use Rattle.client_file_tables.specs.Rows.{is_pid};
ghost use Rattle.client_file_tables.specs.Fillers.{is_first, is_filling, begins_filling, leaves_filling, wakes_filler};

use crate::client_files::ClientFiles;
use sprite_ids::{Items, NoMemory, Pid};

impl ClientFiles {
    /// Whether it is the process's turn to fill blocks.
    pub fn is_filling(&self, pid: Pid) -> bool
        ensures { result ≡ is_filling pid self.now }
    {
        is_first(pid, self.fillers.as_slice())
    }

    /// The process's reading or writing needs blocks: it has its turn behind all that need some already. The one error is
    /// want of memory.
    pub fn begin_filling(&mut self, pid: Pid) -> Result<(), NoMemory>
        ensures { OnOk result (self.new ≡ begins_filling pid self.old) }
    {
        if is_among(pid, self.fillers.as_slice()) {
            return Ok(());
        }
        self.fillers.push(pid)
    }

    /// The process's reading or writing needs no blocks any more. Where it was its turn, the next one looks at everything
    /// anew. The one error is want of memory.
    pub fn leave_filling(&mut self, pid: Pid) -> Result<(), NoMemory>
        ensures { OnOk result (self.new ≡ leaves_filling pid self.old) }
    {
        let first = self.is_filling(pid);
        take_out(&mut self.fillers, pid);
        if !first {
            return Ok(());
        }
        self.wake_filler()
    }

    fn wake_filler(&mut self) -> Result<(), NoMemory>
        ensures { OnOk result (self.new ≡ wakes_filler self.old) }
    {
        if self.fillers.is_empty() {
            return Ok(());
        }
        let pid = *self.fillers.at(0);
        self.wake(pid)
    }
}

// Whether the process stands first.
fn is_first(pid: Pid, pids: &[Pid]) -> bool
    ensures { result ≡ is_first pid pids.now }
{
    match pids.first() {
        Some(first) => *first == pid,
        None => false,
    }
}

// Whether the process is one of them.
fn is_among(pid: Pid, pids: &[Pid]) -> bool
    ensures { result ≡ list_any (is_pid pid) pids.now }
{
    pids.iter().any(|known| *known == pid)
}

// Takes the process out of the list, where it is there.
fn take_out(pids: &mut Items<Pid>, pid: Pid)
    ensures { pids.new ≡ less (is_pid pid) pids.old }
{
    if let Some(at) = place_in(pids, pid) {
        pids.remove(at);
    }
}

// Where the process stands.
fn place_in(pids: &Items<Pid>, pid: Pid) -> Option<usize>
    ensures { result ≡ position (is_pid pid) pids.now }
{
    pids.as_slice().iter().position(|known| *known == pid)
}
