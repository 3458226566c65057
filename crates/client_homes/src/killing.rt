ghost use Rattle.std.specs.Prelude.{◌≡◌, OnOk};
ghost use Rattle.client_homes.specs.Killing.{forgets_kill, forgets_waiting, is_waiting, is_waiting_kill, kill_at, notes_kill};

use crate::client::{ClientProcs, KillState};
use sprite_ids::{NoMemory, Pid};

impl ClientProcs {
    // Notes how far the kill of a process that is elsewhere has come.
    pub(crate) fn note_kill(&mut self, pid: Pid, kill: KillState) -> Result<(), NoMemory>
        ensures { OnOk result (self.new ≡ notes_kill pid kill self.old) }
    {
        self.kills.push(pid, kill)
    }

    /// Forgets a kill that waits for the process to come anywhere: it has ended, or has come here.
    pub fn forget_waiting(&mut self, pid: Pid)
        ensures { self.new ≡ forgets_waiting pid self.old }
    {
        if self.has_waiting(pid) {
            self.forget_kill(pid);
        }
    }

    // Whether a kill waits for the process to come anywhere.
    fn has_waiting(&self, pid: Pid) -> bool
        ensures { result ≡ is_waiting (kill_at pid self.now) }
    {
        match self.kills.first(&pid) {
            Some(kill) => waits(*kill),
            None => false,
        }
    }

    fn forget_kill(&mut self, pid: Pid)
        ensures { self.new ≡ forgets_kill pid self.old }
    {
        self.kills.take(&pid);
    }
}

// Whether the kill waits.
fn waits(kill: KillState) -> bool
    ensures { result ≡ is_waiting_kill kill }
{
    match kill {
        KillState::Out { .. } => false,
        KillState::Waits => true,
    }
}
