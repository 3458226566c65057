ghost use Rattle.std.specs.Prelude.{◌≡◌, ◌+◌, IfOk, OnOk};
ghost use Rattle.client_homes.specs.Homes.{bears, born_pid, ends_at, has_ended, is_killed, is_native, kills_at, lives_at, moves_to, parent_in, place_in, ticks, told_to_wait, waited_at};

use crate::client::ClientProcs;
use home_table::{HomeEnd, WaitAnswer};
use sprite_ids::{Ending, Kernel, NoMemory, Pid};

impl ClientProcs {
    /// Whether the process was born with this kernel as its home.
    pub fn is_native(&self, pid: Pid) -> bool
        ensures { result ≡ is_native pid self.now }
    {
        pid.home() == self.home.kernel()
    }

    /// The kernel at which the process of this home is, or was when it ended; this one for any other.
    pub fn place_of(&self, pid: Pid) -> Kernel
        ensures { result ≡ place_in pid self.now }
    {
        if self.is_native(pid) {
            self.home.place(pid)
        } else {
            self.home.kernel()
        }
    }

    /// Notes at which kernel the process of this home is from now on. It takes no memory.
    pub fn move_to(&mut self, pid: Pid, kernel: Kernel)
        ensures { self.new ≡ moves_to pid kernel self.old }
    {
        if self.is_native(pid) {
            self.home.move_to(pid, kernel);
        }
    }

    /// Whether the process of this home lives and a kill of it is pending.
    pub fn is_killed(&self, pid: Pid) -> bool
        ensures { result ≡ is_killed pid self.now }
    {
        self.is_native(pid) && self.home.killed(pid)
    }

    // Whether the process of this home has ended.
    pub(crate) fn has_ended(&self, pid: Pid) -> bool
        ensures { result ≡ has_ended pid self.now }
    {
        self.is_native(pid) && self.home.has_ended(pid)
    }

    // The parent of the process of this home, where it lives.
    pub(crate) fn parent_of(&self, pid: Pid) -> Option<Pid>
        ensures { result ≡ parent_in pid self.now }
    {
        if self.is_native(pid) {
            self.home.parent(pid)
        } else {
            None
        }
    }

    // Makes a child of the process, which is of this home. None where 200 were made.
    pub(crate) fn bear(&mut self, parent: Pid) -> Result<Option<Pid>, NoMemory>
        ensures pid { IfOk result (λ child. child ≡ born_pid parent self.old) }
        ensures state { OnOk result (self.new ≡ bears parent self.old) }
    {
        if !self.is_native(parent) {
            return Ok(None);
        }
        match self.home.born(Some(parent)) {
            Ok(child) => Ok(Some(child)),
            Err(HomeEnd::TooMany) => Ok(None),
            Err(HomeEnd::NoMemory) => Err(NoMemory),
        }
    }

    // Notes how the process of this home ended.
    pub(crate) fn note_end(&mut self, pid: Pid, ending: Ending)
        ensures { self.new ≡ ends_at pid ending self.old }
    {
        if self.is_native(pid) {
            self.home.ended(pid, ending);
        }
    }

    // What a `wait` of the process of this home is told.
    pub(crate) fn ask_wait(&mut self, pid: Pid) -> WaitAnswer
        ensures answer { result ≡ told_to_wait pid self.old }
        ensures state { self.new ≡ waited_at pid self.old }
    {
        if self.is_native(pid) {
            self.home.wait(pid)
        } else {
            WaitAnswer::NoChild
        }
    }

    // Makes a kill of the process of this home pending, and tells whether it lives.
    pub(crate) fn mark_killed(&mut self, pid: Pid) -> bool
        ensures lives { result ≡ lives_at pid self.old }
        ensures state { self.new ≡ kills_at pid self.old }
    {
        if self.is_native(pid) {
            self.home.kill(pid)
        } else {
            false
        }
    }

    // Raises the count of ticks. Where it has come to its limit, the answer is want of memory.
    pub(crate) fn tick(&mut self) -> Result<u64, NoMemory>
        ensures count { IfOk result (λ count. count ≡ self.old.home.ticks + 1) }
        ensures state { OnOk result (self.new ≡ ticks self.old) }
    {
        if !self.home.room() {
            return Err(NoMemory);
        }
        Ok(self.home.tick())
    }
}
