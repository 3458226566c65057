ghost use Rattle.std.specs.Prelude.{◌≡◌, IfOk, OnOk};
ghost use Rattle.client_homes.specs.Procs.{answers_as, answers_here, enters_own, entry_at, entry_of, in_state, killed_at, replies};

use crate::client::ClientProcs;
use crate::process::{Proc, ProcState};
use process_machine::Reply;
use sprite_ids::{Copying, NoMemory, Pid};
use std::alloc::Global;
use unix_calls::{Entry, Event, Part};

impl ClientProcs {
    /// Puts the process into that state, where it is here. It takes no memory.
    pub fn set_state(&mut self, pid: Pid, state: ProcState)
        ensures { self.new ≡ in_state pid state self.old }
    {
        match self.procs.get_mut(&pid) {
            Some(proc) => proc.state = state,
            None => {}
        }
    }

    /// A kill of the process is known from now on, where it is here. It takes no memory.
    pub fn set_killed(&mut self, pid: Pid)
        ensures { self.new ≡ killed_at pid self.old }
    {
        match self.procs.get_mut(&pid) {
            Some(proc) => proc.killed = true,
            None => {}
        }
    }

    /// The call of the process is answered: it returns when the step has run what is ready. The one error is want of
    /// memory.
    pub fn reply(&mut self, pid: Pid, reply: Reply) -> Result<(), NoMemory>
        ensures { OnOk result (self.new ≡ replies pid reply self.old) }
    {
        self.set_state(pid, ProcState::Returning);
        self.give(pid, reply)
    }

    /// The call that the process is in takes effect here, and is answered. Of a process that isn't here it does nothing. The
    /// one error is want of memory.
    pub fn answer_here(&mut self, alloc: Global, pid: Pid, reply: Reply) -> Result<(), NoMemory>
        ensures { OnOk result (self.new ≡ answers_here pid reply self.old) }
    {
        match self.entry_at(alloc, pid, &reply)? {
            Some(entry) => self.answer_as(pid, entry, reply),
            None => Ok(()),
        }
    }

    /// The call that the process is in takes effect here, with that reply, which it isn't given yet. Of a process that isn't here
    /// it does nothing. The one error is want of memory.
    pub fn enter_own(&mut self, alloc: Global, pid: Pid, reply: &Reply) -> Result<(), NoMemory>
        ensures { OnOk result (self.new ≡ enters_own pid reply.now self.old) }
    {
        match self.entry_at(alloc, pid, reply)? {
            Some(entry) => self.note(Event::Enter { entry }),
            None => Ok(()),
        }
    }

    fn answer_as(&mut self, pid: Pid, entry: Entry, reply: Reply) -> Result<(), NoMemory>
        ensures { OnOk result (self.new ≡ answers_as pid reply entry self.old) }
    {
        self.note(Event::Enter { entry })?;
        self.reply(pid, reply)
    }

    // The entry of the call that the process is in, with that reply.
    fn entry_at(&self, alloc: Global, pid: Pid, reply: &Reply) -> Result<Option<Entry>, NoMemory>
        ensures { IfOk result (λ entry. entry ≡ entry_at pid reply.now self.now) }
    {
        match self.procs.get(&pid) {
            Some(proc) => Ok(Some(entry_of(alloc, pid, proc, reply)?)),
            None => Ok(None),
        }
    }
}

// The entry of the call that the process is in, with that reply.
fn entry_of(alloc: Global, pid: Pid, proc: &Proc, reply: &Reply) -> Result<Entry, NoMemory>
    ensures { IfOk result (λ entry. entry ≡ entry_of pid reply.now proc.now) }
{
    let call = proc.call.copy(alloc)?;
    let reply = reply.copy(alloc)?;
    Ok(Entry {
        pid,
        number: proc.number,
        part: Part::Whole,
        call,
        reply: Some(reply),
    })
}
