ghost use Rattle.std.specs.Prelude.{◌≡◌, IfOk, OnOk};
ghost use Rattle.client_homes.specs.Ends.{closes_all, dies, dies_as, dies_elsewhere, dies_here, ends, ends_by_death, keeps_tx, next_call};

use crate::client::{ClientProcs, Unfinished};
use crate::process::ProcState;
use packet_bodies::{HomeCall, HomeRequest, Request};
use sprite_ids::{Ending, NoMemory, Pid, TxNo};
use std::alloc::Global;
use unix_calls::About;

impl ClientProcs {
    // The descriptors of the process are closed from now on, for the sake of that call.
    #[tactic(auto, unfolding(crate::specs::Ends::closes_all))]
    fn close_all(&mut self, alloc: Global, pid: Pid, about: &Option<About>) -> Result<(), NoMemory>
        ensures { OnOk result (self.new ≡ closes_all pid about.now self.old) }
    {
        self.files.close_all(alloc, pid, about)
    }

    /// Notes what a remote call is for. The one error is want of memory.
    pub fn keep_tx(&mut self, tx: TxNo, call: Unfinished) -> Result<(), NoMemory>
        ensures { OnOk result (self.new ≡ keeps_tx tx call self.old) }
    {
        self.unfinished.push(tx, call)
    }

    /// The last entry of the process is made, at its home: its descriptors are closed, for the sake of that call, or of none
    /// where it died. The one error is want of memory.
    ///
    /// Of places: the process has ended, and its image and pages are nowhere from now on.
    pub fn end(&mut self, alloc: Global, pid: Pid, about: &Option<About>) -> Result<(), NoMemory>
        ensures { OnOk result (self.new ≡ ends pid about.now self.old) }
    {
        self.set_state(pid, ProcState::Ending);
        self.close_all(alloc, pid, about)
    }

    /// The process is between two calls, and a kill of it is known: it dies, as if it had come to its next call. The death
    /// takes effect at its home, which is told where it is another kernel. Of a process that isn't here it does nothing. The
    /// one error is want of memory, which is also the answer where its calls can't be counted on.
    ///
    /// Of places: where this kernel is its home, it has ended; else it is here until its home has answered.
    pub fn die(&mut self, alloc: Global, pid: Pid) -> Result<(), NoMemory>
        ensures { OnOk result (self.new ≡ dies pid self.old) }
    {
        match self.next_call(pid)? {
            Some(number) => self.die_as(alloc, &About { pid, number }),
            None => Ok(()),
        }
    }

    // The number of the next call of the process.
    fn next_call(&self, pid: Pid) -> Result<Option<u32>, NoMemory>
        ensures { IfOk result (λ number. number ≡ next_call pid self.now) }
    {
        match self.procs.get(&pid) {
            Some(proc) => Ok(Some(proc.number.checked_add(1).ok_or(NoMemory)?)),
            None => Ok(None),
        }
    }

    fn die_as(&mut self, alloc: Global, about: &About) -> Result<(), NoMemory>
        ensures { OnOk result (self.new ≡ dies_as about.now self.old) }
    {
        if self.is_native(about.pid) {
            self.die_here(alloc, about)
        } else {
            self.die_elsewhere(alloc, about)
        }
    }

    fn die_here(&mut self, alloc: Global, about: &About) -> Result<(), NoMemory>
        ensures { OnOk result (self.new ≡ dies_here about.now self.old) }
    {
        self.end_by_death(about)?;
        self.wake_after(alloc, about.pid)?;
        self.end(alloc, about.pid, &None)
    }

    // The entry of the death of a process of this home, with the end of it. Of places: from here on it is a process that has ended.
    pub(crate) fn end_by_death(&mut self, about: &About) -> Result<(), NoMemory>
        ensures { OnOk result (self.new ≡ ends_by_death about.now self.old) }
    {
        self.enter_death(about)?;
        self.note_end(about.pid, Ending::Killed);
        Ok(())
    }

    fn die_elsewhere(&mut self, alloc: Global, about: &About) -> Result<(), NoMemory>
        ensures { OnOk result (self.new ≡ dies_elsewhere about.now self.old) }
    {
        let request = HomeRequest {
            pid: about.pid,
            number: about.number,
            call: HomeCall::Exit { code: 257 },
        };
        let tx = self.send(alloc, about.pid.home(), &None, Request::Home(request))?;
        self.set_state(about.pid, ProcState::Dying { tx });
        self.keep_tx(tx, Unfinished::Death(about.pid))
    }
}
