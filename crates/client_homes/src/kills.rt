ghost use Rattle.std.specs.Prelude.{◌≡◌, OnOk};
ghost use Rattle.client_homes.specs.Calls.{forks};
ghost use Rattle.client_homes.specs.Kills.{adds_early, breaks_off, comes_to, goes_after, hears_kill, is_done, is_placed, kill_answered, kill_replied, meeting, meeting_in, meets_kill, notes_early, takes_kill, tells_kill, tells_place};

use crate::client::{ClientProcs, KillState, Unfinished};
use crate::process::ProcState;
use kernel_steps::Queue;
use packet_bodies::{ReplyBody, Request};
use process_machine::Reply;
use sprite_ids::{Errno, Kernel, NoMemory, Pid, TxNo};
use std::alloc::Global;
use unix_calls::About;

/// What a process is doing when it meets a kill.
pub(crate) enum Meeting {
    /// It is between two calls, and waits for no page.
    Dies,
    /// It waits in `pd_get`, for that device.
    Getting(u32),
    /// It waits for a page, or is inside a call that ends first, or has ended.
    Later,
}

impl ClientProcs {
    // The first kill of the process, which is of this home, is known: the kernel at which it is is told, and its parked `wait`
    // is broken off.
    pub(crate) fn tell_kill(
        &mut self,
        alloc: Global,
        about: &About,
        target: Pid,
    ) -> Result<(), NoMemory>
        ensures { OnOk result (self.new ≡ tells_kill about.now target self.old) }
    {
        let place = self.place_of(target);
        if place == self.home.kernel() {
            self.take_kill(alloc, target)?;
        } else {
            self.go_after(alloc, &Some(*about), target, place)?;
        }
        self.wake(alloc, target)
    }

    // The process is here, by its home: it meets the kill, or the kill waits for it where it is on its way from here.
    fn take_kill(&mut self, alloc: Global, target: Pid) -> Result<(), NoMemory>
        ensures { OnOk result (self.new ≡ takes_kill target self.old) }
    {
        if !self.procs.has(&target) {
            return self.note_kill(target, KillState::Waits);
        }
        self.set_killed(target);
        self.meet_kill(alloc, target)
    }

    // That kernel is told of the kill.
    fn go_after(
        &mut self,
        alloc: Global,
        about: &Option<About>,
        pid: Pid,
        place: Kernel,
    ) -> Result<(), NoMemory>
        ensures { OnOk result (self.new ≡ goes_after about.now pid place self.old) }
    {
        let tx = self.send(alloc, place, about, Request::Killed { pid })?;
        self.keep_tx(tx, Unfinished::Killed(pid))?;
        self.note_kill(pid, KillState::Out { placed: false })
    }

    // A process that is here meets a kill: it dies where it is between two calls, or, where it waits for a page then, when that
    // has come; a `pd_get` is broken off; any other call ends first.
    fn meet_kill(&mut self, alloc: Global, pid: Pid) -> Result<(), NoMemory>
        ensures { OnOk result (self.new ≡ meets_kill pid self.old) }
    {
        match self.meeting(pid) {
            Meeting::Dies => self.die(alloc, pid),
            Meeting::Getting(device) => self.break_off(alloc, pid, device),
            Meeting::Later => Ok(()),
        }
    }

    fn meeting(&self, pid: Pid) -> Meeting
        ensures { result ≡ meeting pid self.now }
    {
        match self.procs.get(&pid) {
            Some(proc) => meeting_in(&proc.state),
            None => Meeting::Later,
        }
    }

    fn break_off(&mut self, alloc: Global, pid: Pid, device: u32) -> Result<(), NoMemory>
        ensures { OnOk result (self.new ≡ breaks_off pid device self.old) }
    {
        self.getters.take_row(&device, &pid);
        self.answer_here(alloc, pid, Reply::Error(Errno::Interrupted))
    }

    /// A home tells of the kill of its process (Douglis and Ousterhout 1991). Where the process isn't here the answer is Gone;
    /// it may be a child that a `fork` brings which its home has not answered here yet, so the kill is kept for each of these
    /// (this project). The one error is want of memory.
    pub fn hear_kill(&mut self, alloc: Global, tx: TxNo, pid: Pid) -> Result<(), NoMemory>
        ensures { OnOk result (self.new ≡ hears_kill tx pid self.old) }
    {
        if self.procs.has(&pid) {
            self.set_killed(pid);
            self.answer(tx, ReplyBody::Done)?;
            self.meet_kill(alloc, pid)
        } else {
            self.note_early(pid)?;
            self.answer(tx, ReplyBody::Gone)
        }
    }

    // The kill waits for each `fork` that may bring the process.
    fn note_early(&mut self, pid: Pid) -> Result<(), NoMemory>
        ensures { OnOk result (self.new ≡ notes_early pid self.old) }
    {
        self.early.remove_all(&pid);
        add_early(&mut self.early, self.forks.rows(), pid)
    }

    /// The kernel that was told of a kill has answered (Douglis and Ousterhout 1991). Where the process was gone it is told
    /// again at the kernel to which it has come since, or waits for its coming. The one error is want of memory.
    pub fn hear_killed(&mut self, alloc: Global, pid: Pid, body: &ReplyBody) -> Result<(), NoMemory>
        ensures { OnOk result (self.new ≡ kill_replied pid body.now self.old) }
    {
        match self.kills.take(&pid) {
            Some(kill) => self.kill_answered(alloc, pid, kill, body),
            None => Ok(()),
        }
    }

    fn kill_answered(
        &mut self,
        alloc: Global,
        pid: Pid,
        kill: KillState,
        body: &ReplyBody,
    ) -> Result<(), NoMemory>
        ensures { OnOk result (self.new ≡ kill_answered pid kill body.now self.old) }
    {
        if is_done(body) || self.has_ended(pid) || self.procs.has(&pid) {
            return Ok(());
        }
        let place = self.place_of(pid);
        if is_placed(kill) && place != self.home.kernel() {
            self.go_after(alloc, &None, pid, place)
        } else {
            self.note_kill(pid, KillState::Waits)
        }
    }

    /// A process of this home has come to that kernel (Douglis and Ousterhout 1991): its kill that waits is told there. The
    /// one error is want of memory.
    ///
    /// Of places: the home's own note of where the process is.
    pub fn hear_place(
        &mut self,
        alloc: Global,
        tx: TxNo,
        pid: Pid,
        kernel: Kernel,
    ) -> Result<(), NoMemory>
        ensures { OnOk result (self.new ≡ tells_place tx pid kernel self.old) }
    {
        self.move_to(pid, kernel);
        self.answer(tx, ReplyBody::Done)?;
        match self.kills.take(&pid) {
            Some(kill) => self.come_to(alloc, pid, kernel, kill),
            None => Ok(()),
        }
    }

    fn come_to(
        &mut self,
        alloc: Global,
        pid: Pid,
        kernel: Kernel,
        kill: KillState,
    ) -> Result<(), NoMemory>
        ensures { OnOk result (self.new ≡ comes_to pid kernel kill self.old) }
    {
        match kill {
            KillState::Out { .. } => self.note_kill(pid, KillState::Out { placed: true }),
            KillState::Waits => self.go_after(alloc, &None, pid, kernel),
        }
    }
}

// What the process in that state does when it meets a kill.
fn meeting_in(state: &ProcState) -> Meeting
    ensures { result ≡ meeting_in state.now }
{
    match state {
        ProcState::Ready => Meeting::Dies,
        ProcState::Getting { device, .. } => Meeting::Getting(*device),
        _ => Meeting::Later,
    }
}

// Puts a row for each `fork` that its home, that of the process, has not answered.
fn add_early(
    early: &mut Queue<Pid, TxNo>,
    forks: &[(TxNo, Kernel)],
    pid: Pid,
) -> Result<(), NoMemory>
    ensures { OnOk result (early.new ≡ adds_early pid forks.now early.old) }
{
    for fork in forks {
        if fork.1 == pid.home() {
            early.push(pid, fork.0)?;
        }
    }
    Ok(())
}

fn is_done(body: &ReplyBody) -> bool
    ensures { result ≡ is_done body.now }
{
    match body {
        ReplyBody::Done => true,
        _ => false,
    }
}

fn is_placed(kill: KillState) -> bool
    ensures { result ≡ is_placed kill }
{
    match kill {
        KillState::Out { placed } => placed,
        KillState::Waits => false,
    }
}
