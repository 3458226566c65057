ghost use Rattle.std.specs.Prelude.{◌≡◌, IfOk, OnOk, Some};
ghost use Rattle.client_homes.specs.Waits.{about_of, ends_wait, enters_home, looks_again, parks, wait_reply, waits, wakes, wakes_after, wakes_parent_of};

use crate::client::{ClientProcs, Parked};
use crate::words::{call_of, packet_of, wait_told};
use packet_bodies::{HomeCall, HomeRequest};
use process_machine::Reply;
use sprite_ids::{Copying, NoMemory, Pid, TxNo};
use std::alloc::Global;
use unix_calls::About;

impl ClientProcs {
    // Notes that the call took effect at this home, with that reply, and hands the reply out.
    pub(crate) fn enter_home(
        &mut self,
        alloc: Global,
        request: &HomeRequest,
        reply: Reply,
    ) -> Result<Option<Reply>, NoMemory>
        ensures state { OnOk result (self.new ≡ enters_home request.now reply self.old) }
        ensures reply { IfOk result (λ given. given ≡ Some reply) }
    {
        let call = call_of(alloc, &request.call)?;
        let about = about_of(request);
        self.enter(&about, call, reply.copy(alloc)?)?;
        Ok(Some(reply))
    }

    // `wait` at the home: it is told of the ended child of least pid, or that there is none, or is broken off by a kill. None
    // where it is parked.
    pub(crate) fn wait(
        &mut self,
        alloc: Global,
        request: &HomeRequest,
    ) -> Result<Option<Reply>, NoMemory>
        ensures state { OnOk result (self.new ≡ waits request.now self.old) }
        ensures reply { IfOk result (λ reply. reply ≡ wait_reply request.now.pid self.old) }
    {
        let killed = self.is_killed(request.pid);
        let answer = self.ask_wait(request.pid);
        match wait_told(alloc, answer, killed) {
            Some(reply) => self.enter_home(alloc, request, reply),
            None => Ok(None),
        }
    }

    // The `wait` is parked until a child ends.
    pub(crate) fn park(&mut self, pid: Pid, parked: &Parked) -> Result<(), NoMemory>
        ensures { OnOk result (self.new ≡ parks pid parked.now self.old) }
    {
        self.waits.push(pid, *parked)
    }

    // The parked `wait` of the process looks again, where it has one: a child has ended, or it was killed.
    pub(crate) fn wake(&mut self, alloc: Global, pid: Pid) -> Result<(), NoMemory>
        ensures { OnOk result (self.new ≡ wakes pid self.old) }
    {
        match self.waits.take(&pid) {
            Some(parked) => self.look_again(alloc, pid, &parked),
            None => Ok(()),
        }
    }

    fn look_again(&mut self, alloc: Global, pid: Pid, parked: &Parked) -> Result<(), NoMemory>
        ensures { OnOk result (self.new ≡ looks_again pid parked.now self.old) }
    {
        let request = HomeRequest {
            pid,
            number: parked.number,
            call: HomeCall::Wait,
        };
        match self.wait(alloc, &request)? {
            Some(reply) => self.end_wait(pid, parked.tx, reply),
            None => self.park(pid, parked),
        }
    }

    fn end_wait(&mut self, pid: Pid, tx: Option<TxNo>, reply: Reply) -> Result<(), NoMemory>
        ensures { OnOk result (self.new ≡ ends_wait pid tx reply self.old) }
    {
        match tx {
            Some(tx) => self.answer(tx, packet_of(reply)),
            None => self.reply(pid, reply),
        }
    }

    // What follows the end of a process of this home: a kill of it that waits is forgotten, and the parked `wait` of its parent
    // looks again.
    pub(crate) fn wake_after(&mut self, alloc: Global, pid: Pid) -> Result<(), NoMemory>
        ensures { OnOk result (self.new ≡ wakes_after pid self.old) }
    {
        self.forget_waiting(pid);
        self.wake_parent_of(alloc, pid)
    }

    fn wake_parent_of(&mut self, alloc: Global, pid: Pid) -> Result<(), NoMemory>
        ensures { OnOk result (self.new ≡ wakes_parent_of pid self.old) }
    {
        match self.parent_of(pid) {
            Some(parent) => self.wake(alloc, parent),
            None => Ok(()),
        }
    }
}

// The process and the number of the call.
pub(crate) fn about_of(request: &HomeRequest) -> About
    ensures { result ≡ about_of request.now }
{
    About {
        pid: request.pid,
        number: request.number,
    }
}
