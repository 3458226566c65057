ghost use Rattle.std.specs.Prelude.{◌≡◌, IfOk, OnOk, Some};
ghost use Rattle.client_homes.specs.Calls.{born_reply, does_at_home, ending_of, ends_by_exit, exits, forks, home_reply, host_reply, host_told, kill_reply, kills, number_or_zero, parent_reply, tick_reply, ticks_for};
ghost use Rattle.client_homes.specs.Homes.{born_pid};
ghost use Rattle.client_homes.specs.Says.{value};
ghost use Rattle.client_homes.specs.Waits.{enters_home};

use crate::client::ClientProcs;
use crate::cluster::name_of;
use crate::saying::value;
use crate::waits::about_of;
use packet_bodies::{HomeCall, HomeRequest};
use process_machine::Reply;
use sprite_ids::{Bytes, Ending, Errno, NoMemory, Pid};
use std::alloc::Global;

impl ClientProcs {
    /// Does a call of a process that is done at its home, which is this kernel, or a `kill` of a process of this home, and
    /// makes its entry (Douglis and Ousterhout 1991). It makes no difference whether the process runs here or asks from
    /// another kernel. None comes exactly where it is a `wait` that has no reply yet. The one error is want of memory, which is
    /// also the answer where the ticks have come to their limit.
    ///
    /// Of places: `exit` ends its process, and `fork` makes a child, which is in the answer until it is at its parent's place.
    pub fn do_at_home(
        &mut self,
        alloc: Global,
        request: &HomeRequest,
    ) -> Result<Option<Reply>, NoMemory>
        ensures state { OnOk result (self.new ≡ does_at_home request.now self.old) }
        ensures reply { IfOk result (λ reply. reply ≡ home_reply request.now self.old) }
    {
        match &request.call {
            HomeCall::Print { .. } => self.enter_home(alloc, request, value(alloc, 0, 0)),
            HomeCall::Exit { code } => self.exit(alloc, request, *code),
            HomeCall::Getppid => self.getppid(alloc, request),
            HomeCall::Host { max } => self.host(alloc, request, *max),
            HomeCall::Tick => self.count_tick(alloc, request),
            HomeCall::Fork => self.fork(alloc, request),
            HomeCall::Wait => self.wait(alloc, request),
            HomeCall::Kill { pid } => self.kill(alloc, request, *pid),
        }
    }

    // The process ends, by itself or by a bad step.
    fn exit(
        &mut self,
        alloc: Global,
        request: &HomeRequest,
        code: u64,
    ) -> Result<Option<Reply>, NoMemory>
        ensures state { OnOk result (self.new ≡ exits request.now code self.old) }
        ensures reply { IfOk result (λ reply. reply ≡ Some (value 0 0)) }
    {
        self.end_by_exit(alloc, request, code)?;
        self.wake_after(alloc, request.pid)?;
        Ok(Some(value(alloc, 0, 0)))
    }

    // The entry that ends the process, with the end of it. Of places: from here on it is a process that has ended.
    fn end_by_exit(
        &mut self,
        alloc: Global,
        request: &HomeRequest,
        code: u64,
    ) -> Result<(), NoMemory>
        ensures { OnOk result (self.new ≡ ends_by_exit request.now code self.old) }
    {
        self.enter_home(alloc, request, value(alloc, 0, 0))?;
        self.note_end(request.pid, ending_of(code));
        Ok(())
    }

    fn getppid(&mut self, alloc: Global, request: &HomeRequest) -> Result<Option<Reply>, NoMemory>
        ensures state { OnOk result (self.new ≡ enters_home request.now (parent_reply request.now.pid self.old) self.old) }
        ensures reply { IfOk result (λ reply. reply ≡ Some (parent_reply request.now.pid self.old)) }
    {
        let parent = number_of(self.parent_of(request.pid));
        self.enter_home(alloc, request, value(alloc, parent, 0))
    }

    // The home's name, where it isn't longer than that.
    fn host(
        &mut self,
        alloc: Global,
        request: &HomeRequest,
        max: u64,
    ) -> Result<Option<Reply>, NoMemory>
        ensures state { OnOk result (self.new ≡ enters_home request.now (host_reply max self.old) self.old) }
        ensures reply { IfOk result (λ reply. reply ≡ Some (host_reply max self.old)) }
    {
        let name = name_of(alloc, self.kernels.as_slice(), self.kernel)?;
        self.enter_home(alloc, request, host_told(name, max))
    }

    fn count_tick(
        &mut self,
        alloc: Global,
        request: &HomeRequest,
    ) -> Result<Option<Reply>, NoMemory>
        ensures state { OnOk result (self.new ≡ ticks_for request.now self.old) }
        ensures reply { IfOk result (λ reply. reply ≡ Some (tick_reply self.old)) }
    {
        let count = self.tick()?;
        self.enter_home(alloc, request, value(alloc, count, 0))
    }

    // A child is born, at its parent's place.
    fn fork(&mut self, alloc: Global, request: &HomeRequest) -> Result<Option<Reply>, NoMemory>
        ensures state { OnOk result (self.new ≡ forks request.now self.old) }
        ensures reply { IfOk result (λ reply. reply ≡ Some (born_reply (born_pid request.now.pid self.old))) }
    {
        let child = self.bear(request.pid)?;
        self.enter_home(alloc, request, born_reply(alloc, child))
    }

    // The first kill of a process that lives is told to the kernel at which it is, in this step.
    fn kill(
        &mut self,
        alloc: Global,
        request: &HomeRequest,
        target: Pid,
    ) -> Result<Option<Reply>, NoMemory>
        ensures state { OnOk result (self.new ≡ kills request.now target self.old) }
        ensures reply { IfOk result (λ reply. reply ≡ Some (kill_reply target self.old)) }
    {
        let again = self.is_killed(target);
        if !self.mark_killed(target) {
            return self.enter_home(alloc, request, Reply::Error(Errno::NoProcess));
        }
        self.enter_home(alloc, request, value(alloc, 0, 0))?;
        if !again {
            self.tell_kill(alloc, &about_of(request), target)?;
        }
        Ok(Some(value(alloc, 0, 0)))
    }
}

// How a process ended that ended with that code.
fn ending_of(code: u64) -> Ending
    ensures { result ≡ ending_of code }
{
    if code == 256 {
        Ending::Bad
    } else {
        Ending::Exit((code % 256) as u8)
    }
}

// The number of the process, 0 where there is none.
fn number_of(pid: Option<Pid>) -> u64
    ensures { result ≡ number_or_zero pid }
{
    match pid {
        Some(pid) => u64::from(pid.number()),
        None => 0,
    }
}

fn host_told(name: Bytes, max: u64) -> Reply
    ensures { result ≡ host_told name max }
{
    let length = name.len() as u64;
    if length > max {
        return Reply::Error(Errno::Invalid);
    }
    Reply::Value {
        first: length,
        second: 0,
        bytes: name,
    }
}

fn born_reply(alloc: Global, child: Option<Pid>) -> Reply
    ensures { result ≡ born_reply child }
{
    match child {
        Some(pid) => value(alloc, u64::from(pid.number()), 0),
        None => Reply::Error(Errno::TooMany),
    }
}
