ghost use Rattle.std.specs.Prelude.{◌≡◌, IfOk, OnOk};
ghost use Rattle.client_homes.specs.Issuing.{asks_home, begins_home, brings_child, child_in, does_here, finishes, finishes_own, goes_home, hears_home, home_for, is_death, is_fork, issues_home, makes_if, notes_fork, own_request, page_for, parks_here, request_of, request_with, serves_death, serves_home};

use crate::client::{ClientProcs, Parked, Unfinished};
use crate::cluster::is_client;
use crate::process::{Proc, ProcState};
use crate::saying::value;
use crate::waits::about_of;
use crate::words::{home_call_of, packet_of, pid_of, reply_of};
use packet_bodies::{HomeCall, HomeRequest, ReplyBody, Request};
use process_machine::{Call, Reply};
use sprite_ids::{Copying, Errno, Kernel, NoMemory, Pid, TxNo};
use std::alloc::Global;

impl ClientProcs {
    /// Begins the call that the process is in, one that is done at its home, or a `kill`, which is done at the home of its
    /// argument (Douglis and Ousterhout 1991). Here it is done at once, but a `wait` may be parked; another kernel is asked. A
    /// `fork` fetches first the pages that are away, one after the other, and is begun anew after each. A `kill` of what is no
    /// client's process is NoProcess. The one error is want of memory, which is also the answer where a counter has come to its
    /// limit.
    ///
    /// Of places: what `do_at_home` says; and a child of a process of this home is here from then on.
    pub fn issue_home(&mut self, alloc: Global, pid: Pid) -> Result<(), NoMemory>
        ensures { OnOk result (self.new ≡ issues_home pid self.old) }
    {
        match self.own_request(alloc, pid)? {
            Some(request) => self.begin_home(alloc, &request),
            None => self.answer_here(alloc, pid, Reply::Error(Errno::NoProcess)),
        }
    }

    /// The call that the process is in, as a home is asked for it; None exactly where the process isn't here, or is in no call that a home
    /// does. The one error is want of memory.
    pub fn own_request(&self, alloc: Global, pid: Pid) -> Result<Option<HomeRequest>, NoMemory>
        ensures { IfOk result (λ request. request ≡ own_request pid self.now) }
    {
        match self.procs.get(&pid) {
            Some(proc) => request_of(alloc, pid, proc),
            None => Ok(None),
        }
    }

    fn begin_home(&mut self, alloc: Global, request: &HomeRequest) -> Result<(), NoMemory>
        ensures { OnOk result (self.new ≡ begins_home request.now self.old) }
    {
        let kernel = home_for(request);
        if !is_client(self.kernels.as_slice(), kernel) {
            return self.answer_here(alloc, request.pid, Reply::Error(Errno::NoProcess));
        }
        match self.page_for(request) {
            Some(page) => self.fetch_for_fork(alloc, request.pid, page),
            None => self.go_home(alloc, request, kernel),
        }
    }

    // The page that is to be fetched before the call is done.
    fn page_for(&self, request: &HomeRequest) -> Option<u8>
        ensures { result ≡ page_for request.now self.now }
    {
        if is_fork(&request.call) {
            self.page_away(request.pid)
        } else {
            None
        }
    }

    fn go_home(
        &mut self,
        alloc: Global,
        request: &HomeRequest,
        kernel: Kernel,
    ) -> Result<(), NoMemory>
        ensures { OnOk result (self.new ≡ goes_home kernel request.now self.old) }
    {
        if kernel == self.home.kernel() {
            self.do_here(alloc, request)
        } else {
            self.ask_home(alloc, request, kernel)
        }
    }

    fn do_here(&mut self, alloc: Global, request: &HomeRequest) -> Result<(), NoMemory>
        ensures { OnOk result (self.new ≡ does_here request.now self.old) }
    {
        match self.do_at_home(alloc, request)? {
            Some(reply) => self.finish(alloc, request, reply),
            None => self.park_here(request),
        }
    }

    // The process's own `wait` is parked.
    fn park_here(&mut self, request: &HomeRequest) -> Result<(), NoMemory>
        ensures { OnOk result (self.new ≡ parks_here request.now self.old) }
    {
        self.set_state(request.pid, ProcState::Waiting);
        let parked = Parked {
            number: request.number,
            tx: None,
        };
        self.park(request.pid, &parked)
    }

    // Another kernel is asked for the call.
    fn ask_home(
        &mut self,
        alloc: Global,
        request: &HomeRequest,
        kernel: Kernel,
    ) -> Result<(), NoMemory>
        ensures { OnOk result (self.new ≡ asks_home kernel request.now self.old) }
    {
        let body = Request::Home(request.copy(alloc)?);
        let tx = self.send(alloc, kernel, &Some(about_of(request)), body)?;
        self.set_state(request.pid, ProcState::AtHome { tx });
        self.keep_tx(tx, Unfinished::Home(request.pid))?;
        self.note_fork(&request.call, tx, kernel)
    }

    // A `fork` that a home is asked for may bring a process that is killed before it comes.
    fn note_fork(&mut self, call: &HomeCall, tx: TxNo, kernel: Kernel) -> Result<(), NoMemory>
        ensures { OnOk result (self.new ≡ notes_fork call.now tx kernel self.old) }
    {
        if is_fork(call) {
            self.forks.push(tx, kernel)
        } else {
            Ok(())
        }
    }

    // The call is done, with that reply: the process ends by an `exit`, and a `fork` brings its child.
    fn finish(&mut self, alloc: Global, request: &HomeRequest, reply: Reply) -> Result<(), NoMemory>
        ensures { OnOk result (self.new ≡ finishes reply request.now self.old) }
    {
        match &request.call {
            HomeCall::Exit { .. } => self.end(alloc, request.pid, &Some(about_of(request))),
            HomeCall::Fork => self.bring_child(alloc, request.pid, reply),
            _ => self.reply(request.pid, reply),
        }
    }

    // Of places: the child of an answered `fork` is here from now on.
    fn bring_child(&mut self, alloc: Global, pid: Pid, reply: Reply) -> Result<(), NoMemory>
        ensures { OnOk result (self.new ≡ brings_child pid reply self.old) }
    {
        self.make_if(alloc, pid, child_in(&reply))?;
        self.reply(pid, reply)
    }

    fn make_if(&mut self, alloc: Global, pid: Pid, child: Option<Pid>) -> Result<(), NoMemory>
        ensures { OnOk result (self.new ≡ makes_if pid child self.old) }
    {
        match child {
            Some(child) => self.make_child(alloc, pid, child),
            None => Ok(()),
        }
    }

    /// Another kernel has done the call that the process is in (Douglis and Ousterhout 1991). The one error is want of memory,
    /// which is also the answer where a counter has come to its limit.
    ///
    /// Of places: a process in its `exit` has ended, and the child of a `fork` is here from now on, which was in the answer.
    pub fn hear_home(
        &mut self,
        alloc: Global,
        tx: TxNo,
        pid: Pid,
        body: &ReplyBody,
    ) -> Result<(), NoMemory>
        ensures { OnOk result (self.new ≡ hears_home tx pid body.now self.old) }
    {
        self.forks.take(&tx);
        let reply = reply_of(alloc, body)?;
        self.finish_own(alloc, pid, reply)?;
        self.forget_early(tx);
        Ok(())
    }

    fn finish_own(&mut self, alloc: Global, pid: Pid, reply: Reply) -> Result<(), NoMemory>
        ensures { OnOk result (self.new ≡ finishes_own pid reply self.old) }
    {
        match self.own_request(alloc, pid)? {
            Some(request) => self.finish(alloc, &request, reply),
            None => Ok(()),
        }
    }

    /// Another kernel asks for a call of a process of this home, for a `kill` of one, or tells of the death of one (Douglis and
    /// Ousterhout 1991). A `wait` that is parked has no answer in this step. The one error is want of memory, which is also the
    /// answer where a counter has come to its limit.
    ///
    /// Of places: what `do_at_home` says; a process that died has ended.
    pub fn serve_home(
        &mut self,
        alloc: Global,
        tx: TxNo,
        request: &HomeRequest,
    ) -> Result<(), NoMemory>
        ensures { OnOk result (self.new ≡ serves_home tx request.now self.old) }
    {
        if is_death(&request.call) {
            return self.serve_death(alloc, tx, request);
        }
        match self.do_at_home(alloc, request)? {
            Some(reply) => self.answer(tx, packet_of(reply)),
            None => {
                let parked = Parked {
                    number: request.number,
                    tx: Some(tx),
                };
                self.park(request.pid, &parked)
            }
        }
    }

    fn serve_death(
        &mut self,
        alloc: Global,
        tx: TxNo,
        request: &HomeRequest,
    ) -> Result<(), NoMemory>
        ensures { OnOk result (self.new ≡ serves_death tx request.now self.old) }
    {
        self.end_by_death(&about_of(request))?;
        self.wake_after(alloc, request.pid)?;
        self.answer(tx, packet_of(value(alloc, 0, 0)))
    }
}

// The call that the process is in, as a home is asked for it.
fn request_of(alloc: Global, pid: Pid, proc: &Proc) -> Result<Option<HomeRequest>, NoMemory>
    ensures { IfOk result (λ request. request ≡ request_of pid proc.now) }
{
    match &proc.call {
        Some(call) => request_with(alloc, pid, proc.number, call),
        None => Ok(None),
    }
}

fn request_with(
    alloc: Global,
    pid: Pid,
    number: u32,
    call: &Call,
) -> Result<Option<HomeRequest>, NoMemory>
    ensures { IfOk result (λ request. request ≡ request_with pid number call.now) }
{
    match home_call_of(alloc, call)? {
        Some(call) => Ok(Some(HomeRequest { pid, number, call })),
        None => Ok(None),
    }
}

// The kernel at which the call is done.
fn home_for(request: &HomeRequest) -> Kernel
    ensures { result ≡ home_for request.now }
{
    match &request.call {
        HomeCall::Kill { pid } => pid.home(),
        _ => request.pid.home(),
    }
}

fn is_fork(call: &HomeCall) -> bool
    ensures { result ≡ is_fork call.now }
{
    match call {
        HomeCall::Fork => true,
        _ => false,
    }
}

// Whether it tells of a death.
fn is_death(call: &HomeCall) -> bool
    ensures { result ≡ is_death call.now }
{
    match call {
        HomeCall::Exit { code } => *code == 257,
        _ => false,
    }
}

/// The child that a `fork` of that reply made; None exactly where it made none.
pub fn child_in(reply: &Reply) -> Option<Pid>
    ensures { result ≡ child_in reply.now }
{
    match reply {
        Reply::Value { first, .. } => pid_of(*first),
        Reply::Error(_) => None,
    }
}
