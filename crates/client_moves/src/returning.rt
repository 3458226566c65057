ghost use Rattle.std.specs.Prelude.{◌≡◌, OnOk};
ghost use Rattle.client_moves.specs.Returning.{finishes_call, goes_between, has_returned, is_evicted, notes_return, number_at, returned, returned_in, standing, standing_of, with_evict};

use crate::carried::holds_master;
use crate::freezing::freeze;
use crate::route::Route;
use client_devices::end_making;
use client_homes::{ClientProcs, Proc, ProcState, give_in};
use kernel_steps::Table;
use process_machine::Reply;
use sprite_ids::{NoMemory, Pid};
use std::alloc::Global;
use unix_calls::{Event, ProgramLine};

/// What a process does between two calls.
#[derive(Clone, Copy, Debug, PartialEq, Eq)]
pub(crate) enum Standing {
    /// A kill of it is known.
    Dies,
    /// It is to leave this kernel.
    Leaves,
    /// It runs on.
    Stays,
}

/// The call that the process is in returns with that reply, which is put into its image unless the call made that anew; then it
/// is between two calls. The one error is want of memory, which is also the answer where a counter has come to its limit.
///
/// Of places: what `between_calls` says.
pub fn finish(
    client: &mut ClientProcs,
    alloc: Global,
    pid: Pid,
    reply: Reply,
) -> Result<(), NoMemory>
    ensures { OnOk result (client.new ≡ finishes_call pid reply client.old) }
{
    end_making(client, pid, &reply);
    put_reply(client, pid, &reply);
    note_return(client, pid, reply)?;
    between_calls(client, alloc, pid)
}

fn put_reply(client: &mut ClientProcs, pid: Pid, reply: &Reply)
    ensures { client.new ≡ has_returned pid reply.now client.old }
{
    return_in(&mut client.procs, client.programs.as_slice(), pid, reply);
}

fn return_in(procs: &mut Table<Pid, Proc>, programs: &[ProgramLine], pid: Pid, reply: &Reply)
    ensures { procs.new ≡ returned_in programs.now pid reply.now procs.old }
{
    match procs.get_mut(&pid) {
        Some(proc) => return_to(proc, programs, reply),
        None => {}
    }
}

fn return_to(proc: &mut Proc, programs: &[ProgramLine], reply: &Reply)
    ensures { proc.new ≡ returned programs.now reply.now proc.old }
{
    if !proc.fresh {
        give_in(programs, &mut proc.image, reply);
    }
    proc.fresh = false;
    proc.call = None;
    proc.state = ProcState::Ready;
}

fn note_return(client: &mut ClientProcs, pid: Pid, reply: Reply) -> Result<(), NoMemory>
    ensures { OnOk result (client.new ≡ notes_return pid reply client.old) }
{
    match number_of(client, pid) {
        Some(number) => client.note(Event::Return { pid, number, reply }),
        None => Ok(()),
    }
}

// The number of the call that the process came to last.
fn number_of(client: &ClientProcs, pid: Pid) -> Option<u32>
    ensures { result ≡ number_at pid client.now }
{
    match client.procs.get(&pid) {
        Some(proc) => Some(proc.number),
        None => None,
    }
}

/// The process is between two calls (Douglis and Ousterhout 1991). Where a kill of it is known, it dies; else, where it is to
/// leave this kernel, it is frozen and goes home, unless it holds the master's end of a pseudo-device: then it stays (this
/// project). The one error is want of memory, which is also the answer where a counter has come to its limit.
///
/// Of places: what `die` and `freeze` say.
pub fn between_calls(client: &mut ClientProcs, alloc: Global, pid: Pid) -> Result<(), NoMemory>
    ensures { OnOk result (client.new ≡ goes_between pid client.old) }
{
    match next_for(client, pid) {
        Standing::Dies => client.die(alloc, pid),
        Standing::Leaves => be_evicted(client, alloc, pid),
        Standing::Stays => Ok(()),
    }
}

fn next_for(client: &ClientProcs, pid: Pid) -> Standing
    ensures { result ≡ standing pid client.now }
{
    match client.procs.get(&pid) {
        Some(proc) => standing_of(proc),
        None => Standing::Stays,
    }
}

fn standing_of(proc: &Proc) -> Standing
    ensures { result ≡ standing_of proc.now }
{
    if proc.killed {
        return Standing::Dies;
    }
    if proc.evict {
        return Standing::Leaves;
    }
    Standing::Stays
}

fn be_evicted(client: &mut ClientProcs, alloc: Global, pid: Pid) -> Result<(), NoMemory>
    ensures { OnOk result (client.new ≡ is_evicted pid client.old) }
{
    set_evict(client, pid, false);
    if holds_master(client, alloc, pid)? {
        return Ok(());
    }
    let route = Route {
        to: pid.home(),
        about: None,
        program: None,
    };
    freeze(client, alloc, pid, &route)
}

// The process is to leave this kernel, or not.
pub(crate) fn set_evict(client: &mut ClientProcs, pid: Pid, evict: bool)
    ensures { client.new ≡ with_evict evict pid client.old }
{
    match client.procs.get_mut(&pid) {
        Some(proc) => proc.evict = evict,
        None => {}
    }
}
