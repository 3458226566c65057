ghost use Rattle.std.specs.Prelude.{◌≡◌, OnOk};
ghost use Rattle.client_devices.specs.Getting.{ends_getting, first_getter, max_in, max_of, serves_getter, serves_getters, turned};

use crate::tables::{Taken, take_ask};
use client_homes::{ClientProcs, ProcState};
use process_machine::Reply;
use sprite_ids::{Errno, NoMemory, Pid};
use std::alloc::Global;

// Serves those that wait in `pd_get` for the device, in order, until no ask waits any more. Each turn takes one out, so as many
// turns as wait for any device are enough.
pub(crate) fn serve_getters(
    client: &mut ClientProcs,
    alloc: Global,
    device: u32,
) -> Result<(), NoMemory>
    ensures { OnOk result (client.new ≡ serves_getters device client.old) }
{
    let count = client.getters.len();
    for _done in 0..count {
        turn(client, alloc, device)?;
    }
    Ok(())
}

// Serves the first that waits for the device.
fn turn(client: &mut ClientProcs, alloc: Global, device: u32) -> Result<(), NoMemory>
    ensures { OnOk result (client.new ≡ turned device client.old) }
{
    match first_getter(client, device) {
        Some(pid) => serve(client, alloc, device, pid),
        None => Ok(()),
    }
}

// The first that waits for the device.
fn first_getter(client: &ClientProcs, device: u32) -> Option<Pid>
    ensures { result ≡ first_getter device client.now }
{
    match client.getters.first(&device) {
        Some(pid) => Some(*pid),
        None => None,
    }
}

// It is told the first ask where none is in hand; where none waits, it waits on.
fn serve(client: &mut ClientProcs, alloc: Global, device: u32, pid: Pid) -> Result<(), NoMemory>
    ensures { OnOk result (client.new ≡ serves_getter device pid client.old) }
{
    let max = max_of(client, pid);
    match take_ask(client, device, max)? {
        Taken::Given(ask) => end_getting(client, alloc, device, pid, ask.told(alloc)?),
        Taken::Busy => end_getting(client, alloc, device, pid, Reply::Error(Errno::Busy)),
        Taken::Long => end_getting(client, alloc, device, pid, Reply::Error(Errno::Invalid)),
        Taken::Empty => Ok(()),
    }
}

// Its `pd_get` takes effect, with that reply.
fn end_getting(
    client: &mut ClientProcs,
    alloc: Global,
    device: u32,
    pid: Pid,
    reply: Reply,
) -> Result<(), NoMemory>
    ensures { OnOk result (client.new ≡ ends_getting device pid reply client.old) }
{
    client.getters.take_row(&device, &pid);
    client.answer_here(alloc, pid, reply)
}

// How many bytes the ask may have that it waits for.
fn max_of(client: &ClientProcs, pid: Pid) -> u32
    ensures { result ≡ max_of pid client.now }
{
    match client.procs.get(&pid) {
        Some(proc) => max_in(&proc.state),
        None => 0,
    }
}

fn max_in(state: &ProcState) -> u32
    ensures { result ≡ max_in state.now }
{
    match state {
        ProcState::Getting { max, .. } => *max,
        _ => 0,
    }
}
