ghost use Rattle.std.specs.Prelude.{◌≡◌, OnOk};
ghost use Rattle.client_devices.specs.Masters.{enters_put, gets, master_in, master_of, most, puts, puts_to, puts_with, waits_for_ask};
ghost use Rattle.client_homes.specs.Procs.{replies};
ghost use Rattle.client_homes.specs.Says.{value};
ghost use Rattle.unix_calls.specs.DeviceCalls.{errno_of};

use crate::asking::answer_ask;
use crate::getting::serve_getters;
use crate::opened::object_at;
use crate::tables::put_answer;
use client_homes::{ClientProcs, ProcState};
use process_machine::Reply;
use pseudo_device::Answer;
use sprite_ids::{Bytes, Errno, NoMemory, Object, Pid};
use std::alloc::Global;

/// The most bytes of an ask that a master can be given: more than any ask has (this project).
const MOST: u64 = 65_535;

/// What a call on a master's descriptor finds.
#[derive(Clone, Copy, Debug, PartialEq, Eq)]
pub(crate) enum Master {
    /// The pseudo-device of that number.
    Of(u32),
    /// The call is refused.
    Refused(Errno),
}

/// The process, inside `pd_get`, wants the next ask of the pseudo-device of which that descriptor is a master's (Welch and
/// Ousterhout 1988). BadFd: the descriptor isn't in use; BadMode: it is no master's; Busy: an ask is in hand; Invalid: the first
/// ask has more bytes than `max`. Where no ask waits, it waits for one, behind those that wait already. The one error is want of
/// memory.
pub fn pd_get(
    client: &mut ClientProcs,
    alloc: Global,
    pid: Pid,
    fd: u64,
    max: u64,
) -> Result<(), NoMemory>
    ensures { OnOk result (client.new ≡ gets pid fd max client.old) }
{
    match master_of(client, pid, fd) {
        Master::Of(device) => wait_for_ask(client, alloc, pid, device, most(max)),
        Master::Refused(errno) => client.answer_here(alloc, pid, Reply::Error(errno)),
    }
}

fn wait_for_ask(
    client: &mut ClientProcs,
    alloc: Global,
    pid: Pid,
    device: u32,
    max: u32,
) -> Result<(), NoMemory>
    ensures { OnOk result (client.new ≡ waits_for_ask pid device max client.old) }
{
    client.set_state(pid, ProcState::Getting { device, max });
    client.getters.push(device, pid)?;
    serve_getters(client, alloc, device)
}

/// The process, inside `pd_put`, answers the ask in hand of the pseudo-device of which that descriptor is a master's, with bytes,
/// or with the error of that number where it isn't 0 (Welch and Ousterhout 1988). BadFd: the descriptor isn't in use; BadMode: it
/// is no master's; Invalid: no ask is in hand, no error has that number, an error has bytes, or there are more bytes than were
/// asked for. The one error is want of memory.
pub fn pd_put(
    client: &mut ClientProcs,
    alloc: Global,
    pid: Pid,
    fd: u64,
    bytes: &Bytes,
    number: u64,
) -> Result<(), NoMemory>
    ensures { OnOk result (client.new ≡ puts pid fd bytes.now number client.old) }
{
    match master_of(client, pid, fd) {
        Master::Of(device) => put_to(client, alloc, pid, device, bytes, number),
        Master::Refused(errno) => client.answer_here(alloc, pid, Reply::Error(errno)),
    }
}

fn put_to(
    client: &mut ClientProcs,
    alloc: Global,
    pid: Pid,
    device: u32,
    bytes: &Bytes,
    number: u64,
) -> Result<(), NoMemory>
    ensures { OnOk result (client.new ≡ puts_to pid device bytes.now number client.old) }
{
    if number == 0 {
        return put_with(client, alloc, pid, device, bytes, None);
    }
    match errno_of(number) {
        Some(errno) => put_with(client, alloc, pid, device, bytes, Some(errno)),
        None => client.answer_here(alloc, pid, Reply::Error(Errno::Invalid)),
    }
}

fn put_with(
    client: &mut ClientProcs,
    alloc: Global,
    pid: Pid,
    device: u32,
    bytes: &Bytes,
    errno: Option<Errno>,
) -> Result<(), NoMemory>
    ensures { OnOk result (client.new ≡ puts_with pid device bytes.now errno client.old) }
{
    match put_answer(client, device, bytes.as_slice(), errno)? {
        Some(answer) => give_answer(client, alloc, pid, answer),
        None => client.answer_here(alloc, pid, Reply::Error(Errno::Invalid)),
    }
}

// The ask isn't in hand any more: the master's call takes effect, then the ask ends with its answer, and then the master's call is
// answered.
fn give_answer(
    client: &mut ClientProcs,
    alloc: Global,
    pid: Pid,
    answer: Answer,
) -> Result<(), NoMemory>
    ensures { OnOk result (client.new ≡ replies pid (value 0 0) (enters_put pid answer client.old)) }
{
    let Answer { ask, reply } = answer;
    client.enter_own(alloc, pid, &nothing(alloc))?;
    answer_ask(client, alloc, &ask, reply)?;
    client.reply(pid, nothing(alloc))
}

// A reply without values.
fn nothing(alloc: Global) -> Reply
    ensures { result ≡ value 0 0 }
{
    Reply::Value {
        first: 0,
        second: 0,
        bytes: Bytes::new(alloc),
    }
}

// The device of which the process's descriptor is a master's.
fn master_of(client: &ClientProcs, pid: Pid, fd: u64) -> Master
    ensures { result ≡ master_of pid fd client.now }
{
    match object_at(client, pid, fd) {
        Some(object) => master_in(&object),
        None => Master::Refused(Errno::BadFd),
    }
}

fn master_in(object: &Object) -> Master
    ensures { result ≡ master_in object.now }
{
    match object {
        Object::Master(device) => Master::Of(device.number),
        Object::File(_) => Master::Refused(Errno::BadMode),
        Object::Device(_) => Master::Refused(Errno::BadMode),
    }
}

// The error of that number, from 1 to 20.
fn errno_of(number: u64) -> Option<Errno>
    ensures { result ≡ errno_of number }
{
    if number > 20 {
        return None;
    }
    Errno::new(number as u8)
}

// As many bytes as an ask may have there.
fn most(max: u64) -> u32
    ensures { result ≡ most max }
{
    if max > MOST { MOST as u32 } else { max as u32 }
}
