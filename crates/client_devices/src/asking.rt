ghost use Rattle.std.specs.Prelude.{◌≡◌, true, IfOk, OnOk};
ghost use Rattle.client_devices.specs.Asking.{about_ask, aim_of, ask_in, asks_device, command_aim, command_on, data_aim, device_aim, ends_ask, enters_ask, gives_to, goes_to, is_used_by, notes_ask, notes_end, own_ask, read_aim, request_about, sends_ask, serves_ask, uses_device, write_aim};
ghost use Rattle.client_homes.specs.Procs.{answers_here, replies};
ghost use Rattle.client_homes.specs.Words.{reply_of};
ghost use Rattle.process_machine.specs.declared.Reply.TheVariants.{Error};
ghost use Rattle.unix_calls.specs.Opening.{reads, writes};

use crate::asks::{ask_of, call_of, carried_ask, packed_ask};
use crate::getting::serve_getters;
use crate::opened::stream_at;
use crate::tables::{is_alive, put_ask};
use client_homes::{ClientProcs, Proc, ProcState, Unfinished, packet_of, reply_of};
use packet_bodies::{AskRequest, ReplyBody, Request};
use process_machine::{Call, Reply};
use pseudo_device::Ask;
use sprite_ids::{Copying, DeviceId, Errno, Kernel, Mode, NoMemory, Object, Pid, TxNo};
use std::alloc::Global;
use stream_table::Stream;
use unix_calls::{About, Entry, Event, Part};

/// What a read, write or command of a process is for.
#[derive(Clone, Copy, Debug, PartialEq, Eq)]
pub(crate) enum Aim {
    /// It is no operation on a pseudo-device.
    Files,
    /// It is refused.
    Refused(Errno),
    /// It is for the master of that pseudo-device.
    Device(DeviceId),
}

/// Begins the read, write or ioctl that the process is in, where it is one on a pseudo-device (Welch and Ousterhout 1988). An
/// ioctl is BadFd where the descriptor isn't in use, Invalid on a file, BadMode on a master's end; a read or write of a device
/// is BadMode where the stream wasn't opened for it. False comes exactly where it is a read or write of no device: then nothing
/// is done, and it is the files' matter. The one error is want of memory.
pub fn use_device(
    client: &mut ClientProcs,
    alloc: Global,
    pid: Pid,
    call: &Call,
) -> Result<bool, NoMemory>
    ensures used { IfOk result (λ used. used ≡ is_used_by (aim_of pid call.now client.old)) }
    ensures state { OnOk result (client.new ≡ uses_device pid call.now client.old) }
{
    match aim_of(client, pid, call) {
        Aim::Files => Ok(false),
        Aim::Refused(errno) => refuse(client, alloc, pid, errno),
        Aim::Device(device) => begin(client, alloc, pid, &device),
    }
}

fn refuse(client: &mut ClientProcs, alloc: Global, pid: Pid, errno: Errno) -> Result<bool, NoMemory>
    ensures used { IfOk result (λ used. used ≡ true) }
    ensures state { OnOk result (client.new ≡ answers_here pid (Error errno) client.old) }
{
    client.answer_here(alloc, pid, Reply::Error(errno))?;
    Ok(true)
}

fn begin(
    client: &mut ClientProcs,
    alloc: Global,
    pid: Pid,
    device: &DeviceId,
) -> Result<bool, NoMemory>
    ensures used { IfOk result (λ used. used ≡ true) }
    ensures state { OnOk result (client.new ≡ asks_device pid device.now client.old) }
{
    match own_ask(client, alloc, pid)? {
        Some(ask) => go_to(client, alloc, pid, device, ask)?,
        None => client.answer_here(alloc, pid, Reply::Error(Errno::Invalid))?,
    }
    Ok(true)
}

// What the call that the process is in asks.
fn own_ask(client: &ClientProcs, alloc: Global, pid: Pid) -> Result<Option<Ask>, NoMemory>
    ensures { IfOk result (λ ask. ask ≡ own_ask pid client.now) }
{
    match client.procs.get(&pid) {
        Some(proc) => ask_in(alloc, pid, proc),
        None => Ok(None),
    }
}

fn ask_in(alloc: Global, pid: Pid, proc: &Proc) -> Result<Option<Ask>, NoMemory>
    ensures { IfOk result (λ ask. ask ≡ ask_in pid proc.now) }
{
    match &proc.call {
        Some(call) => ask_of(
            alloc,
            &About {
                pid,
                number: proc.number,
            },
            call,
        ),
        None => Ok(None),
    }
}

// The ask goes to the device: here at once, else as a remote call.
fn go_to(
    client: &mut ClientProcs,
    alloc: Global,
    pid: Pid,
    device: &DeviceId,
    ask: Ask,
) -> Result<(), NoMemory>
    ensures { OnOk result (client.new ≡ goes_to pid device.now ask client.old) }
{
    if device.kernel == client.kernel {
        client.set_state(pid, ProcState::InAsk { tx: None });
        return enter_ask(client, alloc, device.number, ask, None);
    }
    match packed_ask(ask, device) {
        Some(request) => send_ask(client, alloc, pid, request),
        None => client.answer_here(alloc, pid, Reply::Error(Errno::Invalid)),
    }
}

fn send_ask(
    client: &mut ClientProcs,
    alloc: Global,
    pid: Pid,
    request: AskRequest,
) -> Result<(), NoMemory>
    ensures { OnOk result (client.new ≡ sends_ask pid request client.old) }
{
    let to = kernel_of(&request);
    let about = request_about(pid, &request);
    let body = Request::Ask(request);
    let tx = client.send(alloc, to, &about, body)?;
    client.set_state(pid, ProcState::InAsk { tx: Some(tx) });
    client.keep_tx(tx, Unfinished::Ask(pid))
}

// The kernel of the pseudo-device.
fn kernel_of(request: &AskRequest) -> Kernel
    ensures { result ≡ request.now.device.kernel }
{
    request.device.kernel
}

// The call that the request goes for.
fn request_about(pid: Pid, request: &AskRequest) -> Option<About>
    ensures { result ≡ request_about pid request.now }
{
    Some(About {
        pid,
        number: request.number,
    })
}

/// Another kernel brings an ask of a pseudo-device of this one (Welch and Ousterhout 1988). Its answer comes when the master has
/// given it, or is gone. The one error is want of memory.
pub fn serve_ask(
    client: &mut ClientProcs,
    alloc: Global,
    tx: TxNo,
    request: &AskRequest,
) -> Result<(), NoMemory>
    ensures { OnOk result (client.new ≡ serves_ask tx request.now client.old) }
{
    let ask = carried_ask(alloc, request)?;
    enter_ask(client, alloc, request.device.number, ask, Some(tx))
}

/// The pseudo-device's kernel has answered the ask of the process. The one error is want of memory.
pub fn hear_ask(
    client: &mut ClientProcs,
    alloc: Global,
    pid: Pid,
    body: &ReplyBody,
) -> Result<(), NoMemory>
    ensures { OnOk result (client.new ≡ replies pid (reply_of body.now) client.old) }
{
    let reply = reply_of(alloc, body)?;
    client.reply(pid, reply)
}

// The ask takes effect at the device. Where the device has no master it ends at once, with NoServer; else it waits behind the
// others, and those that wait in `pd_get` are served.
fn enter_ask(
    client: &mut ClientProcs,
    alloc: Global,
    device: u32,
    ask: Ask,
    asker: Option<TxNo>,
) -> Result<(), NoMemory>
    ensures { OnOk result (client.new ≡ enters_ask device ask asker client.old) }
{
    note_ask(client, alloc, &ask, asker)?;
    if !is_alive(client, device) {
        return answer_ask(client, alloc, &ask, Reply::Error(Errno::NoServer));
    }
    put_ask(client, device, ask)?;
    serve_getters(client, alloc, device)
}

fn note_ask(
    client: &mut ClientProcs,
    alloc: Global,
    ask: &Ask,
    asker: Option<TxNo>,
) -> Result<(), NoMemory>
    ensures { OnOk result (client.new ≡ notes_ask ask.now asker client.old) }
{
    let call = call_of(alloc, ask)?;
    let entry = Entry {
        pid: ask.pid,
        number: ask.number,
        part: Part::Ask,
        call: Some(call),
        reply: None,
    };
    client.note(Event::Enter { entry })?;
    client.asked.push(about_ask(ask), asker)
}

// The process and the call that the ask is of.
fn about_ask(ask: &Ask) -> About
    ensures { result ≡ about_ask ask.now }
{
    About {
        pid: ask.pid,
        number: ask.number,
    }
}

// The ask ends with that reply, and its process is answered, here or by its remote call.
pub(crate) fn answer_ask(
    client: &mut ClientProcs,
    alloc: Global,
    ask: &Ask,
    reply: Reply,
) -> Result<(), NoMemory>
    ensures { OnOk result (client.new ≡ ends_ask ask.now reply client.old) }
{
    note_end(client, alloc, ask, &reply)?;
    let asker = client.asked.take(&about_ask(ask));
    give_to(client, ask.pid, asker, reply)
}

fn note_end(
    client: &mut ClientProcs,
    alloc: Global,
    ask: &Ask,
    reply: &Reply,
) -> Result<(), NoMemory>
    ensures { OnOk result (client.new ≡ notes_end ask.now reply.now client.old) }
{
    let call = call_of(alloc, ask)?;
    let reply = reply.copy(alloc)?;
    let entry = Entry {
        pid: ask.pid,
        number: ask.number,
        part: Part::Done,
        call: Some(call),
        reply: Some(reply),
    };
    client.note(Event::Enter { entry })
}

fn give_to(
    client: &mut ClientProcs,
    pid: Pid,
    asker: Option<Option<TxNo>>,
    reply: Reply,
) -> Result<(), NoMemory>
    ensures { OnOk result (client.new ≡ gives_to pid asker reply client.old) }
{
    match asker {
        Some(Some(tx)) => client.answer(tx, packet_of(reply)),
        Some(None) => client.reply(pid, reply),
        None => Ok(()),
    }
}

// What the call is for.
fn aim_of(client: &ClientProcs, pid: Pid, call: &Call) -> Aim
    ensures { result ≡ aim_of pid call.now client.now }
{
    match call {
        Call::Read { fd, .. } => read_aim(stream_at(client, pid, *fd)),
        Call::Write { fd, .. } => write_aim(stream_at(client, pid, *fd)),
        Call::Ioctl { fd, .. } => command_aim(stream_at(client, pid, *fd)),
        _ => Aim::Files,
    }
}

fn read_aim(stream: Option<Stream>) -> Aim
    ensures { result ≡ read_aim stream }
{
    match stream {
        Some(stream) => data_aim(&stream.object, reads(stream.mode)),
        None => Aim::Files,
    }
}

fn write_aim(stream: Option<Stream>) -> Aim
    ensures { result ≡ write_aim stream }
{
    match stream {
        Some(stream) => data_aim(&stream.object, writes(stream.mode)),
        None => Aim::Files,
    }
}

// A read or write of a stream that was opened for it, or not.
fn data_aim(object: &Object, allowed: bool) -> Aim
    ensures { result ≡ data_aim object.now allowed }
{
    match object {
        Object::Device(device) => device_aim(device, allowed),
        Object::File(_) => Aim::Files,
        Object::Master(_) => Aim::Files,
    }
}

fn device_aim(device: &DeviceId, allowed: bool) -> Aim
    ensures { result ≡ device_aim device.now allowed }
{
    if allowed {
        Aim::Device(*device)
    } else {
        Aim::Refused(Errno::BadMode)
    }
}

fn reads(mode: Mode) -> bool
    ensures { result ≡ reads mode }
{
    match mode {
        Mode::Read => true,
        Mode::Write => false,
        Mode::Both => true,
    }
}

fn writes(mode: Mode) -> bool
    ensures { result ≡ writes mode }
{
    match mode {
        Mode::Read => false,
        Mode::Write => true,
        Mode::Both => true,
    }
}

fn command_aim(stream: Option<Stream>) -> Aim
    ensures { result ≡ command_aim stream }
{
    match stream {
        Some(stream) => command_on(&stream.object),
        None => Aim::Refused(Errno::BadFd),
    }
}

fn command_on(object: &Object) -> Aim
    ensures { result ≡ command_on object.now }
{
    match object {
        Object::Device(device) => Aim::Device(*device),
        Object::File(_) => Aim::Refused(Errno::Invalid),
        Object::Master(_) => Aim::Refused(Errno::BadMode),
    }
}
