ghost use Rattle.std.specs.Prelude.{◌≡◌, ◌<◌, ◌++◌, ◌==◌, Some, IfOk, OnOk};
ghost use Rattle.std.specs.List.{position};
ghost use Rattle.byteorder.specs.Endian.{little_bytes};
ghost use Rattle.unix_calls.specs.DeviceCalls.{answer_of, asked_bytes, errno_of, ioctl, kind_of, most_of, pd_get, pd_put, reply_of};
ghost use Rattle.unix_calls.specs.declared.state.Device.{Device};
ghost use Rattle.unix_run.specs.Devices.{get_at, put_at};
ghost use Rattle.unix_run.specs.Coming.{Comes};

use crate::answers::{answer, give_value, refuse};
use crate::came::Came;
use byteorder::{ByteOrder, LittleEndian};
use process_machine::{Call, Reply};
use sprite_ids::{Bytes, Errno, NoMemory};
use std::alloc::Global;
use unix_calls::{Answer, Description, Object, Process};
use unix_world::{World, stream_of};

/// `ioctl fd command addr len`: a device's master answers. BadFd; Invalid: a file; BadMode: a master's stream (Welch and Ousterhout
/// 1988).
pub(crate) fn ioctl(
    c: &Description,
    world: &mut World,
    p: &mut Process,
    fd: u64,
) -> Result<Came, NoMemory>
    requires { p.old.calls < 4294967295 }
    ensures { IfOk result (λ came. Comes c.now (λ u q. ioctl c.now u q fd) world.old p.old came world.new p.new) }
{
    let Some(stream) = stream_of(world, p, fd) else {
        return Ok(refuse(c, p, Errno::BadFd));
    };
    match stream.object {
        Object::OfFile(_) => Ok(refuse(c, p, Errno::Invalid)),
        Object::OfDevice(place) => Ok(Came::GoesTo(place)),
        Object::OfMaster(_) => Ok(refuse(c, p, Errno::BadMode)),
    }
}

// The kind of an asked call: 1 read, 2 write, 3 ioctl.
fn kind_of(call: &Call) -> u64
    ensures { result ≡ kind_of call.now }
{
    match call {
        Call::Read { .. } => 1,
        Call::Write { .. } => 2,
        Call::Ioctl { .. } => 3,
        _ => 0,
    }
}

// The eight bytes of a number behind others, the lowest first.
fn append_number(asked: &mut Bytes, number: u64) -> Result<(), NoMemory>
    ensures { OnOk result (asked.new ≡ asked.old ++ little_bytes 8 number) }
{
    let mut bytes = [0; 8];
    LittleEndian::write_u64(&mut bytes, number);
    asked.append(&bytes)
}

// What a master gets: of a read the length, and of an ioctl the command, in 8 bytes, the lowest first; then the bytes.
fn asked_bytes(alloc: Global, call: &Call) -> Result<Bytes, NoMemory>
    ensures { IfOk result (λ bytes. bytes ≡ asked_bytes call.now) }
{
    let mut asked = Bytes::new(alloc);
    match call {
        Call::Read { length, .. } => append_number(&mut asked, *length)?,
        Call::Write { bytes, .. } => asked.append(bytes.as_slice())?,
        Call::Ioctl { command, bytes, .. } => append_command(
            &mut asked,
            *command,
            bytes.as_slice(),
        )?,
        _ => {}
    }
    Ok(asked)
}

// A command and its bytes behind others.
fn append_command(asked: &mut Bytes, command: u64, bytes: &[u8]) -> Result<(), NoMemory>
    ensures { OnOk result (asked.new ≡ asked.old ++ (little_bytes 8 command ++ bytes.now)) }
{
    append_number(asked, command)?;
    asked.append(bytes)
}

/// `pd_get fd addr max`: the first ask, its kind and its bytes with their number. BadFd; BadMode: no master's stream; Busy: one is in
/// hand; Invalid: its bytes are more than `max`. It waits where no ask does (Welch and Ousterhout 1988).
pub(crate) fn pd_get(
    alloc: Global,
    c: &Description,
    world: &mut World,
    p: &mut Process,
    fd: u64,
    max: u64,
) -> Result<Came, NoMemory>
    requires { p.old.calls < 4294967295 }
    ensures { IfOk result (λ came. Comes c.now (λ u q. pd_get c.now u q fd max) world.old p.old came world.new p.new) }
{
    let Some(stream) = stream_of(world, p, fd) else {
        return Ok(refuse(c, p, Errno::BadFd));
    };
    let Object::OfMaster(place) = stream.object else {
        return Ok(refuse(c, p, Errno::BadMode));
    };
    match world.devices.place_of(place) {
        None => Ok(refuse(c, p, Errno::BadMode)),
        Some(at) => get_at(alloc, c, world, p, max, place, at),
    }
}

// From the device that stands there.
fn get_at(
    alloc: Global,
    c: &Description,
    world: &mut World,
    p: &mut Process,
    max: u64,
    place: u32,
    at: usize,
) -> Result<Came, NoMemory>
    requires calls { p.old.calls < 4294967295 }
    requires there { position (λ (d : Device). d.place == place) world.old.devices ≡ Some at }
    ensures { IfOk result (λ came. Comes c.now (λ u q. get_at c.now u q max place) world.old p.old came world.new p.new) }
{
    let device = world.devices.at(at);
    if device.in_hand.is_some() {
        return Ok(refuse(c, p, Errno::Busy));
    }
    if device.asks.is_empty() {
        return Ok(Came::Waits);
    }
    let ask = device.asks.at(0);
    let first = kind_of(&ask.call);
    let bytes = asked_bytes(alloc, &ask.call)?;
    let second = bytes.len() as u64;
    if max < second {
        return Ok(refuse(c, p, Errno::Invalid));
    }
    world.devices.take_ask(at);
    Ok(answer(
        c,
        p,
        Reply::Value {
            first,
            second,
            bytes,
        },
    ))
}

// How many bytes an answer may have.
fn most_of(call: &Call) -> u64
    ensures { result ≡ most_of call.now }
{
    match call {
        Call::Read { length, .. } => *length,
        Call::Ioctl { bytes, .. } => bytes.len() as u64,
        _ => 0,
    }
}

// Its value: a write's own length, else how many bytes the answer has.
fn reply_of(alloc: Global, call: &Call, bytes: &[u8]) -> Result<Reply, NoMemory>
    ensures { IfOk result (λ reply. reply ≡ reply_of call.now bytes.now) }
{
    let second = 0;
    if let Call::Write { bytes: written, .. } = call {
        let first = written.len() as u64;
        let bytes = Bytes::new(alloc);
        return Ok(Reply::Value {
            first,
            second,
            bytes,
        });
    }
    let first = bytes.len() as u64;
    let bytes = Bytes::of_slice(alloc, bytes)?;
    Ok(Reply::Value {
        first,
        second,
        bytes,
    })
}

// The error of that number, from 1 to 20.
fn errno_of(number: u64) -> Option<Errno>
    ensures { result ≡ errno_of number }
{
    if number > 20 {
        return None;
    }
    Errno::new(number as u8)
}

// The answer of a master: an error's number and no bytes, or at most as many bytes as the ask wants.
fn answer_of(
    alloc: Global,
    call: &Call,
    bytes: &[u8],
    number: u64,
) -> Result<Option<Reply>, NoMemory>
    ensures { IfOk result (λ reply. reply ≡ answer_of call.now bytes.now number) }
{
    if number == 0 {
        if bytes.len() as u64 > most_of(call) {
            return Ok(None);
        }
        return Ok(Some(reply_of(alloc, call, bytes)?));
    }
    if !bytes.is_empty() {
        return Ok(None);
    }
    match errno_of(number) {
        Some(errno) => Ok(Some(Reply::Error(errno))),
        None => Ok(None),
    }
}

/// `pd_put fd addr len errno`: the answer of the ask in hand. BadFd; BadMode: no master's stream; Invalid: none in hand, no error of
/// that number, an error with bytes, more bytes than the ask wants (Welch and Ousterhout 1988).
pub(crate) fn pd_put(
    alloc: Global,
    c: &Description,
    world: &mut World,
    p: &mut Process,
    fd: u64,
    bytes: &[u8],
    number: u64,
) -> Result<Came, NoMemory>
    requires { p.old.calls < 4294967295 }
    ensures { IfOk result (λ came. Comes c.now (λ u q. pd_put c.now u q fd bytes.now number) world.old p.old came world.new p.new) }
{
    let Some(stream) = stream_of(world, p, fd) else {
        return Ok(refuse(c, p, Errno::BadFd));
    };
    let Object::OfMaster(place) = stream.object else {
        return Ok(refuse(c, p, Errno::BadMode));
    };
    match world.devices.place_of(place) {
        None => Ok(refuse(c, p, Errno::BadMode)),
        Some(at) => put_at(alloc, c, world, p, bytes, number, place, at),
    }
}

// To the device that stands there.
fn put_at(
    alloc: Global,
    c: &Description,
    world: &mut World,
    p: &mut Process,
    bytes: &[u8],
    number: u64,
    place: u32,
    at: usize,
) -> Result<Came, NoMemory>
    requires calls { p.old.calls < 4294967295 }
    requires there { position (λ (d : Device). d.place == place) world.old.devices ≡ Some at }
    ensures { IfOk result (λ came. Comes c.now (λ u q. put_at c.now u q bytes.now number place) world.old p.old came world.new p.new) }
{
    let Some(ask) = &world.devices.at(at).in_hand else {
        return Ok(refuse(c, p, Errno::Invalid));
    };
    let pid = ask.pid;
    let Some(reply) = answer_of(alloc, &ask.call, bytes, number)? else {
        return Ok(refuse(c, p, Errno::Invalid));
    };
    world.devices.leave(at, Answer { pid, reply })?;
    Ok(give_value(alloc, c, p, 0))
}
