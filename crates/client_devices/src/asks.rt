ghost use Rattle.std.specs.Prelude.{◌≡◌, ◌++◌, IfOk, OnOk, length};
ghost use Rattle.client_devices.specs.Asks.{ask_of, ask_with, asked_call, carried_ask, command_of, packed_ask, rest_of};
ghost use Rattle.byteorder.specs.Endian.{little_bytes};

use byteorder::{ByteOrder, LittleEndian};
use packet_bodies::{AskRequest, Descriptor};
use process_machine::Call;
use pseudo_device::Ask;
use sprite_ids::{AskKind, Bytes, Copying, DeviceId, NoMemory, Pid};
use std::alloc::Global;
use unix_calls::About;

/// The most bytes that a call moves (this project).
const DATA: u64 = 16_384;

// What a process's read, write or command asks of a device's master. None comes of any other call, of a descriptor over 15 and
// of a length that no call has.
pub(crate) fn ask_of(alloc: Global, about: &About, call: &Call) -> Result<Option<Ask>, NoMemory>
    ensures { IfOk result (λ ask. ask ≡ ask_of about.now call.now) }
{
    match call {
        Call::Read { fd, length } => read_ask(alloc, about, *fd, *length),
        Call::Write { fd, bytes } => write_ask(alloc, about, *fd, bytes),
        Call::Ioctl { fd, command, bytes } => command_ask(alloc, about, *fd, *command, bytes),
        _ => Ok(None),
    }
}

fn read_ask(alloc: Global, about: &About, fd: u64, length: u64) -> Result<Option<Ask>, NoMemory>
    ensures { IfOk result (λ ask. ask ≡ ask_with about.now fd AskKind.Read length (little_bytes 8 length)) }
{
    let mut bytes = Bytes::new(alloc);
    append_number(&mut bytes, length)?;
    Ok(ask_with(about, fd, AskKind::Read, length, bytes))
}

fn write_ask(alloc: Global, about: &About, fd: u64, bytes: &Bytes) -> Result<Option<Ask>, NoMemory>
    ensures { IfOk result (λ ask. ask ≡ ask_with about.now fd AskKind.Write 0 bytes.now) }
{
    Ok(ask_with(about, fd, AskKind::Write, 0, bytes.copy(alloc)?))
}

fn command_ask(
    alloc: Global,
    about: &About,
    fd: u64,
    command: u64,
    content: &Bytes,
) -> Result<Option<Ask>, NoMemory>
    ensures { IfOk result (λ ask. ask ≡ ask_with about.now fd AskKind.Ioctl (length content.now) (little_bytes 8 command ++ content.now)) }
{
    let mut bytes = Bytes::new(alloc);
    append_number(&mut bytes, command)?;
    bytes.append(content.as_slice())?;
    Ok(ask_with(
        about,
        fd,
        AskKind::Ioctl,
        content.as_slice().len() as u64,
        bytes,
    ))
}

// The eight bytes of a number behind others, the lowest first.
fn append_number(bytes: &mut Bytes, number: u64) -> Result<(), NoMemory>
    ensures { OnOk result (bytes.new ≡ bytes.old ++ little_bytes 8 number) }
{
    let mut digits = [0; 8];
    LittleEndian::write_u64(&mut digits, number);
    bytes.append(&digits)
}

fn ask_with(about: &About, fd: u64, kind: AskKind, length: u64, bytes: Bytes) -> Option<Ask>
    ensures { result ≡ ask_with about.now fd kind length bytes }
{
    if fd >= 16 || length > DATA {
        return None;
    }
    Some(Ask {
        pid: about.pid,
        number: about.number,
        fd: fd as u8,
        kind,
        length: length as u32,
        bytes,
    })
}

// The call that the ask is of, as its process made it.
pub(crate) fn call_of(alloc: Global, ask: &Ask) -> Result<Call, NoMemory>
    ensures { IfOk result (λ call. call ≡ asked_call ask.now) }
{
    let fd = u64::from(ask.fd);
    match ask.kind {
        AskKind::Read => Ok(Call::Read {
            fd,
            length: u64::from(ask.length),
        }),
        AskKind::Write => Ok(Call::Write {
            fd,
            bytes: ask.bytes.copy(alloc)?,
        }),
        AskKind::Ioctl => Ok(Call::Ioctl {
            fd,
            command: command_of(&ask.bytes),
            bytes: rest_of(alloc, &ask.bytes)?,
        }),
    }
}

// The command, the number in the first eight bytes.
fn command_of(bytes: &Bytes) -> u64
    ensures { result ≡ command_of bytes.now }
{
    if bytes.len() < 8 {
        return 0;
    }
    LittleEndian::read_u64(bytes.as_slice())
}

// The bytes behind the command.
fn rest_of(alloc: Global, bytes: &Bytes) -> Result<Bytes, NoMemory>
    ensures { IfOk result (λ rest. rest ≡ rest_of bytes.now) }
{
    if bytes.len() < 8 {
        return Ok(Bytes::new(alloc));
    }
    Bytes::of_slice(alloc, &bytes.as_slice()[8..])
}

// The ask as a request to the device's kernel. None where its descriptor is over 15.
pub(crate) fn packed_ask(ask: Ask, device: &DeviceId) -> Option<AskRequest>
    ensures { result ≡ packed_ask ask device.now }
{
    match Descriptor::new(ask.fd) {
        Some(fd) => Some(AskRequest {
            pid: ask.pid,
            number: ask.number,
            device: *device,
            kind: ask.kind,
            length: ask.length,
            bytes: ask.bytes,
            fd,
        }),
        None => None,
    }
}

// The ask that a request brings.
pub(crate) fn carried_ask(alloc: Global, request: &AskRequest) -> Result<Ask, NoMemory>
    ensures { IfOk result (λ ask. ask ≡ carried_ask request.now) }
{
    Ok(Ask {
        pid: request.pid,
        number: request.number,
        fd: request.fd.number(),
        kind: request.kind,
        length: request.length,
        bytes: request.bytes.copy(alloc)?,
    })
}
