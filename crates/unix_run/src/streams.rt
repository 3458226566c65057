ghost use Rattle.std.specs.Prelude.{◌≡◌, ◌<◌, IfOk};
ghost use Rattle.unix_calls.specs.Opening.{reads, writes};
ghost use Rattle.unix_calls.specs.StreamCalls.{begins_at, close, dup, read, read_file, seek, size, sync, write, write_file};
ghost use Rattle.unix_run.specs.Coming.{Comes};

use crate::answers::{answer, give_value, refuse};
use crate::came::Came;
use process_machine::Reply;
use sprite_ids::{Errno, Mode, NoMemory};
use std::alloc::Global;
use unix_calls::{Description, FileName, Object, Process, Stream};
use unix_world::{World, free_descriptor, stream_of};

/// `close fd`: the descriptor is free. BadFd: it is not in use.
pub(crate) fn close(
    alloc: Global,
    c: &Description,
    world: &mut World,
    p: &mut Process,
    fd: u64,
) -> Result<Came, NoMemory>
    requires { p.old.calls < 4294967295 }
    ensures { IfOk result (λ came. Comes c.now (λ u q. close c.now u q fd) world.old p.old came world.new p.new) }
{
    let Some(_stream) = stream_of(world, p, fd) else {
        return Ok(refuse(c, p, Errno::BadFd));
    };
    p.descriptors.as_mut_slice()[fd as usize] = None;
    Ok(give_value(alloc, c, p, 0))
}

/// `dup fd`: the lowest free descriptor, which leads to the same stream. BadFd; TooMany: none is free.
pub(crate) fn dup(
    alloc: Global,
    c: &Description,
    world: &mut World,
    p: &mut Process,
    fd: u64,
) -> Result<Came, NoMemory>
    requires { p.old.calls < 4294967295 }
    ensures { IfOk result (λ came. Comes c.now (λ u q. dup c.now u q fd) world.old p.old came world.new p.new) }
{
    let Some(stream) = stream_of(world, p, fd) else {
        return Ok(refuse(c, p, Errno::BadFd));
    };
    let Some(free) = free_descriptor(p) else {
        return Ok(refuse(c, p, Errno::TooMany));
    };
    p.descriptors.as_mut_slice()[free] = Some(stream.place);
    Ok(give_value(alloc, c, p, free as u64))
}

/// `read fd addr len`: the bytes and how many they are. BadFd; BadMode: not open for that.
pub(crate) fn read(
    alloc: Global,
    c: &Description,
    world: &mut World,
    p: &mut Process,
    fd: u64,
    many: u64,
) -> Result<Came, NoMemory>
    requires { p.old.calls < 4294967295 }
    ensures { IfOk result (λ came. Comes c.now (λ u q. read c.now u q fd many) world.old p.old came world.new p.new) }
{
    let Some(stream) = stream_of(world, p, fd) else {
        return Ok(refuse(c, p, Errno::BadFd));
    };
    if !reads(stream.mode) {
        return Ok(refuse(c, p, Errno::BadMode));
    }
    match stream.object {
        Object::OfFile(name) => read_file(alloc, c, world, p, &stream, many, name),
        Object::OfDevice(place) => Ok(Came::GoesTo(place)),
        Object::OfMaster(_) => Ok(refuse(c, p, Errno::BadMode)),
    }
}

// Whether a stream of the mode may be read.
fn reads(mode: Mode) -> bool
    ensures { result ≡ reads mode }
{
    match mode {
        Mode::Read | Mode::Both => true,
        Mode::Write => false,
    }
}

// Whether it may be written.
pub(crate) fn writes(mode: Mode) -> bool
    ensures { result ≡ writes mode }
{
    match mode {
        Mode::Write | Mode::Both => true,
        Mode::Read => false,
    }
}

// A file is read from the stream's offset, to the length or the file's end.
fn read_file(
    alloc: Global,
    c: &Description,
    world: &mut World,
    p: &mut Process,
    stream: &Stream,
    many: u64,
    name: FileName,
) -> Result<Came, NoMemory>
    requires { p.old.calls < 4294967295 }
    ensures { IfOk result (λ came. Comes c.now (λ u q. read_file c.now u q stream.now many name) world.old p.old came world.new p.new) }
{
    let bytes = world.files.read(alloc, name, stream.offset, many)?;
    let first = bytes.len() as u64;
    let offset = stream.offset.checked_add(first).ok_or(NoMemory)?;
    world.streams.put_offset(stream, offset);
    let second = 0;
    Ok(answer(
        c,
        p,
        Reply::Value {
            first,
            second,
            bytes,
        },
    ))
}

/// `write fd addr len`: how many bytes they are. BadFd; BadMode: not open for that.
pub(crate) fn write(
    alloc: Global,
    c: &Description,
    world: &mut World,
    p: &mut Process,
    fd: u64,
    bytes: &[u8],
) -> Result<Came, NoMemory>
    requires { p.old.calls < 4294967295 }
    ensures { IfOk result (λ came. Comes c.now (λ u q. write c.now u q fd bytes.now) world.old p.old came world.new p.new) }
{
    let Some(stream) = stream_of(world, p, fd) else {
        return Ok(refuse(c, p, Errno::BadFd));
    };
    if !writes(stream.mode) {
        return Ok(refuse(c, p, Errno::BadMode));
    }
    match stream.object {
        Object::OfFile(name) => write_file(alloc, c, world, p, &stream, bytes, name),
        Object::OfDevice(place) => Ok(Came::GoesTo(place)),
        Object::OfMaster(_) => Ok(refuse(c, p, Errno::BadMode)),
    }
}

// The file is written from the stream's offset or its own end on. TooBig: it would pass the limit.
fn write_file(
    alloc: Global,
    c: &Description,
    world: &mut World,
    p: &mut Process,
    stream: &Stream,
    bytes: &[u8],
    name: FileName,
) -> Result<Came, NoMemory>
    requires { p.old.calls < 4294967295 }
    ensures { IfOk result (λ came. Comes c.now (λ u q. write_file c.now u q stream.now bytes.now name) world.old p.old came world.new p.new) }
{
    let from = begins_at(stream, world.files.bytes_of(name));
    let end = from.saturating_add(bytes.len() as u64);
    if u64::from(world.limit) < end {
        return Ok(refuse(c, p, Errno::TooBig));
    }
    world.files.write(alloc, name, from, bytes)?;
    world.streams.put_offset(stream, end);
    Ok(give_value(alloc, c, p, bytes.len() as u64))
}

// Where a write begins: at the stream's offset, or the file's end where it appends.
fn begins_at(stream: &Stream, old: &[u8]) -> u64
    ensures { result ≡ begins_at stream.now old.now }
{
    if stream.appends {
        old.len() as u64
    } else {
        stream.offset
    }
}

/// `seek fd offset`: the offset. BadFd; Invalid: no file, or over the limit.
pub(crate) fn seek(
    alloc: Global,
    c: &Description,
    world: &mut World,
    p: &mut Process,
    fd: u64,
    offset: u64,
) -> Result<Came, NoMemory>
    requires { p.old.calls < 4294967295 }
    ensures { IfOk result (λ came. Comes c.now (λ u q. seek c.now u q fd offset) world.old p.old came world.new p.new) }
{
    let Some(stream) = stream_of(world, p, fd) else {
        return Ok(refuse(c, p, Errno::BadFd));
    };
    let Object::OfFile(_) = stream.object else {
        return Ok(refuse(c, p, Errno::Invalid));
    };
    if u64::from(world.limit) < offset {
        return Ok(refuse(c, p, Errno::Invalid));
    }
    world.streams.put_offset(&stream, offset);
    Ok(give_value(alloc, c, p, offset))
}

/// `size fd`: how many bytes the file has. BadFd; Invalid: no file.
pub(crate) fn size(
    alloc: Global,
    c: &Description,
    world: &mut World,
    p: &mut Process,
    fd: u64,
) -> Result<Came, NoMemory>
    requires { p.old.calls < 4294967295 }
    ensures { IfOk result (λ came. Comes c.now (λ u q. size c.now u q fd) world.old p.old came world.new p.new) }
{
    let Some(stream) = stream_of(world, p, fd) else {
        return Ok(refuse(c, p, Errno::BadFd));
    };
    let Object::OfFile(name) = stream.object else {
        return Ok(refuse(c, p, Errno::Invalid));
    };
    let count = world.files.bytes_of(name).len() as u64;
    Ok(give_value(alloc, c, p, count))
}

/// `sync fd`: nothing. BadFd; Invalid: no file.
pub(crate) fn sync(
    alloc: Global,
    c: &Description,
    world: &mut World,
    p: &mut Process,
    fd: u64,
) -> Result<Came, NoMemory>
    requires { p.old.calls < 4294967295 }
    ensures { IfOk result (λ came. Comes c.now (λ u q. sync c.now u q fd) world.old p.old came world.new p.new) }
{
    let Some(stream) = stream_of(world, p, fd) else {
        return Ok(refuse(c, p, Errno::BadFd));
    };
    let Object::OfFile(_) = stream.object else {
        return Ok(refuse(c, p, Errno::Invalid));
    };
    Ok(give_value(alloc, c, p, 0))
}
