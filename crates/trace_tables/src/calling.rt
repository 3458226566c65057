ghost use Rattle.std.specs.Prelude.{◌≡◌, IfOk, Some};
ghost use Rattle.unix_calls.specs.Lawful.{Lawful};
ghost use Rattle.unix_world.specs.Among.{Ascending};
ghost use Rattle.call_journal.specs.Calls.{error_in, path_text, server_of};
ghost use Rattle.call_journal.specs.EntryPlaces.{stays_by};
ghost use Rattle.trace_tables.specs.Callers.{asking_in, caller_in, device_in, device_in_entry, is_master_in, name_server, server_by, server_in_entry};

use crate::caller::Caller;
use crate::known::descriptor_of;
use crate::tied::Tied;
use process_machine::{Call, Reply};
use sprite_ids::{Errno, Kernel, NoMemory, Pid};
use sprite_paths::{Path, PathEnd};
use std::alloc::Global;
use unix_calls::{Description, Entry, Event, Object, Part, Process};
use unix_world::{World, find, free_descriptor, holds_a_master, stream_of};

/// What that state of the one-kernel Unix tells of the process of an event, whose call goes by that file and stream. The one error is want of memory.
pub(crate) fn caller_in(
    alloc: Global,
    c: &Description,
    world: &World,
    ps: &[Process],
    tied: &Option<Tied>,
    event: &Event,
) -> Result<Caller, NoMemory>
    requires lawful { Lawful c.now }
    requires ascends { Ascending ps.now }
    ensures { IfOk result (λ caller. caller ≡ caller_in c.now world.now ps.now tied.now event.now) }
{
    let place = world.entries;
    match event {
        Event::Enter { entry } => {
            let server = server_in_entry(alloc, c, ps, entry)?;
            let device = device_in_entry(world, ps, entry);
            Ok(Caller {
                tied: *tied,
                place,
                server,
                device,
                is_master: false,
            })
        }
        Event::Issue { pid, .. } => {
            let is_master = is_master(world, ps, *pid);
            Ok(Caller {
                tied: *tied,
                place,
                server: None,
                device: None,
                is_master,
            })
        }
        _ => Ok(Caller {
            tied: *tied,
            place,
            server: None,
            device: None,
            is_master: false,
        }),
    }
}

// The server that an entry's call goes to by its first path.
fn server_in_entry(
    alloc: Global,
    c: &Description,
    ps: &[Process],
    entry: &Entry,
) -> Result<Option<Kernel>, NoMemory>
    requires lawful { Lawful c.now }
    requires ascends { Ascending ps.now }
    ensures { IfOk result (λ server. server ≡ server_in_entry c.now ps.now entry.now) }
{
    let Some(call) = &entry.call else {
        return Ok(None);
    };
    match find(ps, entry.pid) {
        Some(at) => name_server(alloc, c, &ps[at], call, &entry.reply),
        None => Ok(None),
    }
}

fn name_server(
    alloc: Global,
    c: &Description,
    p: &Process,
    call: &Call,
    reply: &Option<Reply>,
) -> Result<Option<Kernel>, NoMemory>
    requires lawful { Lawful c.now }
    ensures { IfOk result (λ server. server ≡ name_server c.now p.now call.now reply.now) }
{
    if stays_by(call, p, error_in(reply)) {
        return Ok(None);
    }
    server_by(alloc, c, p, call)
}

// The server of the first path of a call by names.
fn server_by(
    alloc: Global,
    c: &Description,
    p: &Process,
    call: &Call,
) -> Result<Option<Kernel>, NoMemory>
    requires lawful { Lawful c.now }
    ensures { IfOk result (λ server. server ≡ server_by c.now p.now (path_text call.now)) }
{
    match call {
        Call::OpenFile { path, .. }
        | Call::Stat { path }
        | Call::Mkdir { path }
        | Call::Rmdir { path }
        | Call::Unlink { path }
        | Call::Rename { old: path, .. }
        | Call::List { path, .. }
        | Call::Chdir { path }
        | Call::PdMake { path } => server_of_text(alloc, c, p, path.as_slice()),
        _ => Ok(None),
    }
}

fn server_of_text(
    alloc: Global,
    c: &Description,
    p: &Process,
    text: &[u8],
) -> Result<Option<Kernel>, NoMemory>
    requires lawful { Lawful c.now }
    ensures { IfOk result (λ server. server ≡ server_by c.now p.now (Some text.now)) }
{
    match Path::clean(alloc, &p.cwd, text) {
        Ok(path) => Ok(Some(server_of(c, &path))),
        Err(PathEnd::BadName) => Ok(None),
        Err(PathEnd::NoMemory) => Err(NoMemory),
    }
}

// The server of the longest domain of the path.
fn server_of(c: &Description, path: &Path) -> Kernel
    requires { Lawful c.now }
    ensures { result ≡ server_of c.now path.now }
{
    c.server_at(c.domain_of(path))
}

// The error of a reply.
fn error_in(reply: &Option<Reply>) -> Option<Errno>
    ensures { result ≡ error_in reply.now }
{
    match reply {
        Some(Reply::Error(errno)) => Some(*errno),
        _ => None,
    }
}

// Whether a call by names never left the kernel of its process.
fn stays_by(call: &Call, p: &Process, error: Option<Errno>) -> bool
    ensures { result ≡ stays_by call.now (Some p.now) error }
{
    match error {
        Some(Errno::Unreachable | Errno::BadName) => true,
        Some(Errno::Invalid) => matches!(call, Call::OpenFile { .. }),
        Some(Errno::TooMany) => match call {
            Call::OpenFile { .. } | Call::PdMake { .. } => free_descriptor(p).is_none(),
            _ => false,
        },
        _ => false,
    }
}

// The device of an ask and of its answer.
fn device_in_entry(world: &World, ps: &[Process], entry: &Entry) -> Option<u32>
    requires { Ascending ps.now }
    ensures { result ≡ device_in_entry world.now ps.now entry.now }
{
    let Some(call) = &entry.call else {
        return None;
    };
    match entry.part {
        Part::Ask => device_in(world, ps, entry.pid, call),
        Part::Done => asking_in(ps, entry.pid),
        _ => None,
    }
}

fn device_in(world: &World, ps: &[Process], pid: Pid, call: &Call) -> Option<u32>
    requires { Ascending ps.now }
    ensures { result ≡ device_in world.now ps.now pid call.now }
{
    let fd = descriptor_of(call)?;
    let at = find(ps, pid)?;
    match stream_of(world, &ps[at], fd) {
        Some(stream) => match stream.object {
            Object::OfDevice(place) => Some(place),
            _ => None,
        },
        None => None,
    }
}

fn asking_in(ps: &[Process], pid: Pid) -> Option<u32>
    requires { Ascending ps.now }
    ensures { result ≡ asking_in ps.now pid }
{
    match find(ps, pid) {
        Some(at) => ps[at].asking,
        None => None,
    }
}

fn is_master(world: &World, ps: &[Process], pid: Pid) -> bool
    requires { Ascending ps.now }
    ensures { result ≡ is_master_in world.now ps.now pid }
{
    match find(ps, pid) {
        Some(at) => holds_a_master(world, &ps[at]),
        None => false,
    }
}
