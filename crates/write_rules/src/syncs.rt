ghost use Rattle.std.specs.Prelude.{◌≡◌, [], None, OnOk, IfOk, filter};
ghost use Rattle.unix_calls.specs.State.{stream_at};
ghost use Rattle.unix_world.specs.Among.{Ascending};
ghost use Rattle.write_rules.specs.Syncs.{KeepsEvent, MakesEntry, PutsMade, due_behind, file_for, is_due_in, is_file_stream, is_of, is_other, mark_in, opened_by, opened_where};

use indexmap::IndexMap;
use process_machine::Call;
use sprite_ids::{FileId, Kernel, NoMemory, Pid};
use std::alloc::Global;
use unix_calls::{Event, Object, Process, Rec, SendKind, Stream};
use unix_world::{Streams, World, find, stream_of};

/// A `sync` whose return is due (this project).
#[derive(Clone, Copy, Debug, PartialEq, Eq)]
pub(crate) struct Pending {
    pub(crate) kernel: Kernel,
    pub(crate) pid: Pid,
    pub(crate) number: u32,
    pub(crate) fd: u64,
}

/// What the records so far tell of streams and of `sync`s: the file that the entry at a place opened, the one that the last record
/// opened, and the calls whose return is due, of which a kernel's process has one at most (this project).
#[derive(Drop)]
pub(crate) struct Syncs {
    pub(crate) made: IndexMap<u32, FileId>,
    pub(crate) opened: Option<FileId>,
    pub(crate) pending: Vec<Pending>,
}

impl Syncs {
    /// Nothing.
    pub(crate) fn new(alloc: Global) -> Syncs
        ensures made { result.made.entries ≡ [] }
        ensures opened { result.opened ≡ None }
        ensures pending { result.pending.items ≡ [] }
    {
        Syncs {
            made: IndexMap::new(alloc),
            opened: None,
            pending: Vec::new(alloc),
        }
    }
}

/// The mark of a record that is no entry, in that state of the one-kernel Unix: of a block that is written back, whether a `sync` of
/// its file is due at the kernel.
pub(crate) fn mark_in(syncs: &Syncs, world: &World, ps: &[Process], rec: &Rec) -> bool
    requires { Ascending ps.now }
    ensures { result ≡ mark_in syncs.now world.now ps.now rec.now.kernel rec.now.event }
{
    match &rec.event {
        Event::Send {
            kind: SendKind::WriteBack { file, .. },
            ..
        } => is_due(syncs, world, ps, rec.kernel, file),
        _ => false,
    }
}

// Whether a `sync` of the file is due at the kernel.
fn is_due(syncs: &Syncs, world: &World, ps: &[Process], kernel: Kernel, file: &FileId) -> bool
    requires { Ascending ps.now }
    ensures { result ≡ is_due_in syncs.now world.now ps.now kernel file.now }
{
    for call in syncs.pending.as_slice() {
        if call.kernel == kernel && is_of(syncs, world, ps, call, file) {
            return true;
        }
    }
    false
}

// Whether the call's descriptor leads to the file.
fn is_of(syncs: &Syncs, world: &World, ps: &[Process], call: &Pending, file: &FileId) -> bool
    requires { Ascending ps.now }
    ensures { result ≡ is_of syncs.now world.now ps.now file.now call.now }
{
    match file_for(syncs, world, ps, call.pid, call.fd) {
        Some(other) => other == *file,
        None => false,
    }
}

// The file that a descriptor of the process leads to.
fn file_for(syncs: &Syncs, world: &World, ps: &[Process], pid: Pid, fd: u64) -> Option<FileId>
    requires { Ascending ps.now }
    ensures { result ≡ file_for syncs.now world.now ps.now pid fd }
{
    let Some(at) = find(ps, pid) else {
        return None;
    };
    match stream_of(world, &ps[at], fd) {
        Some(stream) => syncs.made.get(&stream.place).copied(),
        None => None,
    }
}

/// Keeps what the entry at that place opened, in the state behind it, and tells whether it made a stream of a file. The one error is
/// want of memory.
pub(crate) fn keep_entry(syncs: &mut Syncs, streams: &Streams, place: u32) -> Result<bool, NoMemory>
    ensures made { OnOk result (MakesEntry streams.now place syncs.old syncs.new) }
    ensures mark { IfOk result (λ mark. mark ≡ is_file_stream (stream_at streams.now place)) }
{
    let opens = is_file_stream(streams.at_place(place));
    if let Some(file) = opened_where(opens, syncs.opened) {
        put_made(&mut syncs.made, place, file)?;
    }
    syncs.opened = None;
    Ok(opens)
}

// Whether there is a stream, and it is one of a file.
fn is_file_stream(stream: Option<Stream>) -> bool
    ensures { result ≡ is_file_stream stream }
{
    match stream {
        Some(stream) => match stream.object {
            Object::OfFile(_) => true,
            _ => false,
        },
        None => false,
    }
}

// The file that an entry behind that Opened opens.
fn opened_where(opens: bool, opened: Option<FileId>) -> Option<FileId>
    ensures { result ≡ opened_where opens opened }
{
    if opens { opened } else { None }
}

// Puts it there, unless there is one.
fn put_made(made: &mut IndexMap<u32, FileId>, place: u32, file: FileId) -> Result<(), NoMemory>
    ensures { OnOk result (PutsMade made.old.entries place file made.new.entries) }
{
    if made.get(&place).is_none() {
        made.insert(place, file)?;
    }
    Ok(())
}

/// Keeps what a record that is no entry tells. The one error is want of memory.
pub(crate) fn keep_event(alloc: Global, syncs: &mut Syncs, rec: &Rec) -> Result<(), NoMemory>
    ensures { OnOk result (KeepsEvent rec.now.kernel rec.now.event syncs.old syncs.new) }
{
    keep_pending(alloc, &mut syncs.pending, rec)?;
    syncs.opened = opened_by(&rec.event);
    Ok(())
}

// Keeps the calls whose return is due.
fn keep_pending(alloc: Global, pending: &mut Vec<Pending>, rec: &Rec) -> Result<(), NoMemory>
    ensures { OnOk result (pending.new.items ≡ due_behind rec.now.kernel rec.now.event pending.old.items) }
{
    match &rec.event {
        Event::Issue {
            pid,
            number,
            call: Call::Sync { fd },
        } => {
            pending.push(Pending {
                kernel: rec.kernel,
                pid: *pid,
                number: *number,
                fd: *fd,
            })?;
            Ok(())
        }
        Event::Return { pid, number, .. } => {
            *pending = others(alloc, pending.as_slice(), *pid, *number)?;
            Ok(())
        }
        _ => Ok(()),
    }
}

// The calls but for those of that process with that number.
fn others(
    alloc: Global,
    pending: &[Pending],
    pid: Pid,
    number: u32,
) -> Result<Vec<Pending>, NoMemory>
    ensures { IfOk result (λ kept. kept.items ≡ filter (is_other pid number) pending.now) }
{
    let mut kept = Vec::new(alloc);
    for call in pending {
        if is_other(call, pid, number) {
            kept.push(*call)?;
        }
    }
    Ok(kept)
}

fn is_other(call: &Pending, pid: Pid, number: u32) -> bool
    ensures { result ≡ is_other pid number call.now }
{
    !(pid == call.pid && number == call.number)
}

// The file that an event opens.
fn opened_by(event: &Event) -> Option<FileId>
    ensures { result ≡ opened_by event.now }
{
    match event {
        Event::Opened { file, .. } => Some(*file),
        _ => None,
    }
}
