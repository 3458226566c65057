ghost use Rattle.std.specs.Prelude.{◌≡◌, [], None, OnOk};
ghost use Rattle.std.specs.Option.{option_and_then};
ghost use Rattle.call_journal.specs.Calls.{descriptor_of};
ghost use Rattle.unix_world.specs.Among.{Ascending};
ghost use Rattle.trace_tables.specs.Known.{Asks, Makes, PutsAsked, PutsMade, asked_tied, entry_tied, file_tie, opened_by, tied_for, tied_in};

use crate::call_at::CallAt;
use crate::tied::Tied;
use indexmap::IndexMap;
use process_machine::Call;
use sprite_ids::{NoMemory, Pid};
use std::alloc::Global;
use unix_calls::{About, Entry, Event, Object, Process, Stream};
use unix_world::{Streams, World, find, stream_of};

/// What the records so far tell of streams: the file and the stream that the entry at a place opened, the descriptor of each call
/// that was issued, and what the last record opened (this project).
#[derive(Drop)]
pub(crate) struct Known {
    pub(crate) made: IndexMap<u32, Tied>,
    pub(crate) asked: IndexMap<CallAt, Option<u64>>,
    pub(crate) opened: Option<Tied>,
}

impl Known {
    /// Nothing.
    pub(crate) fn new(alloc: Global) -> Known
        ensures made { result.made.entries ≡ [] }
        ensures asked { result.asked.entries ≡ [] }
        ensures opened { result.opened ≡ None }
    {
        Known {
            made: IndexMap::new(alloc),
            asked: IndexMap::new(alloc),
            opened: None,
        }
    }
}

/// The file and the stream that the call of an event goes by, in that state of the one-kernel Unix.
pub(crate) fn tied_in(known: &Known, world: &World, ps: &[Process], event: &Event) -> Option<Tied>
    requires { Ascending ps.now }
    ensures { result ≡ tied_in known.now world.now ps.now event.now }
{
    match event {
        Event::Enter { entry } => entry_tied(known, world, ps, entry),
        Event::Send { about, .. } => asked_tied(known, world, ps, about),
        _ => None,
    }
}

// Those of an entry's call.
fn entry_tied(known: &Known, world: &World, ps: &[Process], entry: &Entry) -> Option<Tied>
    requires { Ascending ps.now }
    ensures { result ≡ entry_tied known.now world.now ps.now entry.now }
{
    match &entry.call {
        Some(call) => tied_by_descriptor(known, world, ps, entry.pid, descriptor_of(call)),
        None => None,
    }
}

// Those of the call for whose sake a packet goes.
fn asked_tied(known: &Known, world: &World, ps: &[Process], about: &Option<About>) -> Option<Tied>
    requires { Ascending ps.now }
    ensures { result ≡ asked_tied known.now world.now ps.now about.now }
{
    let Some(about) = about else {
        return None;
    };
    let asked = CallAt {
        pid: about.pid,
        number: about.number,
    };
    match known.asked.get(&asked) {
        Some(fd) => tied_by_descriptor(known, world, ps, about.pid, *fd),
        None => None,
    }
}

fn tied_by_descriptor(
    known: &Known,
    world: &World,
    ps: &[Process],
    pid: Pid,
    fd: Option<u64>,
) -> Option<Tied>
    requires { Ascending ps.now }
    ensures { result ≡ option_and_then (tied_for known.now world.now ps.now pid) fd }
{
    match fd {
        Some(fd) => tied_for(known, world, ps, pid, fd),
        None => None,
    }
}

// What a descriptor of the process leads to.
fn tied_for(known: &Known, world: &World, ps: &[Process], pid: Pid, fd: u64) -> Option<Tied>
    requires { Ascending ps.now }
    ensures { result ≡ tied_for known.now world.now ps.now pid fd }
{
    let Some(at) = find(ps, pid) else {
        return None;
    };
    match stream_of(world, &ps[at], fd) {
        Some(stream) => known.made.get(&stream.place).copied(),
        None => None,
    }
}

/// The descriptor of a call that goes by one.
pub(crate) fn descriptor_of(call: &Call) -> Option<u64>
    ensures { result ≡ descriptor_of call.now }
{
    match call {
        Call::Close { fd }
        | Call::Dup { fd }
        | Call::Read { fd, .. }
        | Call::Write { fd, .. }
        | Call::Seek { fd, .. }
        | Call::Size { fd }
        | Call::Sync { fd }
        | Call::Ioctl { fd, .. }
        | Call::PdGet { fd, .. }
        | Call::PdPut { fd, .. } => Some(*fd),
        _ => None,
    }
}

/// Keeps what the entry at that place opened, in the state behind it. The one error is want of memory.
pub(crate) fn keep_entry(known: &mut Known, streams: &Streams, place: u32) -> Result<(), NoMemory>
    ensures { OnOk result (Makes streams.now place known.old known.new) }
{
    if let Some(tied) = file_tie(streams.at_place(place), known.opened) {
        put_made(&mut known.made, place, tied)?;
    }
    known.opened = None;
    Ok(())
}

// What a stream of a file is, which was made directly behind that Opened.
fn file_tie(stream: Option<Stream>, opened: Option<Tied>) -> Option<Tied>
    ensures { result ≡ file_tie stream opened }
{
    match stream {
        Some(stream) => match stream.object {
            Object::OfFile(_) => opened,
            _ => None,
        },
        None => None,
    }
}

// Puts it there, unless there is one.
fn put_made(made: &mut IndexMap<u32, Tied>, place: u32, tied: Tied) -> Result<(), NoMemory>
    ensures { OnOk result (PutsMade made.old.entries place tied made.new.entries) }
{
    if made.get(&place).is_none() {
        made.insert(place, tied)?;
    }
    Ok(())
}

/// Keeps what an event tells of calls and opens. The one error is want of memory.
pub(crate) fn keep_event(known: &mut Known, event: &Event) -> Result<(), NoMemory>
    ensures { OnOk result (Asks event.now known.old known.new) }
{
    if let Event::Issue { pid, number, call } = event {
        let asked = CallAt {
            pid: *pid,
            number: *number,
        };
        put_asked(&mut known.asked, asked, descriptor_of(call))?;
    }
    known.opened = opened_by(event);
    Ok(())
}

// Puts it there, unless there is one.
fn put_asked(
    asked: &mut IndexMap<CallAt, Option<u64>>,
    at: CallAt,
    fd: Option<u64>,
) -> Result<(), NoMemory>
    ensures { OnOk result (PutsAsked asked.old.entries at fd asked.new.entries) }
{
    if asked.get(&at).is_none() {
        asked.insert(at, fd)?;
    }
    Ok(())
}

// What an event opens.
fn opened_by(event: &Event) -> Option<Tied>
    ensures { result ≡ opened_by event.now }
{
    match event {
        Event::Opened { file, stream, .. } => Some(Tied {
            file: *file,
            stream: *stream,
        }),
        _ => None,
    }
}
