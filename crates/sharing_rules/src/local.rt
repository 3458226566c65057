ghost use Rattle.std.specs.Prelude.{◌≡◌};
ghost use Rattle.unix_calls.specs.declared.event.Event.TheVariants.{Enter};
ghost use Rattle.unix_calls.specs.State.{process_at};
ghost use Rattle.unix_calls.specs.StreamCalls.{begins_at};
ghost use Rattle.unix_world.specs.Among.{Ascending};
ghost use Rattle.unix_world.specs.Worlds.{bare};
ghost use Rattle.call_journal.specs.Calls.{truncates_with};
ghost use Rattle.call_journal.specs.CachedCalls.{bytes_in, read_range, use_of, write_range};
ghost use Rattle.trace_tables.specs.Known.{stream_for};
ghost use Rattle.sharing_rules.specs.Facts.{is_file_made, is_local_in, local_in, span_by, truncates_in, used_in};

use crate::entry_facts::LocalUse;
use indexmap::IndexMap;
use process_machine::{Call, Reply};
use sprite_ids::{Kernel, Pid};
use trace_places::{Place, is_kernel_of};
use trace_tables::Tied;
use unix_calls::{Entry, Event, Object, Part, Process, Rec, Stream};
use unix_world::{Streams, World, find, stream_of};

/// The bytes that the entry of a record uses at its process's own kernel, in that state of the one-kernel Unix; its call goes by
/// that file and stream.
pub(crate) fn local_use(
    places: &IndexMap<u64, Place>,
    world: &World,
    ps: &[Process],
    rec: &Rec,
    tied: &Option<Tied>,
) -> Option<LocalUse>
    requires { Ascending ps.now }
    ensures { result ≡ local_in places.now.entries world.now ps.now rec.now.kernel rec.now.event tied.now }
{
    match &rec.event {
        Event::Enter { entry } => {
            if is_local(places, rec.kernel, entry) {
                used(world, ps, entry, tied)
            } else {
                None
            }
        }
        _ => None,
    }
}

// Whether it is a whole call that enters at its process's kernel.
fn is_local(places: &IndexMap<u64, Place>, kernel: Kernel, entry: &Entry) -> bool
    ensures { result ≡ is_local_in places.now.entries kernel entry.now }
{
    match entry.part {
        Part::Whole => is_kernel_of(places, entry.pid, kernel),
        _ => false,
    }
}

// The bytes that an entry with a value uses.
fn used(world: &World, ps: &[Process], entry: &Entry, tied: &Option<Tied>) -> Option<LocalUse>
    requires { Ascending ps.now }
    ensures { result ≡ used_in world.now ps.now entry.now.pid tied.now (use_of (Some (bare world.now)) entry.now.call entry.now.reply) }
{
    match &entry.call {
        Some(Call::Read { fd, .. }) => match &entry.reply {
            Some(Reply::Value { first, .. }) => read_use(world, ps, entry.pid, *fd, *first, tied),
            _ => None,
        },
        Some(Call::Write { fd, bytes }) => match &entry.reply {
            Some(Reply::Value { .. }) => {
                write_use(world, ps, entry.pid, *fd, bytes.as_slice(), tied)
            }
            _ => None,
        },
        Some(Call::Size { fd }) => match &entry.reply {
            Some(Reply::Value { .. }) => read_use(world, ps, entry.pid, *fd, 0, tied),
            _ => None,
        },
        _ => None,
    }
}

// So many bytes from the stream's offset on.
fn read_use(
    world: &World,
    ps: &[Process],
    pid: Pid,
    fd: u64,
    length: u64,
    tied: &Option<Tied>,
) -> Option<LocalUse>
    requires { Ascending ps.now }
    ensures { result ≡ span_by (λ s. read_range s length) tied.now (stream_for world.now (process_at ps.now pid) fd) }
{
    let Some(tied) = tied else {
        return None;
    };
    match stream_for(world, ps, pid, fd) {
        Some(stream) => Some(LocalUse {
            file: tied.file,
            from: stream.offset,
            length,
        }),
        None => None,
    }
}

// The bytes that a write puts there.
fn write_use(
    world: &World,
    ps: &[Process],
    pid: Pid,
    fd: u64,
    bytes: &[u8],
    tied: &Option<Tied>,
) -> Option<LocalUse>
    requires { Ascending ps.now }
    ensures { result ≡ span_by (λ s. write_range (Some (bare world.now)) s bytes.now) tied.now (stream_for world.now (process_at ps.now pid) fd) }
{
    let Some(tied) = tied else {
        return None;
    };
    match stream_for(world, ps, pid, fd) {
        Some(stream) => Some(LocalUse {
            file: tied.file,
            from: begins_at(&stream, bytes_in(world, &stream.object)),
            length: bytes.len() as u64,
        }),
        None => None,
    }
}

// The stream behind a descriptor of a process.
fn stream_for(world: &World, ps: &[Process], pid: Pid, fd: u64) -> Option<Stream>
    requires { Ascending ps.now }
    ensures { result ≡ stream_for world.now (process_at ps.now pid) fd }
{
    match find(ps, pid) {
        Some(at) => stream_of(world, &ps[at], fd),
        None => None,
    }
}

// The bytes of a stream's file.
fn bytes_in<'a>(world: &'a World, object: &Object) -> &'a [u8]
    ensures { result.now ≡ bytes_in (Some (bare world.now)) object.now }
{
    match object {
        Object::OfFile(name) => world.files.bytes_of(*name),
        _ => &[],
    }
}

// Where a write begins: at the stream's offset, or at the file's end where it appends.
fn begins_at(stream: &Stream, old: &[u8]) -> u64
    ensures { result ≡ begins_at stream.now old.now }
{
    if stream.appends {
        old.len() as u64
    } else {
        stream.offset
    }
}

/// Whether an entry, made at that place, opens a file and truncates it, with these streams behind it.
pub(crate) fn truncates(entry: &Entry, streams: &Streams, place: u32) -> bool
    ensures { result ≡ truncates_in (Enter entry.now) streams.now place }
{
    truncates_with(entry) && is_file_made(streams.at_place(place))
}

// An open with a value that truncates.
fn truncates_with(entry: &Entry) -> bool
    ensures { result ≡ truncates_with entry.now.call entry.now.reply }
{
    match &entry.call {
        Some(Call::OpenFile { flags, .. }) => match &entry.reply {
            Some(Reply::Value { .. }) => (*flags / 8) % 2 == 1,
            _ => false,
        },
        _ => false,
    }
}

fn is_file_made(stream: Option<Stream>) -> bool
    ensures { result ≡ is_file_made stream }
{
    match stream {
        Some(stream) => match stream.object {
            Object::OfFile(_) => true,
            _ => false,
        },
        None => false,
    }
}
