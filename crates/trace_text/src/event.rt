ghost use Rattle.std.specs.Prelude.{◌≡◌, ◌++◌, OnOk};
ghost use Rattle.field_reader.specs.Reads.{Takes};
ghost use Rattle.history_text.specs.Formats.{row_read};
ghost use Rattle.trace_text.specs.Events.{cache_rows, event_format, event_shape, packet_rows, stream_rows};

use crate::field::{put_four, put_one, put_three, put_two, spaced};
use field_reader::{FieldEnd, Reader};
use link_plan::Fate;
use process_machine::{Call, Reply};
use sprite_ids::{
    BlockNo, CacheMode, CallKind, FileId, Kernel, Mode, NoMemory, Pid, StreamNo, TxNo,
};
use sprite_paths::Path;
use std::alloc::Global;
use unix_calls::{About, DropCause, Entry, Event, SendKind};

/// Puts an event's name and its fields at the end, each but the first behind a space. The one error is want of memory; a part
/// may be there then.
pub(crate) fn put_event(alloc: Global, out: &mut Vec<u8>, event: &Event) -> Result<(), NoMemory>
    ensures { OnOk result (out.new.items ≡ out.old.items ++ (event_shape event.now).printed) }
{
    match event {
        Event::Burst { pid, count } => put_two(alloc, out, b"Burst", pid, count),
        Event::Issue { pid, number, call } => put_three(alloc, out, b"Issue", pid, number, call),
        Event::Enter { entry } => put_one(alloc, out, b"Enter", entry),
        Event::Return { pid, number, reply } => put_three(
            alloc, out, b"Return", pid, number, reply,
        ),
        Event::Send {
            tx,
            to,
            about,
            kind,
        } => put_four(alloc, out, b"Send", tx, to, about, kind),
        Event::Fault { a, b, fate } => put_three(alloc, out, b"Fault", a, b, fate),
        Event::Deliver {
            tx,
            from,
            reply,
            about,
        } => put_four(alloc, out, b"Deliver", tx, from, reply, about),
        Event::Expire { tx, last } => put_two(alloc, out, b"Expire", tx, last),
        Event::Grant {
            file,
            to,
            stamp,
            mode,
        } => put_four(alloc, out, b"Grant", file, to, stamp, mode),
        Event::Callback {
            file,
            to,
            stamp,
            kind,
        } => put_four(alloc, out, b"Callback", file, to, stamp, kind),
        Event::Mode { file, stamp, mode } => put_three(alloc, out, b"Mode", file, stamp, mode),
        Event::Filled { file, block } => put_two(alloc, out, b"Filled", file, block),
        Event::Dropped { file, block, cause } => put_three(
            alloc, out, b"Dropped", file, block, cause,
        ),
        Event::Dirtied { file, block } => put_two(alloc, out, b"Dirtied", file, block),
        Event::WroteBack { file, block } => put_two(alloc, out, b"WroteBack", file, block),
        Event::Opened {
            file,
            stream,
            kernel,
            mode,
        } => put_four(alloc, out, b"Opened", file, stream, kernel, mode),
        Event::Closed {
            file,
            stream,
            kernel,
            mode,
        } => put_four(alloc, out, b"Closed", file, stream, kernel, mode),
        Event::Shared { file, stream } => put_two(alloc, out, b"Shared", file, stream),
        Event::Learned { prefix, server } => put_two(alloc, out, b"Learned", prefix, server),
        Event::Freeze { pid } => put_one(alloc, out, b"Freeze", pid),
        Event::Thaw { pid } => put_one(alloc, out, b"Thaw", pid),
    }
}

/// Reads the event that is printed at the front. NotSpelled comes exactly where none is printed there; some bytes may be read
/// then.
pub(crate) fn read_event(alloc: Global, from: &mut Reader) -> Result<Event, FieldEnd>
    ensures { Takes (event_format.read from.old) result from.new }
{
    let name = from.word();
    if name == b"Burst".as_slice() {
        let (pid, count) = spaced::<(Pid, u32)>(alloc, from)?;
        Ok(Event::Burst { pid, count })
    } else if name == b"Issue".as_slice() {
        let (pid, (number, call)) = spaced::<(Pid, (u32, Call))>(alloc, from)?;
        Ok(Event::Issue { pid, number, call })
    } else if name == b"Enter".as_slice() {
        Ok(Event::Enter {
            entry: spaced::<Entry>(alloc, from)?,
        })
    } else if name == b"Return".as_slice() {
        let (pid, (number, reply)) = spaced::<(Pid, (u32, Reply))>(alloc, from)?;
        Ok(Event::Return { pid, number, reply })
    } else {
        read_packet_event(alloc, name, from)
    }
}

// Reads the fields of the event of that name, of a packet, or of a later kind.
fn read_packet_event(alloc: Global, name: &[u8], from: &mut Reader) -> Result<Event, FieldEnd>
    ensures { Takes (row_read packet_rows name.now from.old) result from.new }
{
    if name == b"Send".as_slice() {
        let (tx, (to, (about, kind))) = spaced::<(TxNo, (Kernel, (Option<About>, SendKind)))>(
            alloc, from,
        )?;
        Ok(Event::Send {
            tx,
            to,
            about,
            kind,
        })
    } else if name == b"Fault".as_slice() {
        let (a, (b, fate)) = spaced::<(Kernel, (Kernel, Fate))>(alloc, from)?;
        Ok(Event::Fault { a, b, fate })
    } else if name == b"Deliver".as_slice() {
        let (tx, (sender, (reply, about))) = spaced::<(TxNo, (Kernel, (bool, Option<About>)))>(
            alloc, from,
        )?;
        Ok(Event::Deliver {
            tx,
            from: sender,
            reply,
            about,
        })
    } else if name == b"Expire".as_slice() {
        let (tx, last) = spaced::<(TxNo, bool)>(alloc, from)?;
        Ok(Event::Expire { tx, last })
    } else {
        read_cache_event(alloc, name, from)
    }
}

// Reads the fields of the event of that name, of a grant, a callback or a block, or of a later kind.
fn read_cache_event(alloc: Global, name: &[u8], from: &mut Reader) -> Result<Event, FieldEnd>
    ensures { Takes (row_read cache_rows name.now from.old) result from.new }
{
    if name == b"Grant".as_slice() {
        let (file, (to, (stamp, mode))) = spaced::<(FileId, (Kernel, (u32, CacheMode)))>(
            alloc, from,
        )?;
        Ok(Event::Grant {
            file,
            to,
            stamp,
            mode,
        })
    } else if name == b"Callback".as_slice() {
        let (file, (to, (stamp, kind))) = spaced::<(FileId, (Kernel, (u32, CallKind)))>(
            alloc, from,
        )?;
        Ok(Event::Callback {
            file,
            to,
            stamp,
            kind,
        })
    } else if name == b"Mode".as_slice() {
        let (file, (stamp, mode)) = spaced::<(FileId, (u32, CacheMode))>(alloc, from)?;
        Ok(Event::Mode { file, stamp, mode })
    } else if name == b"Filled".as_slice() {
        let (file, block) = spaced::<(FileId, BlockNo)>(alloc, from)?;
        Ok(Event::Filled { file, block })
    } else if name == b"Dropped".as_slice() {
        let (file, (block, cause)) = spaced::<(FileId, (BlockNo, DropCause))>(alloc, from)?;
        Ok(Event::Dropped { file, block, cause })
    } else if name == b"Dirtied".as_slice() {
        let (file, block) = spaced::<(FileId, BlockNo)>(alloc, from)?;
        Ok(Event::Dirtied { file, block })
    } else if name == b"WroteBack".as_slice() {
        let (file, block) = spaced::<(FileId, BlockNo)>(alloc, from)?;
        Ok(Event::WroteBack { file, block })
    } else {
        read_stream_event(alloc, name, from)
    }
}

// Reads the fields of the event of that name, of a stream, a prefix or a move.
fn read_stream_event(alloc: Global, name: &[u8], from: &mut Reader) -> Result<Event, FieldEnd>
    ensures { Takes (row_read stream_rows name.now from.old) result from.new }
{
    if name == b"Opened".as_slice() {
        let (file, (stream, (kernel, mode))) = spaced::<(FileId, (StreamNo, (Kernel, Mode)))>(
            alloc, from,
        )?;
        Ok(Event::Opened {
            file,
            stream,
            kernel,
            mode,
        })
    } else if name == b"Closed".as_slice() {
        let (file, (stream, (kernel, mode))) = spaced::<(FileId, (StreamNo, (Kernel, Mode)))>(
            alloc, from,
        )?;
        Ok(Event::Closed {
            file,
            stream,
            kernel,
            mode,
        })
    } else if name == b"Shared".as_slice() {
        let (file, stream) = spaced::<(FileId, StreamNo)>(alloc, from)?;
        Ok(Event::Shared { file, stream })
    } else if name == b"Learned".as_slice() {
        let (prefix, server) = spaced::<(Path, Kernel)>(alloc, from)?;
        Ok(Event::Learned { prefix, server })
    } else if name == b"Freeze".as_slice() {
        Ok(Event::Freeze {
            pid: spaced::<Pid>(alloc, from)?,
        })
    } else if name == b"Thaw".as_slice() {
        Ok(Event::Thaw {
            pid: spaced::<Pid>(alloc, from)?,
        })
    } else {
        Err(FieldEnd::NotSpelled)
    }
}
