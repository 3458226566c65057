use crate::told::{Told, is_told};
use crate::world::{boot, file, go_on, open_all, pid, replied};
use block_cache::Cache;
use client_data::{callback, take_grant, write_back_due};
use client_file_tables::{
    ClientFiles, DataCall, DataKind, DataState, Pending, SyncCall, SyncState,
};
use packet_bodies::{CallbackRequest, Descriptor, ReplyBody, ValueReply};
use sprite_ids::{BlockNo, Bytes, CallKind, Errno, FileId, Grant, Items, NoMemory, StreamNo, TxNo};
use std::alloc::Global;

/// What a process comes to: a read or a write of so many bytes, a seek, a size.
#[derive(Clone, Copy)]
pub(crate) enum Does {
    Read(u32),
    Write(usize),
    Seek(u32),
    Size,
}

/// What a server answers.
#[derive(Clone, Copy)]
pub(crate) enum Says {
    Done,
    Refused(Errno),
    /// A grant of that stamp and size in the place of an answer; the file may be cached, and its version is as it was.
    Again(u32, u32),
    /// That stamp, and so many bytes.
    Block(u32, usize),
    /// Both values, and so many bytes.
    Value(u64, u64, usize),
}

/// What happens.
#[derive(Clone, Copy)]
pub(crate) enum Step {
    /// The process begins this.
    Starts(u32, Does),
    /// The process begins a `sync`.
    Syncs(u32),
    /// A grant of that stamp and size: the file may be cached, or not, or is of a newer version.
    Cached(u32, u32),
    Uncached(u32, u32),
    Newer(u32, u32),
    /// A callback of that stamp.
    Callback(u32, CallKind),
    /// The block is due.
    Due(u16),
    /// An answer: how many remote calls began behind the one that it answers.
    Answer(u32, Says),
}

/// A step; how many remote calls, answers, replies and records it says, how many operations wait behind it, and how many
/// blocks wait to be written back; and what it says last.
pub(crate) type Row = (Step, [usize; 6], Told);

fn bytes(alloc: Global, many: usize) -> Result<Bytes, NoMemory> {
    let mut bytes = Vec::new(alloc);
    bytes.resize(many, 7)?;
    Ok(Bytes::of_vec(bytes))
}

fn kind_of(alloc: Global, does: Does) -> Result<DataKind, NoMemory> {
    match does {
        Does::Read(length) => Ok(DataKind::Read { length }),
        Does::Write(many) => Ok(DataKind::Write {
            bytes: bytes(alloc, many)?,
        }),
        Does::Seek(offset) => Ok(DataKind::Seek { offset }),
        Does::Size => Ok(DataKind::Size),
    }
}

fn data_call(
    alloc: Global,
    file: &FileId,
    stream: StreamNo,
    does: Does,
) -> Result<Pending, NoMemory> {
    let fd = Descriptor::new(0).ok_or(NoMemory)?;
    let kind = kind_of(alloc, does)?;
    Ok(Pending::Data(DataCall {
        number: 1,
        fd,
        kind,
        stream,
        file: *file,
        state: DataState::WaitLock,
    }))
}

fn sync_call(cache: &Cache, file: &FileId) -> Result<Pending, NoMemory> {
    let fd = Descriptor::new(0).ok_or(NoMemory)?;
    let dirty = cache.dirty_blocks(*file)?;
    Ok(Pending::Sync(SyncCall {
        number: 1,
        fd,
        file: *file,
        todo: Items::of_vec(dirty),
        state: SyncState::Looking,
    }))
}

fn grant_of(file: &FileId, stamp: u32, size: u32, on: bool, version: u32) -> Grant {
    Grant {
        file: *file,
        stamp,
        old: version,
        new: version,
        size,
        on,
        holder: false,
    }
}

fn body_of(alloc: Global, file: &FileId, says: Says) -> Result<ReplyBody, NoMemory> {
    match says {
        Says::Done => Ok(ReplyBody::Done),
        Says::Refused(errno) => Ok(ReplyBody::Refused { errno }),
        Says::Again(stamp, size) => Ok(ReplyBody::Again {
            grant: grant_of(file, stamp, size, true, 0),
        }),
        Says::Block(stamp, many) => Ok(ReplyBody::Block {
            stamp,
            bytes: bytes(alloc, many)?,
        }),
        Says::Value(first, second, many) => Ok(ReplyBody::Value(ValueReply {
            first,
            second,
            bytes: bytes(alloc, many)?,
        })),
    }
}

fn happens(
    files: &mut ClientFiles,
    alloc: Global,
    file: &FileId,
    step: Step,
) -> Result<(), NoMemory> {
    match step {
        Step::Starts(birth, does) => {
            let pid = pid(files.kernel, birth)?;
            let stream = files.streams.get(pid, 0).ok_or(NoMemory)?;
            let call = data_call(alloc, file, stream, does)?;
            files.start(pid, call)
        }
        Step::Syncs(birth) => {
            let pid = pid(files.kernel, birth)?;
            let call = sync_call(&files.cache, file)?;
            files.start(pid, call)
        }
        Step::Cached(stamp, size) => take_grant(files, &grant_of(file, stamp, size, true, 0)),
        Step::Uncached(stamp, size) => take_grant(files, &grant_of(file, stamp, size, false, 0)),
        Step::Newer(stamp, size) => take_grant(files, &grant_of(file, stamp, size, true, 1)),
        Step::Callback(stamp, kind) => {
            let request = CallbackRequest {
                file: *file,
                stamp,
                kind,
            };
            callback(files, TxNo(1), &request)
        }
        Step::Due(block) => write_back_due(files, alloc, file, BlockNo(block)),
        Step::Answer(back, says) => {
            let tx = files.out.next.0.saturating_sub(back).saturating_sub(1);
            let body = body_of(alloc, file, says)?;
            let done = replied(files, alloc, TxNo(tx), &body);
            drop(body);
            done
        }
    }
}

// Whether the step says what the row says.
fn is_so(
    files: &mut ClientFiles,
    alloc: Global,
    file: &FileId,
    row: &Row,
) -> Result<bool, NoMemory> {
    let next = files.out.next;
    let step = files.step.saturating_add(1);
    files.begin(alloc, next, step);
    happens(files, alloc, file, row.0)?;
    go_on(files, alloc)?;
    let counts = [
        files.out.sends.len(),
        files.out.answers.len(),
        files.out.replies.len(),
        files.out.events.len(),
        files.pending.len(),
        files.delay.len(),
    ];
    Ok(counts.as_slice() == row.1.as_slice() && is_told(&files.out, row.2))
}

fn are_so(files: &mut ClientFiles, alloc: Global, file: &FileId, rows: &[Row]) -> bool {
    files.begin(alloc, TxNo(1), 0);
    if open_all(files, file).is_err() {
        return false;
    }
    for row in rows {
        if !matches!(is_so(files, alloc, file, row), Ok(true)) {
            return false;
        }
    }
    true
}

/// Whether each step says what its row says, at a kernel of its own.
pub(crate) fn all_say(alloc: Global, rows: &[Row]) -> bool {
    let Ok(file) = file() else {
        return false;
    };
    match boot(alloc) {
        Ok(mut files) => {
            let so = are_so(&mut files, alloc, &file, rows);
            drop(files);
            so
        }
        Err(_) => false,
    }
}
