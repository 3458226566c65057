ghost use Rattle.std.specs.Prelude.{◌≡◌, length};
ghost use Rattle.client_data.specs.Plans.{plan_of, plan_here, plan_size, plan_read, plan_write, plan_append};

use client_file_tables::{ClientFiles, DataCall, DataKind, Extent};
use sprite_ids::FileId;
use stream_table::{Place, Stream};

/// What an operation is to do, as things are.
#[derive(Clone, Copy, Debug, PartialEq, Eq)]
pub enum Plan {
    /// Move the stream's offset there.
    Seek { to: u32 },
    /// Be refused: it would pass the limit of a file's size.
    Refuse,
    /// Ask the server, with the stream's offset where it is kept here.
    Ask { offset: Option<u32> },
    /// Tell the file's size.
    Tell { size: u32 },
    /// Read or write that range in the cache.
    Use { extent: Extent },
}

// What the operation is to do. It is done at the server where the stream's offset is kept there, or where the file isn't
// cached; a seek of an offset that is kept here is done here all the same.
pub(crate) fn plan_of(files: &ClientFiles, call: &DataCall, stream: &Stream) -> Plan
    ensures { result ≡ plan_of call.now stream.now files.now }
{
    match stream.place {
        Place::Local(offset) => plan_here(files, call, offset, stream.append),
        Place::Shared => Plan::Ask { offset: None },
    }
}

fn plan_here(files: &ClientFiles, call: &DataCall, offset: u32, append: bool) -> Plan
    ensures { result ≡ plan_here call.now.kind call.now.file offset append files.now }
{
    match &call.kind {
        DataKind::Seek { offset: to } => Plan::Seek { to: *to },
        DataKind::Size => plan_size(files, &call.file, offset),
        DataKind::Read { length } => plan_read(files, &call.file, offset, *length),
        DataKind::Write { bytes } => {
            if append {
                plan_append(files, &call.file, offset, bytes.as_slice())
            } else {
                plan_write(files, &call.file, offset, bytes.as_slice())
            }
        }
    }
}

fn plan_size(files: &ClientFiles, file: &FileId, offset: u32) -> Plan
    ensures { result ≡ plan_size file.now offset files.now }
{
    if !files.cache.cached(*file) {
        return Plan::Ask {
            offset: Some(offset),
        };
    }
    Plan::Tell {
        size: files.known(file).size,
    }
}

// A read gives the bytes up to the file's end, at most as many as it asks for.
fn plan_read(files: &ClientFiles, file: &FileId, offset: u32, length: u32) -> Plan
    ensures { result ≡ plan_read file.now offset length files.now }
{
    if !files.cache.cached(*file) {
        return Plan::Ask {
            offset: Some(offset),
        };
    }
    let left = files.known(file).size.saturating_sub(offset);
    Plan::Use {
        extent: Extent {
            from: offset,
            length: length.min(left),
        },
    }
}

// A write at the stream's offset is refused here in either case.
fn plan_write(files: &ClientFiles, file: &FileId, offset: u32, bytes: &[u8]) -> Plan
    ensures { result ≡ plan_write file.now offset (length bytes.now) files.now }
{
    let end = u64::from(offset) + bytes.len() as u64;
    if end > u64::from(limit_of(files)) {
        return Plan::Refuse;
    }
    if !files.cache.cached(*file) {
        return Plan::Ask {
            offset: Some(offset),
        };
    }
    Plan::Use {
        extent: Extent {
            from: offset,
            length: bytes.len() as u32,
        },
    }
}

// A write at the file's end: where the file isn't cached, the server knows where that is.
fn plan_append(files: &ClientFiles, file: &FileId, offset: u32, bytes: &[u8]) -> Plan
    ensures { result ≡ plan_append file.now offset (length bytes.now) files.now }
{
    if !files.cache.cached(*file) {
        return Plan::Ask {
            offset: Some(offset),
        };
    }
    let from = files.known(file).size;
    let end = u64::from(from) + bytes.len() as u64;
    if end > u64::from(limit_of(files)) {
        return Plan::Refuse;
    }
    Plan::Use {
        extent: Extent {
            from,
            length: bytes.len() as u32,
        },
    }
}

// The most bytes that a file may have.
fn limit_of(files: &ClientFiles) -> u32
    ensures { result ≡ files.now.limit }
{
    files.limit
}
