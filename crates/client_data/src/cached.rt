ghost use Rattle.std.specs.Prelude.{◌≡◌, OnOk};
ghost use Rattle.client_data.specs.Cached.{does_cached, reads_cached, writes_cached, writes_bytes, is_write, missing_of};
ghost use Rattle.client_data.specs.Looks.{uses_cached};

use crate::filling::fill_first;
use crate::finish::end_here;
use client_file_tables::{ClientFiles, DataCall, DataKind, Extent, plain};
use process_machine::Reply;
use sprite_ids::{BlockNo, NoMemory, Pid};
use std::alloc::Global;

// Reads or writes the range in the cache, once all its blocks are held.
pub(crate) fn use_cached(
    files: &mut ClientFiles,
    alloc: Global,
    pid: Pid,
    call: DataCall,
    extent: &Extent,
) -> Result<(), NoMemory>
    ensures { OnOk result (files.new ≡ uses_cached pid call extent.now files.old) }
{
    match missing_of(files, &call, extent) {
        Some(_) => fill_first(files, alloc, pid, call, extent),
        None => do_cached(files, alloc, pid, call, extent),
    }
}

// The first block of the range that isn't held.
pub(crate) fn missing_of(files: &ClientFiles, call: &DataCall, extent: &Extent) -> Option<BlockNo>
    ensures { result ≡ missing_of call.now extent.now files.now }
{
    files.missing(&call.file, extent)
}

// All blocks are held: the operation is a reading or a writing, and takes effect.
pub(crate) fn do_cached(
    files: &mut ClientFiles,
    alloc: Global,
    pid: Pid,
    call: DataCall,
    extent: &Extent,
) -> Result<(), NoMemory>
    ensures { OnOk result (files.new ≡ does_cached pid call extent.now files.old) }
{
    if is_write(&call) {
        write_cached(files, alloc, pid, call, extent)
    } else {
        read_cached(files, alloc, pid, call, extent)
    }
}

fn is_write(call: &DataCall) -> bool
    ensures { result ≡ is_write call.now.kind }
{
    match &call.kind {
        DataKind::Write { .. } => true,
        _ => false,
    }
}

fn read_cached(
    files: &mut ClientFiles,
    alloc: Global,
    pid: Pid,
    call: DataCall,
    extent: &Extent,
) -> Result<(), NoMemory>
    ensures { OnOk result (files.new ≡ reads_cached pid call extent.now files.old) }
{
    let bytes = files.read(alloc, &call.file, extent)?;
    let length = u64::from(extent.length);
    files.move_offset(&call.stream, u64::from(extent.from) + length)?;
    let reply = Reply::Value {
        first: length,
        second: 0,
        bytes,
    };
    end_here(files, alloc, pid, call, reply)
}

fn write_cached(
    files: &mut ClientFiles,
    alloc: Global,
    pid: Pid,
    call: DataCall,
    extent: &Extent,
) -> Result<(), NoMemory>
    ensures { OnOk result (files.new ≡ writes_cached pid call extent.now files.old) }
{
    let length = u64::from(extent.length);
    write_bytes(files, &call, extent.from)?;
    files.mark_dirty(&call.file, extent)?;
    files.move_offset(&call.stream, u64::from(extent.from) + length)?;
    end_here(files, alloc, pid, call, plain(alloc, length))
}

fn write_bytes(files: &mut ClientFiles, call: &DataCall, from: u32) -> Result<(), NoMemory>
    ensures { OnOk result (files.new ≡ writes_bytes call.now from files.old) }
{
    match &call.kind {
        DataKind::Write { bytes } => files.write(&call.file, from, bytes.as_slice()),
        _ => Ok(()),
    }
}
