ghost use Rattle.std.specs.Prelude.{◌≡◌, OnOk};
ghost use Rattle.client_files.specs.DataIssues.{starts_data, issues_read, reads_found, reads_file, issues_write, writes_found, writes_file, issues_seek, seeks_file, issues_size, issues_sync, starts_sync};

use crate::lookup::{OpenFile, Reached, reach, reads, writes};
use client_file_tables::{
    ClientFiles, DataCall, DataKind, DataState, Pending, SyncCall, SyncState,
};
use client_names::refuse_here;
use process_machine::Call;
use sprite_ids::{Bytes, Copying, Errno, Items, NoMemory};
use std::alloc::Global;
use unix_calls::About;

// A read: Invalid where it asks for more bytes than 32 bits can tell; BadFd; BadMode where its stream isn't one of a file that
// may be read.
pub(crate) fn issue_read(
    files: &mut ClientFiles,
    alloc: Global,
    about: &About,
    call: &Call,
    fd: u64,
    length: u64,
) -> Result<(), NoMemory>
    ensures { OnOk result (files.new ≡ issues_read about.now call.now fd length files.old) }
{
    if length > u64::from(u32::MAX) {
        return refuse_here(files, alloc, about, call, Errno::Invalid);
    }
    read_found(files, alloc, about, call, fd, length as u32)
}

fn read_found(
    files: &mut ClientFiles,
    alloc: Global,
    about: &About,
    call: &Call,
    fd: u64,
    length: u32,
) -> Result<(), NoMemory>
    ensures { OnOk result (files.new ≡ reads_found about.now call.now fd length files.old) }
{
    match reach(files, about.pid, fd) {
        Reached::Nothing => refuse_here(files, alloc, about, call, Errno::BadFd),
        Reached::Device => refuse_here(files, alloc, about, call, Errno::BadMode),
        Reached::File(opened) => read_file(files, alloc, about, call, &opened, length),
    }
}

fn read_file(
    files: &mut ClientFiles,
    alloc: Global,
    about: &About,
    call: &Call,
    opened: &OpenFile,
    length: u32,
) -> Result<(), NoMemory>
    ensures { OnOk result (files.new ≡ reads_file about.now call.now opened.now length files.old) }
{
    if !reads(opened.mode) {
        return refuse_here(files, alloc, about, call, Errno::BadMode);
    }
    start_data(files, about, opened, DataKind::Read { length })
}

// A write: BadFd; BadMode where its stream isn't one of a file that may be written.
pub(crate) fn issue_write(
    files: &mut ClientFiles,
    alloc: Global,
    about: &About,
    call: &Call,
    fd: u64,
    bytes: &Bytes,
) -> Result<(), NoMemory>
    ensures { OnOk result (files.new ≡ issues_write about.now call.now fd bytes.now files.old) }
{
    match reach(files, about.pid, fd) {
        Reached::Nothing => refuse_here(files, alloc, about, call, Errno::BadFd),
        Reached::Device => refuse_here(files, alloc, about, call, Errno::BadMode),
        Reached::File(opened) => write_file(files, alloc, about, call, &opened, bytes),
    }
}

fn write_file(
    files: &mut ClientFiles,
    alloc: Global,
    about: &About,
    call: &Call,
    opened: &OpenFile,
    bytes: &Bytes,
) -> Result<(), NoMemory>
    ensures { OnOk result (files.new ≡ writes_file about.now call.now opened.now bytes.now files.old) }
{
    if !writes(opened.mode) {
        return refuse_here(files, alloc, about, call, Errno::BadMode);
    }
    let bytes = bytes.copy(alloc)?;
    start_data(files, about, opened, DataKind::Write { bytes })
}

// A seek: BadFd; Invalid where its stream isn't one of a file, or the offset is past the most bytes that a file may have.
pub(crate) fn issue_seek(
    files: &mut ClientFiles,
    alloc: Global,
    about: &About,
    call: &Call,
    fd: u64,
    offset: u64,
) -> Result<(), NoMemory>
    ensures { OnOk result (files.new ≡ issues_seek about.now call.now fd offset files.old) }
{
    match reach(files, about.pid, fd) {
        Reached::Nothing => refuse_here(files, alloc, about, call, Errno::BadFd),
        Reached::Device => refuse_here(files, alloc, about, call, Errno::Invalid),
        Reached::File(opened) => seek_file(files, alloc, about, call, &opened, offset),
    }
}

fn seek_file(
    files: &mut ClientFiles,
    alloc: Global,
    about: &About,
    call: &Call,
    opened: &OpenFile,
    offset: u64,
) -> Result<(), NoMemory>
    ensures { OnOk result (files.new ≡ seeks_file about.now call.now opened.now offset files.old) }
{
    if offset > u64::from(files.limit) {
        return refuse_here(files, alloc, about, call, Errno::Invalid);
    }
    let offset = offset as u32;
    start_data(files, about, opened, DataKind::Seek { offset })
}

// A size: BadFd; Invalid where its stream isn't one of a file.
pub(crate) fn issue_size(
    files: &mut ClientFiles,
    alloc: Global,
    about: &About,
    call: &Call,
    fd: u64,
) -> Result<(), NoMemory>
    ensures { OnOk result (files.new ≡ issues_size about.now call.now fd files.old) }
{
    match reach(files, about.pid, fd) {
        Reached::Nothing => refuse_here(files, alloc, about, call, Errno::BadFd),
        Reached::Device => refuse_here(files, alloc, about, call, Errno::Invalid),
        Reached::File(opened) => start_data(files, about, &opened, DataKind::Size),
    }
}

// A sync: BadFd; Invalid where its stream isn't one of a file.
pub(crate) fn issue_sync(
    files: &mut ClientFiles,
    alloc: Global,
    about: &About,
    call: &Call,
    fd: u64,
) -> Result<(), NoMemory>
    ensures { OnOk result (files.new ≡ issues_sync about.now call.now fd files.old) }
{
    match reach(files, about.pid, fd) {
        Reached::Nothing => refuse_here(files, alloc, about, call, Errno::BadFd),
        Reached::Device => refuse_here(files, alloc, about, call, Errno::Invalid),
        Reached::File(opened) => start_sync(files, about, &opened),
    }
}

// The operation begins: it waits for the stream's lock first.
fn start_data(
    files: &mut ClientFiles,
    about: &About,
    opened: &OpenFile,
    kind: DataKind,
) -> Result<(), NoMemory>
    ensures { OnOk result (files.new ≡ starts_data about.now opened.now kind files.old) }
{
    let call = DataCall {
        number: about.number,
        fd: opened.fd,
        kind,
        stream: opened.stream,
        file: opened.file,
        state: DataState::WaitLock,
    };
    files.start(about.pid, Pending::Data(call))
}

// The sync of the blocks that are dirty now begins.
fn start_sync(files: &mut ClientFiles, about: &About, opened: &OpenFile) -> Result<(), NoMemory>
    ensures { OnOk result (files.new ≡ starts_sync about.now opened.now files.old) }
{
    let dirty = files.cache.dirty_blocks(opened.file)?;
    let call = SyncCall {
        number: about.number,
        fd: opened.fd,
        file: opened.file,
        todo: Items::of_vec(dirty),
        state: SyncState::Looking,
    };
    files.start(about.pid, Pending::Sync(call))
}
