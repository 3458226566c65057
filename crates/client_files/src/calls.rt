ghost use Rattle.std.specs.Prelude.{◌≡◌, OnOk};
ghost use Rattle.client_files.specs.CallIssues.{issues, issues_close, dups};

use crate::data_issues::{issue_read, issue_seek, issue_size, issue_sync, issue_write};
use client_file_tables::{ClientFiles, plain};
use client_names::{issue_name, refuse_here};
use client_streams::{descriptor_of, start_close};
use process_machine::Call;
use sprite_ids::{Copying, DeviceId, Errno, NoMemory};
use std::alloc::Global;
use stream_table::StreamEnd;
use unix_calls::About;

/// A process came to a call of this side of the kernel: a name call, or a `close`, `dup`, `read`, `write`, `seek`, `size` or
/// `sync`. What is refused before any server is asked is entered and answered here, each call's refusals in their order; what
/// isn't goes on in `go_on` or waits for an answer (this project).
///
/// `device` is the pseudo-device that a `pd_make` makes. Reads and writes of pseudo-devices go another way; here they are
/// refused as BadMode. Any other call does nothing. The one error is want of memory, also where a counter of 32 bits has come
/// to its limit.
pub fn issue(
    files: &mut ClientFiles,
    alloc: Global,
    about: &About,
    call: &Call,
    device: &Option<DeviceId>,
) -> Result<(), NoMemory>
    ensures { OnOk result (files.new ≡ issues about.now call.now device.now files.old) }
{
    match call {
        Call::Close { fd } => issue_close(files, alloc, about, call, *fd),
        Call::Dup { fd } => dup(files, alloc, about, call, *fd),
        Call::Read { fd, length } => issue_read(files, alloc, about, call, *fd, *length),
        Call::Write { fd, bytes } => issue_write(files, alloc, about, call, *fd, bytes),
        Call::Seek { fd, offset } => issue_seek(files, alloc, about, call, *fd, *offset),
        Call::Size { fd } => issue_size(files, alloc, about, call, *fd),
        Call::Sync { fd } => issue_sync(files, alloc, about, call, *fd),
        _ => issue_name(files, alloc, about, call, device),
    }
}

// A `close`: BadFd, or it begins.
fn issue_close(
    files: &mut ClientFiles,
    alloc: Global,
    about: &About,
    call: &Call,
    fd: u64,
) -> Result<(), NoMemory>
    ensures { OnOk result (files.new ≡ issues_close about.now call.now fd files.old) }
{
    match descriptor_of(files, about.pid, fd) {
        Some(named) => start_close(files, alloc, about, named.fd),
        None => refuse_here(files, alloc, about, call, Errno::BadFd),
    }
}

// A `dup`, which is done at once: BadFd, TooMany, or the new descriptor.
fn dup(
    files: &mut ClientFiles,
    alloc: Global,
    about: &About,
    call: &Call,
    fd: u64,
) -> Result<(), NoMemory>
    ensures { OnOk result (files.new ≡ dups about.now call.now fd files.old) }
{
    match files.streams.dup(about.pid, fd) {
        Ok(made) => {
            let entered = call.copy(alloc)?;
            files.answer_here(alloc, about, entered, plain(alloc, u64::from(made)))
        }
        Err(StreamEnd::BadFd) => refuse_here(files, alloc, about, call, Errno::BadFd),
        Err(StreamEnd::TooMany) => refuse_here(files, alloc, about, call, Errno::TooMany),
        Err(StreamEnd::NoMemory) => Err(NoMemory),
    }
}
