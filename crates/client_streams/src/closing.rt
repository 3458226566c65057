ghost use Rattle.std.specs.Prelude.{◌≡◌, OnOk, slice_get};
ghost use Rattle.client_streams.specs.Closing.{starts_close, runs_close, closes_next, closes_first, closes_stream, closes_on, ends_closing, close_answers, closed_at_server, without_first};

use crate::close_object::close_object;
use client_file_tables::{ClientFiles, CloseState, CloseWork, ClosingOf, Pending, Report, plain};
use packet_bodies::Descriptor;
use sprite_ids::{Items, NoMemory, Pid, StreamNo};
use std::alloc::Global;
use unix_calls::About;

/// A process came to the `close` of a descriptor that it uses. The one error is want of memory.
pub fn start_close(
    files: &mut ClientFiles,
    alloc: Global,
    about: &About,
    fd: Descriptor,
) -> Result<(), NoMemory>
    ensures { OnOk result (files.new ≡ starts_close about.now fd files.old) }
{
    let mut fds = Items::new(alloc);
    fds.push(fd.number())?;
    let of = ClosingOf::Call {
        number: about.number,
        fd,
    };
    let state = CloseState::WaitLock;
    files.start(about.pid, Pending::Close(CloseWork { of, fds, state }))
}

/// A close goes on with its first descriptor: it waits for the stream's lock, where the stream is a file's, and closes the
/// descriptor. A kernel's last reference to a file's stream is closed at the server too, and the close goes on at the answer.
/// Of a master's stream the last reference is reported (Nelson, Welch and Ousterhout 1988; Welch and Ousterhout 1988). The
/// one error is want of memory, also where no number of a remote call is left.
pub fn run_close(
    files: &mut ClientFiles,
    alloc: Global,
    pid: Pid,
    work: CloseWork,
) -> Result<(), NoMemory>
    ensures { OnOk result (files.new ≡ runs_close pid work files.old) }
{
    match work.state {
        CloseState::WaitLock => close_next(files, alloc, pid, work),
        CloseState::Closing { .. } => files.keep(pid, Pending::Close(work)),
    }
}

/// The server answered a close: the stream's lock is free, and the next descriptor is looked at. The one error is want of
/// memory.
pub fn close_answered(
    files: &mut ClientFiles,
    alloc: Global,
    pid: Pid,
    work: CloseWork,
) -> Result<(), NoMemory>
    ensures { OnOk result (files.new ≡ close_answers pid work files.old) }
{
    match closed_at_server(&work.state) {
        Some(stream) => {
            files.unlock(&stream)?;
            close_on(files, alloc, pid, work)
        }
        None => files.keep(pid, Pending::Close(work)),
    }
}

// The stream that is being closed at the server; None where a close waits for no answer.
fn closed_at_server(state: &CloseState) -> Option<StreamNo>
    ensures { result ≡ closed_at_server state.now }
{
    match state {
        CloseState::WaitLock => None,
        CloseState::Closing { stream, .. } => Some(*stream),
    }
}

fn close_next(
    files: &mut ClientFiles,
    alloc: Global,
    pid: Pid,
    work: CloseWork,
) -> Result<(), NoMemory>
    ensures { OnOk result (files.new ≡ closes_next pid work files.old) }
{
    match first_of(work.fds.as_slice()) {
        Some(fd) => close_first(files, alloc, pid, work, fd),
        None => end_closing(files, alloc, pid, &work.of),
    }
}

fn first_of(fds: &[u8]) -> Option<u8>
    ensures { result ≡ slice_get fds.now 0 }
{
    if fds.is_empty() {
        return None;
    }
    Some(fds[0])
}

fn close_first(
    files: &mut ClientFiles,
    alloc: Global,
    pid: Pid,
    work: CloseWork,
    fd: u8,
) -> Result<(), NoMemory>
    ensures { OnOk result (files.new ≡ closes_first pid work fd files.old) }
{
    match files.streams.get(pid, u64::from(fd)) {
        Some(number) => close_stream(files, alloc, pid, work, fd, &number),
        None => close_on(files, alloc, pid, without_first(work)),
    }
}

fn close_stream(
    files: &mut ClientFiles,
    alloc: Global,
    pid: Pid,
    work: CloseWork,
    fd: u8,
    number: &StreamNo,
) -> Result<(), NoMemory>
    ensures { OnOk result (files.new ≡ closes_stream pid work fd number.now files.old) }
{
    match files.streams.stream(*number) {
        Some(stream) => close_object(files, alloc, pid, work, fd, number, &stream.object),
        None => close_on(files, alloc, pid, without_first(work)),
    }
}

// The work without its first descriptor.
pub(crate) fn without_first(work: CloseWork) -> CloseWork
    ensures { result ≡ without_first work }
{
    let CloseWork { of, mut fds, state } = work;
    if !fds.is_empty() {
        let _first = fds.remove(0);
    }
    CloseWork { of, fds, state }
}

// The close looks at its next descriptor, in this step, or ends.
pub(crate) fn close_on(
    files: &mut ClientFiles,
    alloc: Global,
    pid: Pid,
    work: CloseWork,
) -> Result<(), NoMemory>
    ensures { OnOk result (files.new ≡ closes_on pid work files.old) }
{
    if work.fds.is_empty() {
        return end_closing(files, alloc, pid, &work.of);
    }
    let CloseWork { of, fds, .. } = work;
    let state = CloseState::WaitLock;
    files.start(pid, Pending::Close(CloseWork { of, fds, state }))
}

// All descriptors are closed: the call has its reply, or the process is forgotten.
fn end_closing(
    files: &mut ClientFiles,
    alloc: Global,
    pid: Pid,
    of: &ClosingOf,
) -> Result<(), NoMemory>
    ensures { OnOk result (files.new ≡ ends_closing pid of.now files.old) }
{
    match of {
        ClosingOf::Call { .. } => files.reply(pid, plain(alloc, 0)),
        ClosingOf::End { .. } => {
            let _cwd = files.cwds.take(&pid);
            files.report(Report::AllClosed { pid })
        }
    }
}
