ghost use Rattle.std.specs.Prelude.{◌≡◌, OnOk};
ghost use Rattle.client_streams.specs.Closing.{closes_object, closes_file, closes_locked, closes_device, closes_master, asks_close, enters_closed, closing_about, reports_last};

use crate::closing::{close_on, without_first};
use client_file_tables::{
    ClientFiles, CloseState, CloseWork, ClosingOf, Pending, Report, about, plain, to_one,
};
use packet_bodies::{CloseRequest, Request, Target};
use process_machine::Call;
use sprite_ids::{DeviceId, FileId, NoMemory, Object, Pid, StreamNo, Tries};
use std::alloc::Global;
use unix_calls::{About, SendKind};

// Closes the first descriptor, whose stream leads there.
pub(crate) fn close_object(
    files: &mut ClientFiles,
    alloc: Global,
    pid: Pid,
    work: CloseWork,
    fd: u8,
    number: &StreamNo,
    object: &Object,
) -> Result<(), NoMemory>
    ensures { OnOk result (files.new ≡ closes_object pid work fd number.now object.now files.old) }
{
    match object {
        Object::File(file) => close_file(files, alloc, pid, work, fd, number, file),
        Object::Device(_) => close_device(files, alloc, pid, work, fd),
        Object::Master(device) => close_master(files, alloc, pid, work, fd, device),
    }
}

fn close_file(
    files: &mut ClientFiles,
    alloc: Global,
    pid: Pid,
    work: CloseWork,
    fd: u8,
    number: &StreamNo,
    file: &FileId,
) -> Result<(), NoMemory>
    ensures { OnOk result (files.new ≡ closes_file pid work fd number.now file.now files.old) }
{
    if files.lock(pid, number)? {
        return close_locked(files, alloc, pid, work, fd, number, file);
    }
    files.keep(pid, Pending::Close(work))
}

// Closes a descriptor of a file's stream, whose lock the process has.
fn close_locked(
    files: &mut ClientFiles,
    alloc: Global,
    pid: Pid,
    work: CloseWork,
    fd: u8,
    number: &StreamNo,
    file: &FileId,
) -> Result<(), NoMemory>
    ensures { OnOk result (files.new ≡ closes_locked pid work fd number.now file.now files.old) }
{
    let last = files.streams.close(pid, fd);
    enter_closed(files, alloc, pid, &work.of)?;
    let rest = without_first(work);
    match last {
        Some((_, stream)) => ask_close(files, alloc, pid, rest, number, file, stream.grants),
        None => {
            files.unlock(number)?;
            close_on(files, alloc, pid, rest)
        }
    }
}

// Tells the server that the kernel's last reference is closed.
fn ask_close(
    files: &mut ClientFiles,
    alloc: Global,
    pid: Pid,
    rest: CloseWork,
    number: &StreamNo,
    file: &FileId,
    grants: u32,
) -> Result<(), NoMemory>
    ensures { OnOk result (files.new ≡ asks_close pid rest number.now file.now grants files.old) }
{
    let body = Request::Close(CloseRequest {
        object: Target::File(*file),
        stream: *number,
        grants,
    });
    let about = closing_about(pid, &rest.of);
    let sending = to_one(alloc, file.server, Tries::Always, about, body)?;
    let tx = files.send_for(alloc, pid, sending, SendKind::Other)?;
    let CloseWork { of, fds, .. } = rest;
    let state = CloseState::Closing {
        tx,
        stream: *number,
    };
    files.keep(pid, Pending::Close(CloseWork { of, fds, state }))
}

// A client's end of a pseudo-device: only its descriptors are counted, here.
fn close_device(
    files: &mut ClientFiles,
    alloc: Global,
    pid: Pid,
    work: CloseWork,
    fd: u8,
) -> Result<(), NoMemory>
    ensures { OnOk result (files.new ≡ closes_device pid work fd files.old) }
{
    let _last = files.streams.close(pid, fd);
    enter_closed(files, alloc, pid, &work.of)?;
    close_on(files, alloc, pid, without_first(work))
}

// The master's end of a pseudo-device, which is dead after the last close.
fn close_master(
    files: &mut ClientFiles,
    alloc: Global,
    pid: Pid,
    work: CloseWork,
    fd: u8,
    device: &DeviceId,
) -> Result<(), NoMemory>
    ensures { OnOk result (files.new ≡ closes_master pid work fd device.now files.old) }
{
    let last = files.streams.close(pid, fd).is_some();
    enter_closed(files, alloc, pid, &work.of)?;
    report_last(files, last, device)?;
    close_on(files, alloc, pid, without_first(work))
}

fn report_last(files: &mut ClientFiles, last: bool, device: &DeviceId) -> Result<(), NoMemory>
    ensures { OnOk result (files.new ≡ reports_last last device.now files.old) }
{
    if !last {
        return Ok(());
    }
    files.report(Report::MasterClosed { device: *device })
}

// A `close` takes effect; the end of a process has done so already.
fn enter_closed(
    files: &mut ClientFiles,
    alloc: Global,
    pid: Pid,
    of: &ClosingOf,
) -> Result<(), NoMemory>
    ensures { OnOk result (files.new ≡ enters_closed pid of.now files.old) }
{
    match of {
        ClosingOf::Call { number, fd } => {
            let about = about(pid, *number);
            let call = Call::Close {
                fd: u64::from(fd.number()),
            };
            files.enter(&about, call, plain(alloc, 0))
        }
        ClosingOf::End { .. } => Ok(()),
    }
}

// The call for whose sake requests go.
fn closing_about(pid: Pid, of: &ClosingOf) -> Option<About>
    ensures { result ≡ closing_about pid of.now }
{
    match of {
        ClosingOf::Call { number, .. } => Some(about(pid, *number)),
        ClosingOf::End { about } => *about,
    }
}
