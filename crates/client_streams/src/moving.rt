ghost use Rattle.std.specs.Prelude.{◌≡◌, OnOk, is_some};
ghost use Rattle.client_streams.specs.Moving.{moves_stream, runs_move, moves_on, moves_object, moves_file, moves_locked, moves_device, asks_move, moving_out, move_answers, moved_out, ends_move, shares, place_after, offset_for, grants_for};

use crate::descriptors::drop_each;
use client_file_tables::{ClientFiles, MoveState, MoveWork, Pending, Report, to_one};
use packet_bodies::{MoveRequest, Request, Target};
use sprite_ids::{FileId, Grant, Kernel, NoMemory, Object, Pid, StreamNo, Tries};
use std::alloc::Global;
use stream_table::{Place, Stream};
use unix_calls::{About, SendKind};

/// A stream of a frozen process moves to that kernel, for the sake of that call or of none: one stream at a time (Douglis and
/// Ousterhout 1991). The one error is want of memory.
pub fn move_stream(
    files: &mut ClientFiles,
    pid: Pid,
    stream: &StreamNo,
    to: Kernel,
    about: &Option<About>,
) -> Result<(), NoMemory>
    ensures { OnOk result (files.new ≡ moves_stream pid stream.now to about.now files.old) }
{
    let work = MoveWork {
        about: *about,
        stream: *stream,
        to,
        state: MoveState::WaitLock,
    };
    files.start(pid, Pending::Move(work))
}

/// A move looks whether it has the stream's lock. With it, the frozen process's descriptors of the stream go, and the server
/// is told whether other processes here keep the stream; a pseudo-device's stream is only counted, and has moved at once
/// (Douglis and Ousterhout 1991). The one error is want of memory, also where no number of a remote call is left.
pub fn run_move(
    files: &mut ClientFiles,
    alloc: Global,
    pid: Pid,
    work: MoveWork,
) -> Result<(), NoMemory>
    ensures { OnOk result (files.new ≡ runs_move pid work files.old) }
{
    match work.state {
        MoveState::WaitLock => move_on(files, alloc, pid, work),
        MoveState::MovingOut { .. } => files.keep(pid, Pending::Move(work)),
    }
}

// A stream that isn't open here doesn't move.
fn move_on(files: &mut ClientFiles, alloc: Global, pid: Pid, work: MoveWork) -> Result<(), NoMemory>
    ensures { OnOk result (files.new ≡ moves_on pid work files.old) }
{
    match files.streams.stream(work.stream) {
        Some(stream) => move_object(files, alloc, pid, work, &stream),
        None => Ok(()),
    }
}

fn move_object(
    files: &mut ClientFiles,
    alloc: Global,
    pid: Pid,
    work: MoveWork,
    stream: &Stream,
) -> Result<(), NoMemory>
    ensures { OnOk result (files.new ≡ moves_object pid work stream.now files.old) }
{
    match &stream.object {
        Object::File(file) => move_file(files, alloc, pid, work, stream, file),
        Object::Device(_) => move_device(files, pid, &work.stream, &stream.place),
        Object::Master(_) => move_device(files, pid, &work.stream, &stream.place),
    }
}

// A pseudo-device's stream has moved at once.
fn move_device(
    files: &mut ClientFiles,
    pid: Pid,
    number: &StreamNo,
    place: &Place,
) -> Result<(), NoMemory>
    ensures { OnOk result (files.new ≡ moves_device pid number.now place.now files.old) }
{
    drop_each(files, pid, number);
    files.report(Report::Moved {
        pid,
        place: *place,
        grant: None,
        grants: 1,
    })
}

fn move_file(
    files: &mut ClientFiles,
    alloc: Global,
    pid: Pid,
    work: MoveWork,
    stream: &Stream,
    file: &FileId,
) -> Result<(), NoMemory>
    ensures { OnOk result (files.new ≡ moves_file pid work stream.now file.now files.old) }
{
    if files.lock(pid, &work.stream)? {
        return move_locked(files, alloc, pid, work, stream, file);
    }
    files.keep(pid, Pending::Move(work))
}

// Moves a file's stream, whose lock the process has.
fn move_locked(
    files: &mut ClientFiles,
    alloc: Global,
    pid: Pid,
    work: MoveWork,
    stream: &Stream,
    file: &FileId,
) -> Result<(), NoMemory>
    ensures { OnOk result (files.new ≡ moves_locked pid work stream.now file.now files.old) }
{
    drop_each(files, pid, &work.stream);
    let kept = files.streams.stream(work.stream).is_some();
    ask_move(files, alloc, pid, work, stream, file, kept)
}

// Tells the server that the stream moves.
fn ask_move(
    files: &mut ClientFiles,
    alloc: Global,
    pid: Pid,
    work: MoveWork,
    stream: &Stream,
    file: &FileId,
    kept: bool,
) -> Result<(), NoMemory>
    ensures { OnOk result (files.new ≡ asks_move pid work stream.now file.now kept files.old) }
{
    let body = Request::Move(MoveRequest {
        stream: work.stream,
        object: Target::File(*file),
        to: work.to,
        kept,
        offset: offset_for(kept, &stream.place),
        grants: if kept { 0 } else { stream.grants },
    });
    let sending = to_one(alloc, file.server, Tries::Always, work.about, body)?;
    let tx = files.send_for(alloc, pid, sending, SendKind::Other)?;
    let moving = MoveWork {
        about: work.about,
        stream: work.stream,
        to: work.to,
        state: MoveState::MovingOut {
            tx,
            kept,
            place: stream.place,
        },
    };
    files.keep(pid, Pending::Move(moving))
}

// The offset goes to the server where references stay here and it was kept here.
fn offset_for(kept: bool, place: &Place) -> Option<u32>
    ensures { result ≡ offset_for kept place.now }
{
    match place {
        Place::Local(offset) if kept => Some(*offset),
        _ => None,
    }
}

/// The server answered a move. Where references stay, the stream's offset is the server's from now on, for them and for those
/// that moved; else it goes along, if it was kept here (Douglis and Ousterhout 1991). The one error is want of memory.
pub fn move_answered(
    files: &mut ClientFiles,
    pid: Pid,
    work: MoveWork,
    grant: &Option<Grant>,
    grants: u32,
) -> Result<(), NoMemory>
    ensures { OnOk result (files.new ≡ move_answers pid work grant.now grants files.old) }
{
    match moved_out(&work.state) {
        Some((kept, place)) => end_move(files, pid, &work.stream, kept, &place, grant, grants),
        None => files.keep(pid, Pending::Move(work)),
    }
}

// Whether references stay here, and where the offset was kept; None where a move waits for no answer.
fn moved_out(state: &MoveState) -> Option<(bool, Place)>
    ensures { result ≡ moved_out state.now }
{
    match state {
        MoveState::WaitLock => None,
        MoveState::MovingOut { kept, place, .. } => Some((*kept, *place)),
    }
}

// The stream has moved: its lock is free.
fn end_move(
    files: &mut ClientFiles,
    pid: Pid,
    number: &StreamNo,
    kept: bool,
    place: &Place,
    grant: &Option<Grant>,
    grants: u32,
) -> Result<(), NoMemory>
    ensures { OnOk result (files.new ≡ ends_move pid number.now kept place.now grant.now grants files.old) }
{
    share(files, kept, number);
    files.unlock(number)?;
    files.report(Report::Moved {
        pid,
        place: place_after(kept, place),
        grant: *grant,
        grants,
    })
}

// A stream of which references stay is shared from now on.
fn share(files: &mut ClientFiles, kept: bool, stream: &StreamNo)
    ensures { files.new ≡ shares kept stream.now files.old }
{
    if kept {
        files.move_place(stream, &Place::Shared);
    }
}

// Where the offset of what moved is kept.
fn place_after(kept: bool, place: &Place) -> Place
    ensures { result ≡ place_after kept place.now }
{
    if kept { Place::Shared } else { *place }
}
