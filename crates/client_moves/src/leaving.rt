ghost use Rattle.std.specs.Prelude.{◌≡◌, OnOk};
ghost use Rattle.client_moves.specs.Leaving.{begins_move, has_moved, is_page_out, keeps_leaving, leaves_by, leaves_on, moved_step, moves_next, notes_move, puts_page_of, sends_when_put};
ghost use Rattle.std.specs.List.{list_any};

use client_file_tables::{MoveState, MoveWork, Pending};
use client_homes::{ClientProcs, Leaving, Unfinished};
use migrate_freeze::{MoveStep, Moving, Sent};
use sprite_ids::{Grant, NoMemory, Pid, TxNo};
use std::alloc::Global;
use stream_table::Place;
use unix_calls::About;

// The process is on its way from here, that far.
pub(crate) fn keep_leaving(
    client: &mut ClientProcs,
    pid: Pid,
    step: MoveStep,
    about: &Option<About>,
) -> Result<(), NoMemory>
    ensures { OnOk result (client.new ≡ keeps_leaving pid step about.now client.old) }
{
    let leaving = Leaving {
        step,
        about: *about,
    };
    client.leaving.push(pid, leaving)
}

/// What comes next for a process that is frozen here: its next stream moves; or, when all have moved and its pages are put, it is
/// sent (Douglis and Ousterhout 1991). The one error is want of memory, which is also the answer where no number is left for a
/// remote call.
///
/// Of places: the process that is sent is in the request, with all that belongs to it, and isn't here any more.
pub fn leave_on(client: &mut ClientProcs, alloc: Global, pid: Pid) -> Result<(), NoMemory>
    ensures { OnOk result (client.new ≡ leaves_on pid client.old) }
{
    match client.leaving.take(&pid) {
        Some(leaving) => leave_by(client, alloc, pid, leaving),
        None => Ok(()),
    }
}

fn leave_by(
    client: &mut ClientProcs,
    alloc: Global,
    pid: Pid,
    leaving: Leaving,
) -> Result<(), NoMemory>
    ensures { OnOk result (client.new ≡ leaves_by pid leaving client.old) }
{
    let Leaving { step, about } = leaving;
    match step {
        MoveStep::Moving(moving) => move_next(client, pid, moving, &about),
        MoveStep::Sent(sent) => send_when_put(client, alloc, pid, sent, &about),
    }
}

// The stream moves, unless it does already.
fn move_next(
    client: &mut ClientProcs,
    pid: Pid,
    moving: Moving,
    about: &Option<About>,
) -> Result<(), NoMemory>
    ensures { OnOk result (client.new ≡ moves_next pid moving about.now client.old) }
{
    if !client.files.pending.has(&pid) {
        begin_move(client, pid, &moving, about)?;
    }
    keep_leaving(client, pid, MoveStep::Moving(moving), about)
}

fn begin_move(
    client: &mut ClientProcs,
    pid: Pid,
    moving: &Moving,
    about: &Option<About>,
) -> Result<(), NoMemory>
    ensures { OnOk result (client.new ≡ begins_move pid moving.now about.now client.old) }
{
    let (stream, _) = moving.stream();
    let work = MoveWork {
        about: *about,
        stream,
        to: moving.to(),
        state: MoveState::WaitLock,
    };
    client.files.start(pid, Pending::Move(work))
}

fn send_when_put(
    client: &mut ClientProcs,
    alloc: Global,
    pid: Pid,
    sent: Sent,
    about: &Option<About>,
) -> Result<(), NoMemory>
    ensures { OnOk result (client.new ≡ sends_when_put pid sent about.now client.old) }
{
    if has_pages_out(client.unfinished.rows(), pid) {
        return keep_leaving(client, pid, MoveStep::Sent(sent), about);
    }
    let body = sent.body(alloc)?;
    let tx = client.send(alloc, sent.to(), about, body)?;
    client.keep_tx(tx, Unfinished::Transfer(sent.done()))
}

// Whether a page of the process isn't put yet.
fn has_pages_out(rows: &[(TxNo, Unfinished)], pid: Pid) -> bool
    ensures { result ≡ list_any (is_page_out pid) rows.now }
{
    rows.iter().any(|row| is_page_out(&row.1, pid))
}

fn is_page_out(call: &Unfinished, pid: Pid) -> bool
    ensures { result ≡ puts_page_of pid call.now }
{
    match call {
        Unfinished::PageOut(other) => *other == pid,
        _ => false,
    }
}

/// The stream of the frozen process that was to move has done so: its offset is there from now on, and these grants go with it.
/// The one error is want of memory, which is also the answer where no number is left for a remote call.
///
/// Of places: the stream's offset goes with the process where it is kept by its kernel; and what `leave_on` says.
pub fn stream_moved(
    client: &mut ClientProcs,
    alloc: Global,
    pid: Pid,
    place: Place,
    grant: Option<Grant>,
    grants: u32,
) -> Result<(), NoMemory>
    ensures { OnOk result (client.new ≡ has_moved pid place grant grants client.old) }
{
    match client.leaving.take(&pid) {
        Some(leaving) => note_move(client, pid, leaving, place, grant, grants)?,
        None => {}
    }
    leave_on(client, alloc, pid)
}

fn note_move(
    client: &mut ClientProcs,
    pid: Pid,
    leaving: Leaving,
    place: Place,
    grant: Option<Grant>,
    grants: u32,
) -> Result<(), NoMemory>
    ensures { OnOk result (client.new ≡ notes_move pid leaving place grant grants client.old) }
{
    let Leaving { step, about } = leaving;
    keep_leaving(client, pid, moved_step(step, place, grant, grants), &about)
}

fn moved_step(step: MoveStep, place: Place, grant: Option<Grant>, grants: u32) -> MoveStep
    ensures { result ≡ moved_step place grant grants step }
{
    match step {
        MoveStep::Moving(moving) => moving.moved(place, grant, grants).next(),
        MoveStep::Sent(sent) => MoveStep::Sent(sent),
    }
}
