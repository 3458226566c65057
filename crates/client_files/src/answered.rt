ghost use Rattle.std.specs.Prelude.{◌≡◌, OnOk};
ghost use Rattle.client_files.specs.Answered.{answered, answered_for, answers_move};

use crate::asked::answer_name;
use client_data::{data_replied, write_back_answered};
use client_file_tables::{ClientFiles, MoveWork, Pending};
use client_names::takes_end;
use client_streams::{close_answered, move_answered};
use packet_bodies::ReplyBody;
use sprite_ids::{Kernel, NoMemory, Pid, TxNo};
use std::alloc::Global;

/// A remote call of this side of the kernel was answered by that kernel: the operation that waits for it goes on or ends. An
/// answer to no call of this side does nothing, nor does one to another call than that for which a name call waits. The one
/// error is want of memory, also where a counter of 32 bits has come to its limit.
pub fn replied(
    files: &mut ClientFiles,
    alloc: Global,
    tx: TxNo,
    from: Kernel,
    body: &ReplyBody,
) -> Result<(), NoMemory>
    ensures { OnOk result (files.new ≡ answered tx from body.now files.old) }
{
    if files.write_backs.has(&tx) {
        return write_back_answered(files, alloc, tx, body);
    }
    match files.txs.take(&tx) {
        Some(pid) => answer_for(files, alloc, tx, pid, from, body),
        None => Ok(()),
    }
}

// The answer is for the process's operation, which may wait for another one.
fn answer_for(
    files: &mut ClientFiles,
    alloc: Global,
    tx: TxNo,
    pid: Pid,
    from: Kernel,
    body: &ReplyBody,
) -> Result<(), NoMemory>
    ensures { OnOk result (files.new ≡ answered_for tx pid from body.now files.old) }
{
    if !takes_end(files, tx, pid) {
        return Ok(());
    }
    match files.pending.take(&pid) {
        Some(Pending::Name(call)) => answer_name(files, alloc, pid, call, from, body),
        Some(Pending::Data(call)) => data_replied(files, alloc, pid, call, body),
        Some(Pending::Sync(call)) => files.keep(pid, Pending::Sync(call)),
        Some(Pending::Close(work)) => close_answered(files, alloc, pid, work),
        Some(Pending::Move(work)) => answer_move(files, pid, work, body),
        None => Ok(()),
    }
}

// No other body answers a move.
fn answer_move(
    files: &mut ClientFiles,
    pid: Pid,
    work: MoveWork,
    body: &ReplyBody,
) -> Result<(), NoMemory>
    ensures { OnOk result (files.new ≡ answers_move pid work body.now files.old) }
{
    match body {
        ReplyBody::Moved { grant, grants } => move_answered(files, pid, work, grant, *grants),
        _ => files.keep(pid, Pending::Move(work)),
    }
}
