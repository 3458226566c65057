ghost use Rattle.std.specs.Prelude.{◌≡◌, IfOk, OnOk};
ghost use Rattle.client_files.specs.Turns.{goes_on, turned, runs, turns_for};

use client_data::{look, run_sync};
use client_file_tables::{ClientFiles, Pending};
use client_streams::{run_close, run_move};
use sprite_ids::{NoMemory, Pid};
use std::alloc::Global;

/// How often an operation is run in one step at most: a close may wait for the lock of each of its 16 descriptors and get it
/// in the same step, and every other operation is run at most three times.
const TURNS: usize = 34;

/// Runs the operations that this step woke, in the order in which it woke them, until none is left: each looks at everything
/// anew, and may end, wait for something else, or wake others. The one error is want of memory, also where a counter of 32
/// bits has come to its limit.
pub fn go_on(files: &mut ClientFiles, alloc: Global) -> Result<(), NoMemory>
    ensures { OnOk result (files.new ≡ goes_on files.old) }
{
    let count = turns_for(files)?;
    for _done in 0..count {
        turn(files, alloc)?;
    }
    Ok(())
}

// So many turns are enough: one for each process that is woken already, and for each operation as often as it may be woken.
fn turns_for(files: &ClientFiles) -> Result<usize, NoMemory>
    ensures { IfOk result (λ count. count ≡ turns_for files.now) }
{
    let most = files.pending.len().checked_mul(TURNS).ok_or(NoMemory)?;
    files.ready.len().checked_add(most).ok_or(NoMemory)
}

// Runs the operation of the process that was woken first, where there is one.
fn turn(files: &mut ClientFiles, alloc: Global) -> Result<(), NoMemory>
    ensures { OnOk result (files.new ≡ turned files.old) }
{
    if files.ready.is_empty() {
        return Ok(());
    }
    let pid = files.ready.remove(0);
    run(files, alloc, pid)
}

// Runs the process's operation. Nothing wakes a name call.
fn run(files: &mut ClientFiles, alloc: Global, pid: Pid) -> Result<(), NoMemory>
    ensures { OnOk result (files.new ≡ runs pid files.old) }
{
    match files.pending.take(&pid) {
        Some(Pending::Name(call)) => files.keep(pid, Pending::Name(call)),
        Some(Pending::Data(call)) => look(files, alloc, pid, call),
        Some(Pending::Sync(call)) => run_sync(files, alloc, pid, call),
        Some(Pending::Close(work)) => run_close(files, alloc, pid, work),
        Some(Pending::Move(work)) => run_move(files, alloc, pid, work),
        None => Ok(()),
    }
}
