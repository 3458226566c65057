ghost use Rattle.std.specs.Prelude.{◌≡◌, IfOk, OnOk};
ghost use Rattle.client_moves.specs.Freezing.{takes_proc};
ghost use Rattle.client_procs.specs.Turning.{gives_all, gives_first, goes_on, is_quiet, rounds_for, takes_all, takes_first, takes_report, turned};

use client_devices::close_master;
use client_file_tables::Report;
use client_homes::ClientProcs;
use client_moves::{finish, stream_moved};
use sprite_ids::{NoMemory, Pid};
use std::alloc::Global;

// How many rounds there are for each process that is here or leaves, and how many besides (this project).
const ROUNDS: usize = 64;

// Runs what is ready, gives the replies and takes the reports of the files' side, in this order, that many rounds. Where nothing
// is left, further rounds change nothing.
pub(crate) fn go_on(client: &mut ClientProcs, alloc: Global) -> Result<(), NoMemory>
    ensures { OnOk result (client.new ≡ goes_on client.old) }
{
    let count = rounds_for(client)?;
    for _done in 0..count {
        round(client, alloc)?;
    }
    Ok(())
}

fn rounds_for(client: &ClientProcs) -> Result<usize, NoMemory>
    ensures { IfOk result (λ count. count ≡ rounds_for client.now) }
{
    let here = client
        .procs
        .len()
        .checked_add(client.leaving.len())
        .ok_or(NoMemory)?;
    let more = here.checked_mul(ROUNDS).ok_or(NoMemory)?;
    more.checked_add(ROUNDS).ok_or(NoMemory)
}

// One round, where anything is left.
fn round(client: &mut ClientProcs, alloc: Global) -> Result<(), NoMemory>
    ensures { OnOk result (client.new ≡ turned client.old) }
{
    if is_quiet(client) {
        return Ok(());
    }
    client_files::go_on(&mut client.files, alloc)?;
    give_all(client, alloc)?;
    take_all(client, alloc)
}

// Whether nothing is ready, no reply is to be given and no report to be taken.
fn is_quiet(client: &ClientProcs) -> bool
    ensures { result ≡ is_quiet client.now }
{
    client.files.ready.len() == 0
        && client.files.out.replies.len() == 0
        && client.files.results.len() == 0
}

// Gives the replies, in order, also those that come by it: as many as processes are here.
fn give_all(client: &mut ClientProcs, alloc: Global) -> Result<(), NoMemory>
    ensures { OnOk result (client.new ≡ gives_all client.old) }
{
    let count = client.procs.len();
    for _done in 0..count {
        give_first(client, alloc)?;
    }
    Ok(())
}

// Takes the reports, in order.
fn take_all(client: &mut ClientProcs, alloc: Global) -> Result<(), NoMemory>
    ensures { OnOk result (client.new ≡ takes_all client.old) }
{
    let count = client.files.results.len();
    for _done in 0..count {
        take_first(client, alloc)?;
    }
    Ok(())
}

// The first reply is given.
fn give_first(client: &mut ClientProcs, alloc: Global) -> Result<(), NoMemory>
    ensures { OnOk result (client.new ≡ gives_first client.old) }
{
    if client.files.out.replies.is_empty() {
        return Ok(());
    }
    let (pid, reply) = client.files.out.replies.remove(0);
    finish(client, alloc, pid, reply)
}

// The first report is taken.
fn take_first(client: &mut ClientProcs, alloc: Global) -> Result<(), NoMemory>
    ensures { OnOk result (client.new ≡ takes_first client.old) }
{
    if client.files.results.is_empty() {
        return Ok(());
    }
    let report = client.files.results.remove(0);
    take_report(client, alloc, report)
}

fn take_report(client: &mut ClientProcs, alloc: Global, report: Report) -> Result<(), NoMemory>
    ensures { OnOk result (client.new ≡ takes_report report client.old) }
{
    match report {
        Report::Moved {
            pid,
            place,
            grant,
            grants,
        } => stream_moved(client, alloc, pid, place, grant, grants),
        Report::MasterClosed { device } => close_master(client, alloc, device.number),
        Report::AllClosed { pid } => {
            forget(client, pid);
            Ok(())
        }
    }
}

// A process that has ended is forgotten.
fn forget(client: &mut ClientProcs, pid: Pid)
    ensures { client.new ≡ takes_proc pid client.old }
{
    client.procs.take(&pid);
}
