ghost use Rattle.std.specs.Prelude.{◌≡◌, OnOk};
ghost use Rattle.client_moves.specs.Evicting.{counts_issue, evicts, evicts_all, is_due, is_kept_in, is_ready, is_ready_in, runs_here};

use crate::returning::{between_calls, set_evict};
use client_homes::{ClientProcs, ProcState};
use sprite_ids::{NoMemory, Pid};
use std::alloc::Global;

/// One call more begins at this kernel. Where the cluster file says that at this one the processes of other homes are to leave,
/// each that is here and runs does so when it is next between two calls, and at once where it is (Douglis and Ousterhout 1991;
/// that calls are counted is this project's). The one error is want of memory, which is also the answer where a counter has come
/// to its limit.
///
/// Of places: what `between_calls` says, of each of these.
pub fn count_issue(client: &mut ClientProcs, alloc: Global) -> Result<(), NoMemory>
    ensures { OnOk result (client.new ≡ counts_issue client.old) }
{
    client.issues = client.issues.checked_add(1).ok_or(NoMemory)?;
    if !is_due(client) {
        return Ok(());
    }
    let pids = client.procs.keys(alloc)?;
    evict_all(client, alloc, pids.as_slice())
}

// Whether the processes of other homes are to leave at this call.
fn is_due(client: &ClientProcs) -> bool
    ensures { result ≡ is_due client.now }
{
    let count = client.issues;
    client.evicts.as_slice().iter().any(|after| *after == count)
}

fn evict_all(client: &mut ClientProcs, alloc: Global, pids: &[Pid]) -> Result<(), NoMemory>
    ensures { OnOk result (client.new ≡ evicts_all pids.now client.old) }
{
    for pid in pids {
        evict(client, alloc, *pid)?;
    }
    Ok(())
}

// The process is to leave, where it runs here and has another home.
fn evict(client: &mut ClientProcs, alloc: Global, pid: Pid) -> Result<(), NoMemory>
    ensures { OnOk result (client.new ≡ evicts pid client.old) }
{
    if pid.home() == client.kernel || !runs_here(client, pid) {
        return Ok(());
    }
    set_evict(client, pid, true);
    if !is_ready(client, pid) {
        return Ok(());
    }
    between_calls(client, alloc, pid)
}

/// Whether the process is kept here: it is here, and doesn't arrive, die or end.
pub fn runs_here(client: &ClientProcs, pid: Pid) -> bool
    ensures { result ≡ runs_here pid client.now }
{
    match client.procs.get(&pid) {
        Some(proc) => is_kept(&proc.state),
        None => false,
    }
}

fn is_kept(state: &ProcState) -> bool
    ensures { result ≡ is_kept_in state.now }
{
    match state {
        ProcState::Arriving { .. } => false,
        ProcState::Dying { .. } => false,
        ProcState::Ending => false,
        _ => true,
    }
}

/// Whether the process is here, has no unreturned call and waits for no page: so it can run.
pub fn is_ready(client: &ClientProcs, pid: Pid) -> bool
    ensures { result ≡ is_ready pid client.now }
{
    match client.procs.get(&pid) {
        Some(proc) => is_ready_in(&proc.state),
        None => false,
    }
}

pub(crate) fn is_ready_in(state: &ProcState) -> bool
    ensures { result ≡ is_ready_in state.now }
{
    matches!(state, ProcState::Ready)
}
