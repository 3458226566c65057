ghost use Rattle.std.specs.Prelude.{IfOk, OnOk};
ghost use Rattle.trace_bursts.specs.Behind.{AddsBurst, AddsEntry, AddsIssue, AddsRec, TellsBehind};

use indexmap::IndexSet;
use sprite_ids::{NoMemory, Pid};
use std::alloc::Global;
use unix_calls::{Event, Rec};

/// What stands behind a place of a trace: the processes with an entry there, those with a call that is issued behind their last
/// entries, and the instructions of the bursts behind these (this project).
#[derive(Drop)]
pub(crate) struct Behind {
    pub(crate) entered: IndexSet<Pid>,
    pub(crate) issued: IndexSet<Pid>,
    pub(crate) instructions: u64,
}

/// What stands in a trace, behind the last entries of its processes. The one error is want of memory, which is also the answer where
/// the bursts would do 2^64 instructions.
pub(crate) fn behind_entries(alloc: Global, trace: &[Rec]) -> Result<Behind, NoMemory>
    ensures { IfOk result (TellsBehind trace.now) }
{
    let mut behind = Behind {
        entered: IndexSet::new(alloc),
        issued: IndexSet::new(alloc),
        instructions: 0,
    };
    let mut place = trace.len();
    while place > 0 {
        place -= 1;
        add(&mut behind, &trace[place].event)?;
    }
    Ok(behind)
}

// Puts an event before what stands behind it.
fn add(behind: &mut Behind, event: &Event) -> Result<(), NoMemory>
    ensures { OnOk result (AddsRec event.now behind.old behind.new) }
{
    match event {
        Event::Enter { entry } => add_entry(behind, entry.pid),
        Event::Issue { pid, .. } => add_issue(behind, *pid),
        Event::Burst { pid, count } => add_burst(behind, *pid, u64::from(*count)),
        _ => Ok(()),
    }
}

fn add_entry(behind: &mut Behind, pid: Pid) -> Result<(), NoMemory>
    ensures { OnOk result (AddsEntry pid behind.old behind.new) }
{
    behind.entered.insert(pid)?;
    Ok(())
}

fn add_issue(behind: &mut Behind, pid: Pid) -> Result<(), NoMemory>
    ensures { OnOk result (AddsIssue pid behind.old behind.new) }
{
    if !behind.entered.contains(&pid) {
        behind.issued.insert(pid)?;
    }
    Ok(())
}

fn add_burst(behind: &mut Behind, pid: Pid, count: u64) -> Result<(), NoMemory>
    ensures { OnOk result (AddsBurst pid count behind.old behind.new) }
{
    if !behind.entered.contains(&pid) {
        let more = behind.instructions.checked_add(count).ok_or(NoMemory)?;
        behind.instructions = more;
    }
    Ok(())
}
