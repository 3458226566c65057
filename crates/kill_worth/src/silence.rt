ghost use Rattle.std.specs.Prelude.{◌≡◌, IfOk};
ghost use Rattle.unix_calls.specs.Lawful.{Lawful};
ghost use Rattle.kill_worth.specs.Known.{killed_processes_are_silent, may_issue, may_issue_at};

use crate::keys::KnownAt;
use crate::known::{Knowledge, keep_knowledge, no_knowledge};
use sprite_ids::{Kernel, NoMemory, Pid};
use std::alloc::Global;
use unix_calls::{Description, Event, Rec};

/// Whether the processes of the trace issue no call where a kill of them is known: at their homes from its entry on, elsewhere from a
/// request on that told of it where they were (this project). The one error is want of memory.
pub fn killed_processes_are_silent(
    alloc: Global,
    c: &Description,
    trace: &[Rec],
) -> Result<bool, NoMemory>
    requires { Lawful c.now }
    ensures { IfOk result (λ silent. silent ≡ killed_processes_are_silent c.now trace.now) }
{
    let mut judge = no_knowledge(alloc, c)?;
    for rec in trace {
        if !may_issue(&judge, rec) {
            return Ok(false);
        }
        keep_knowledge(&mut judge, rec)?;
    }
    Ok(true)
}

fn may_issue(judge: &Knowledge, rec: &Rec) -> bool
    ensures { result ≡ may_issue judge.now rec.now.kernel rec.now.event }
{
    match &rec.event {
        Event::Issue { pid, .. } => may_issue_at(judge, *pid, rec.kernel),
        _ => true,
    }
}

fn may_issue_at(judge: &Knowledge, pid: Pid, kernel: Kernel) -> bool
    ensures { result ≡ may_issue_at judge.now pid kernel }
{
    let number = u64::from(pid.number());
    if kernel == pid.home() {
        !judge.kills.killed.contains(&number)
    } else {
        !judge.known.contains(&KnownAt {
            kernel,
            pid: number,
        })
    }
}
