ghost use Rattle.std.specs.Prelude.{◌≡◌, slice_get};
ghost use Rattle.call_journal.specs.WorthBursts.{is_reason};
ghost use Rattle.trace_bursts.specs.Reasons.{are_whole, is_reason_if, is_whole_at};

use sprite_ids::{Kernel, Pid};
use unix_calls::{Event, Rec};

/// Whether each burst of a trace is whole, or has directly behind it why it ended: a call or an entry of its process, its freeze, or a
/// packet of the kernel.
pub(crate) fn bursts_are_whole(trace: &[Rec]) -> bool
    ensures { result ≡ are_whole trace.now }
{
    for (place, rec) in trace.iter().enumerate() {
        if !is_whole(rec, trace, place + 1) {
            return false;
        }
    }
    true
}

// Whether a record whose next one stands at that place is a whole burst, or has its reason there.
fn is_whole(rec: &Rec, trace: &[Rec], next: usize) -> bool
    ensures { result ≡ is_whole_at rec.now.kernel rec.now.event (slice_get trace.now next) }
{
    match &rec.event {
        Event::Burst { pid, count } => {
            *count == 10_000 || *count < 10_000 && has_reason(rec.kernel, *pid, trace, next)
        }
        _ => true,
    }
}

fn has_reason(kernel: Kernel, pid: Pid, trace: &[Rec], next: usize) -> bool
    ensures { result ≡ is_reason_if kernel pid (slice_get trace.now next) }
{
    next < trace.len() && is_reason(kernel, pid, &trace[next])
}

fn is_reason(kernel: Kernel, pid: Pid, rec: &Rec) -> bool
    ensures { result ≡ is_reason kernel pid rec.now }
{
    match &rec.event {
        Event::Issue { pid: other, .. } => *other == pid,
        Event::Enter { entry } => entry.pid == pid,
        Event::Freeze { pid: other } => *other == pid,
        Event::Send { .. } => rec.kernel == kernel,
        _ => false,
    }
}
