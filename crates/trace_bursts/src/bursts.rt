ghost use Rattle.std.specs.Prelude.{◌≡◌, IfOk};
ghost use Rattle.call_journal.specs.WorthBursts.{bursts_are_worth};
ghost use Rattle.trace_bursts.specs.Counted.{CountsAll};

use crate::counting::Counts;
use crate::reasons::bursts_are_whole;
use sprite_ids::NoMemory;
use std::alloc::Global;
use unix_calls::{Description, Process, Rec};

/// Whether each burst of a trace does as many instructions as its process has before it: 10,000, or fewer with the reason directly
/// behind; never more than there are before the process's next call in the one-kernel Unix, and exactly these where the call is issued
/// (this project).
///
/// `counts` is what is kept of all its records; the trace leads to these processes. The one error is want of memory.
pub fn bursts_are_worth(
    alloc: Global,
    c: &Description,
    trace: &[Rec],
    ps: &[Process],
    counts: &Counts,
) -> Result<bool, NoMemory>
    requires { CountsAll c.now trace.now ps.now counts.now }
    ensures { IfOk result (λ kept. kept ≡ bursts_are_worth c.now trace.now) }
{
    if !bursts_are_whole(trace) {
        return Ok(false);
    }
    counts.are_met(alloc, c, trace, ps)
}
