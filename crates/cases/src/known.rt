//! What the judge of runs is given of each run, since it is proved of all: asked of traces that no run gave, and of runs by chance (this
//! project).

ghost use Rattle.std.specs.Prelude.{IfOk, IsTrue};
ghost use Rattle.trace_judge.specs.Known.{KnowsRun};

use packet_worth::{deliveries_are_few, faults_are_few, losses_are_met};
use record_worth::prefixes_are_learned_once;
use sprite_ids::NoMemory;
use std::alloc::Global;
use trace_rules::prefixes_are_broadcast_until_learned;
use unix_calls::{Description, Rec};

/// Whether the trace is as that of each run is, in what it tells of prefixes and packets. The one error is want of memory.
pub(crate) fn is_known(alloc: Global, c: &Description, trace: &[Rec]) -> Result<bool, NoMemory>
    ensures { IfOk result (λ known. IsTrue known → KnowsRun c.now trace.now) }
{
    if !prefixes_are_broadcast_until_learned(alloc, c, trace)? {
        return Ok(false);
    }
    if !prefixes_are_learned_once(alloc, c, trace)? {
        return Ok(false);
    }
    if !deliveries_are_few(alloc, trace)? {
        return Ok(false);
    }
    if !losses_are_met(alloc, c, trace)? {
        return Ok(false);
    }
    if !faults_are_few(alloc, c, trace)? {
        return Ok(false);
    }
    Ok(true)
}
