ghost use Rattle.std.specs.Prelude.{◌≡◌, ◌≤◌, ◌+◌, IfOk};
ghost use Rattle.trace_walk.specs.Walks.{LeadsTo};
ghost use Rattle.trace_bursts.specs.Costs.{passes_bound};

use crate::behind::behind_entries;
use crate::ways::ways_pass;
use sprite_ids::NoMemory;
use std::alloc::Global;
use trace_walk::End;
use unix_calls::{Description, Rec};

/// Whether the processes of a trace do more than `most` instructions: up to the calls of its entries, by the bursts behind their last
/// entries, and from their images there up to the calls that are issued behind these, where the bound is passed too if none comes
/// (this project).
///
/// The trace's journal leads to that end. The one error is want of memory, which is also the answer where the bursts would do 2^64
/// instructions.
pub fn passes_bound(
    alloc: Global,
    c: &Description,
    trace: &[Rec],
    end: &End,
    most: u64,
) -> Result<bool, NoMemory>
    requires bound { most ≤ 40000000000 }
    requires leads { LeadsTo c.now trace.now end.now }
    ensures { IfOk result (λ passes. passes ≡ passes_bound c.now most trace.now) }
{
    let behind = behind_entries(alloc, trace)?;
    let sum = sum_of(end.cost, behind.instructions)?;
    ways_pass(
        alloc,
        c,
        end.processes.as_slice(),
        &behind.issued,
        most,
        sum,
    )
}

// The one error is that the sum would be 2^64 or more.
fn sum_of(a: u64, b: u64) -> Result<u64, NoMemory>
    ensures { IfOk result (λ sum. sum ≡ a + b) }
{
    a.checked_add(b).ok_or(NoMemory)
}
