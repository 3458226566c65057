ghost use Rattle.std.specs.Prelude.{◌≡◌, IfOk};
ghost use Rattle.call_journal.specs.Sharing.{caching_stops_only_for_sharing};
ghost use Rattle.trace_tables.specs.Ties.{ties_of};
ghost use Rattle.write_sharing.specs.Cuts.{cuts_of};

use crate::kept::Sharing;
use crate::sharing::{is_paid, take};
use sprite_ids::NoMemory;
use std::alloc::Global;
use trace_tables::Tied;
use unix_calls::{Description, Rec};

/// Whether a kernel of the trace turns its caching of a file off only by a grant or a stop of its server, each of which has its cause
/// between where the file was last open nowhere and its next open: two kernels have it open there and one of them for writing, a
/// stream of it becomes shared, or an open truncates it while it is open; and no operation on it enters at its server from a callback
/// to its next open (Nelson, Welch and Ousterhout 1988; where a cause may stand is this project's). `ties` and `cuts` tell of each
/// record what its call goes by, and whether its entry opens a file and truncates it. The one error is want of memory.
pub fn caching_stops_only_for_sharing(
    alloc: Global,
    c: &Description,
    trace: &[Rec],
    ties: &[Option<Tied>],
    cuts: &[bool],
) -> Result<bool, NoMemory>
    requires tied { ties.now ≡ ties_of c.now trace.now }
    requires cut { cuts.now ≡ cuts_of c.now trace.now }
    ensures { IfOk result (λ kept. kept ≡ caching_stops_only_for_sharing c.now trace.now) }
{
    let mut sharing = Sharing::new(alloc);
    for (place, rec) in trace.iter().enumerate() {
        let truncates = cuts[place];
        let fits = take(alloc, c, &mut sharing, rec, &ties[place], truncates)?;
        if !fits {
            return Ok(false);
        }
    }
    Ok(is_paid(&sharing))
}
