ghost use Rattle.std.specs.Prelude.{◌≡◌, IfOk};
ghost use Rattle.unix_calls.specs.Lawful.{Lawful};
ghost use Rattle.call_journal.specs.Formed.{formed};
ghost use Rattle.trace_forms.specs.Openings.{openings_of};

use crate::entries::entries_are_formed;
use crate::packets::packets_are_formed;
use crate::uses::uses_are_formed;
use sprite_ids::NoMemory;
use std::alloc::Global;
use unix_calls::{Description, Rec, Stream};

/// Whether the records of a trace are written as they should be: its packets, the records of files' servers and the entries that
/// open files (this project). `openings` tells of each record which stream of a file its entry makes. The one error is want of
/// memory.
pub fn formed(
    alloc: Global,
    c: &Description,
    trace: &[Rec],
    openings: &[Option<Stream>],
) -> Result<bool, NoMemory>
    requires lawful { Lawful c.now }
    requires openings { openings.now ≡ openings_of c.now trace.now }
    ensures { IfOk result (λ kept. kept ≡ formed c.now trace.now) }
{
    if !packets_are_formed(alloc, c, trace)? {
        return Ok(false);
    }
    if !uses_are_formed(alloc, c, trace, openings)? {
        return Ok(false);
    }
    entries_are_formed(alloc, c, trace, openings)
}
