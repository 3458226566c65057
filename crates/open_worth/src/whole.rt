ghost use Rattle.std.specs.Prelude.{◌≡◌, ◌&&◌, IfOk, IsTrue, true};
ghost use Rattle.unix_calls.specs.Lawful.{Lawful};
ghost use Rattle.call_journal.specs.WorthRecords.{records_are_worth};
ghost use Rattle.trace_forms.specs.Openings.{openings_of};
ghost use Rattle.record_worth.specs.Parts.{prefixes_are_learned_once};

use crate::moved_opens::moved_opens_are_few;
use record_worth::records_are_made;
use sprite_ids::NoMemory;
use std::alloc::Global;
use unix_calls::{Description, Rec, Stream};

/// Whether the records of the trace are made of what is there: blocks come and go in turn, stamps rise, callbacks and fetches are of
/// opened files, streams are opened before they are shared or closed, prefixes are learned once and as the cluster serves them,
/// processes are frozen and thawed in turn, and few streams are opened for moves (this project). `openings` tells of each record
/// which stream of a file its entry makes; `known`, that it is known of the trace that prefixes are learned once, so that it isn't asked. The
/// one error is want of memory.
pub fn records_are_worth(
    alloc: Global,
    c: &Description,
    trace: &[Rec],
    openings: &[Option<Stream>],
    known: bool,
) -> Result<bool, NoMemory>
    requires lawful { Lawful c.now }
    requires openings { openings.now ≡ openings_of c.now trace.now }
    requires known { IsTrue known → prefixes_are_learned_once c.now trace.now ≡ true }
    ensures { IfOk result (λ worth. worth ≡ records_are_worth c.now trace.now) }
{
    if !records_are_made(alloc, c, trace, known)? {
        return Ok(false);
    }
    moved_opens_are_few(c, trace, openings)
}
