ghost use Rattle.std.specs.Prelude.{◌≡◌, ◌&&◌, IfOk};
ghost use Rattle.call_journal.specs.WorthCaches.{caches_are_worth};

use crate::cleaned::blocks_are_cleaned_once_sent;
use crate::counts::blocks_move_moderately;
use crate::fetched::blocks_are_fetched_anew;
use crate::sent::blocks_are_sent_once_changed;
use crate::stamps::stamps_are_taken_in_order;
use sprite_ids::NoMemory;
use std::alloc::Global;
use unix_calls::{Description, Rec};

/// Whether the caches of the trace move blocks for a cause: stamps are taken in order, blocks are fetched, made dirty, sent and
/// cleaned in turn, and no more often than calls and stamps give a motive (this project). The one error is want of memory.
pub fn caches_are_worth(alloc: Global, c: &Description, trace: &[Rec]) -> Result<bool, NoMemory>
    ensures { IfOk result (λ worth. worth ≡ caches_are_worth c.now trace.now) }
{
    let taken = stamps_are_taken_in_order(alloc, c, trace)?;
    let fetched = blocks_are_fetched_anew(alloc, c, trace)?;
    let sent = blocks_are_sent_once_changed(alloc, c, trace)?;
    let cleaned = blocks_are_cleaned_once_sent(alloc, c, trace)?;
    let moderate = blocks_move_moderately(alloc, trace)?;
    Ok(are_all(taken, fetched, sent, cleaned, moderate))
}

// Whether each part is kept.
fn are_all(taken: bool, fetched: bool, sent: bool, cleaned: bool, moderate: bool) -> bool
    ensures { result ≡ ((((taken && fetched) && sent) && cleaned) && moderate) }
{
    taken && fetched && sent && cleaned && moderate
}
