ghost use Rattle.std.specs.Prelude.{◌≡◌, ◌&&◌, IfOk, IsTrue, true};
ghost use Rattle.unix_calls.specs.Lawful.{Lawful};
ghost use Rattle.record_worth.specs.Parts.{prefixes_are_learned_once};
ghost use Rattle.record_worth.specs.Whole.{records_are_made};

use crate::blocks::blocks_come_and_go;
use crate::callbacks::callbacks_are_first;
use crate::moves::moves_begin_and_end;
use crate::prefixes::{prefixes_are_learned_once, prefixes_are_served};
use crate::stamps::stamps_rise;
use crate::streams::streams_are_opened;
use sprite_ids::NoMemory;
use std::alloc::Global;
use unix_calls::{Description, Rec};

/// Whether each record of the trace is made of what is there: blocks come and go in turn, stamps rise, callbacks and fetches are of
/// opened files, streams are opened before they are shared or closed, prefixes are learned once and as the cluster serves them, and
/// processes are frozen and thawed in turn (this project). `known` tells that it is known of the trace that prefixes are learned once, so
/// that it isn't asked. The one error is want of memory.
pub fn records_are_made(
    alloc: Global,
    c: &Description,
    trace: &[Rec],
    known: bool,
) -> Result<bool, NoMemory>
    requires lawful { Lawful c.now }
    requires known { IsTrue known → prefixes_are_learned_once c.now trace.now ≡ true }
    ensures { IfOk result (λ made. made ≡ records_are_made c.now trace.now) }
{
    let blocks = blocks_come_and_go(alloc, c, trace)?;
    let stamps = stamps_rise(alloc, c, trace)?;
    let callbacks = callbacks_are_first(alloc, c, trace)?;
    let streams = streams_are_opened(alloc, c, trace)?;
    let served = prefixes_are_served(c, trace);
    let learned = are_learned_once(alloc, c, trace, known)?;
    let moves = moves_begin_and_end(alloc, c, trace)?;
    Ok(are_all(blocks, stamps, callbacks, streams, served, learned, moves))
}

// Whether each kernel learns a prefix once.
fn are_learned_once(
    alloc: Global,
    c: &Description,
    trace: &[Rec],
    known: bool,
) -> Result<bool, NoMemory>
    requires { IsTrue known → prefixes_are_learned_once c.now trace.now ≡ true }
    ensures { IfOk result (λ once. once ≡ prefixes_are_learned_once c.now trace.now) }
{
    if known {
        return Ok(true);
    }
    prefixes_are_learned_once(alloc, c, trace)
}

// Whether each part is kept.
fn are_all(
    blocks: bool,
    stamps: bool,
    callbacks: bool,
    streams: bool,
    served: bool,
    learned: bool,
    moves: bool,
) -> bool
    ensures { result ≡ ((((((blocks && stamps) && callbacks) && streams) && served) && learned) && moves) }
{
    blocks && stamps && callbacks && streams && served && learned && moves
}
