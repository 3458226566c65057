ghost use Rattle.std.specs.Prelude.{◌≡◌, IfOk, IsTrue, true};
ghost use Rattle.unix_calls.specs.Lawful.{Lawful};
ghost use Rattle.trace_bursts.specs.Counted.{CountsAll};
ghost use Rattle.trace_forms.specs.Openings.{openings_of};
ghost use Rattle.call_journal.specs.WorthPackets.{deliveries_are_few};
ghost use Rattle.trace_worth.specs.Known.{KnowsWorth};
ghost use Rattle.trace_worth.specs.Worths.{is_worth};

use cache_worth::caches_are_worth;
use echo_worth::expires_are_worth;
use kill_worth::kills_are_heeded;
use open_worth::records_are_worth;
use packet_worth::deliveries_are_few;
use send_worth::sends_are_worth;
use sprite_ids::NoMemory;
use std::alloc::Global;
use trace_bursts::{Counts, bursts_are_worth};
use unix_calls::{Description, Process, Rec, Stream};

/// Whether a trace is worth its units: bursts do what their processes have before their calls, packets go for the sake of calls and come
/// at most six times, tries end behind losses, records are made of what is there, caches move blocks for a cause, and kills are heeded
/// (this project). The trace leads to these processes; `counts` is what is kept of its bursts, `openings` are the streams of files that
/// its records make; `known` tells that some of this is known of the trace, as it is of each run (`KnowsWorth`), so that it isn't asked.
/// The one error is want of memory.
pub fn is_worth(
    alloc: Global,
    c: &Description,
    trace: &[Rec],
    ps: &[Process],
    counts: &Counts,
    openings: &[Option<Stream>],
    known: bool,
) -> Result<bool, NoMemory>
    requires lawful { Lawful c.now }
    requires counts { CountsAll c.now trace.now ps.now counts.now }
    requires openings { openings.now ≡ openings_of c.now trace.now }
    requires known { IsTrue known → KnowsWorth c.now trace.now }
    ensures { IfOk result (λ worth. worth ≡ is_worth c.now trace.now) }
{
    if !bursts_are_worth(alloc, c, trace, ps, counts)? {
        return Ok(false);
    }
    if !few_come(alloc, trace, known)? {
        return Ok(false);
    }
    if !expires_are_worth(alloc, c, trace, known)? {
        return Ok(false);
    }
    if !sends_are_worth(alloc, c, trace)? {
        return Ok(false);
    }
    if !records_are_worth(alloc, c, trace, openings, known)? {
        return Ok(false);
    }
    if !caches_are_worth(alloc, c, trace)? {
        return Ok(false);
    }
    kills_are_heeded(alloc, c, trace)
}

// Whether few packets come for each that goes out.
fn few_come(alloc: Global, trace: &[Rec], known: bool) -> Result<bool, NoMemory>
    requires { IsTrue known → deliveries_are_few trace.now ≡ true }
    ensures { IfOk result (λ few. few ≡ deliveries_are_few trace.now) }
{
    if known {
        return Ok(true);
    }
    deliveries_are_few(alloc, trace)
}
