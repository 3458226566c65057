ghost use Rattle.std.specs.Prelude.{◌≡◌, ◌≤◌, ℕ, IfOk, true};
ghost use Rattle.unix_calls.specs.Lawful.{Lawful};
ghost use Rattle.one_kernel.specs.declared.Verdict.TheVariants.{Legal};
ghost use Rattle.one_kernel.specs.Verdicts.{verdict_of};
ghost use Rattle.call_journal.specs.Formed.{formed};
ghost use Rattle.call_journal.specs.Journal.{journal_of};
ghost use Rattle.trace_walk.specs.Walks.{LeadsTo};
ghost use Rattle.trace_views.specs.Views.{Shows};
ghost use Rattle.trace_audit.specs.Audits.{AuditsTo, IsWithin};

use crate::outcome::Audit;
use crate::promise::Promise;
use call_journal::Trace;
use calls_once::calls_are_once;
use cause_judge::are_for_cause;
use sprite_ids::NoMemory;
use std::alloc::Global;
use trace_bursts::passes_bound;
use trace_forms::formed;
use trace_judge::broken_when_formed;
use trace_views::{Viewed, Views, view};
use trace_walk::End;
use unix_calls::{Description, Process, Rec};

/// What a trace of a described cluster comes to, whose processes may do at most `most` instructions in all (this project).
///
/// `Steps` comes exactly where one Unix kernel gives the journal's entries before one and the instructions up to that entry's call make
/// the sum pass the bound, or where those of the bursts behind the last entries do, with the ways to calls that are issued there; else
/// `Fails` with the first promise that the trace breaks; else `Holds`. The one error is want of memory, which is also the answer where
/// the entries would be more than 2^32.
pub fn audit(alloc: Global, c: &Description, trace: &Trace, most: u64) -> Result<Audit, NoMemory>
    requires lawful { Lawful c.now }
    requires bound { most ≤ 40000000000 }
    ensures { IfOk result (AuditsTo c.now most trace.now) }
{
    match view(alloc, c, trace.records(), most)? {
        Viewed::NotLegal(_) => Ok(Audit::Fails(Promise::Legal)),
        Viewed::Steps(place) => Ok(Audit::Steps(place)),
        Viewed::Legal(end, views) => audit_legal(alloc, c, trace.records(), &end, &views, most),
    }
}

// A trace whose journal one Unix kernel gives, and which leads there.
fn audit_legal(
    alloc: Global,
    c: &Description,
    trace: &[Rec],
    end: &End,
    views: &Views,
    most: u64,
) -> Result<Audit, NoMemory>
    requires lawful { Lawful c.now }
    requires bound { most ≤ 40000000000 }
    requires legal { verdict_of c.now most (journal_of trace.now) ≡ Legal }
    requires leads { LeadsTo c.now trace.now end.now }
    requires shown { Shows c.now trace.now end.now.processes views.now }
    ensures { IfOk result (AuditsTo c.now most trace.now) }
{
    if passes_bound(alloc, c, trace, end, most)? {
        return Ok(Audit::Steps(end.place));
    }
    if !formed(alloc, c, trace, views.openings.as_slice())? {
        return Ok(Audit::Fails(Promise::Formed));
    }
    audit_formed(alloc, c, trace, end.processes.as_slice(), views)
}

// A trace, besides, that keeps to the bound, and whose records are written as they should be.
fn audit_formed(
    alloc: Global,
    c: &Description,
    trace: &[Rec],
    ps: &[Process],
    views: &Views,
) -> Result<Audit, NoMemory>
    requires lawful { Lawful c.now }
    requires shown { Shows c.now trace.now ps.now views.now }
    requires formed { formed c.now trace.now ≡ true }
    ensures { IfOk result (λ audit. (most : ℕ) → IsWithin c.now most trace.now → AuditsTo c.now most trace.now audit) }
{
    if !calls_are_once(alloc, trace)? {
        return Ok(Audit::Fails(Promise::Once));
    }
    if !are_for_cause(c, trace) {
        return Ok(Audit::Fails(Promise::Unreachable));
    }
    match broken_when_formed(alloc, c, trace, ps, views, false)? {
        Some(rule) => Ok(Audit::Fails(Promise::Rule(rule))),
        None => Ok(Audit::Holds),
    }
}
