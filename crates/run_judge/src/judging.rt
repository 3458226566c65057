ghost use Rattle.std.specs.Prelude.{◌≡◌, ◌≤◌, ℕ, IfOk, true};
ghost use Rattle.unix_calls.specs.Lawful.{Lawful};
ghost use Rattle.unix_world.specs.declared.World.{World};
ghost use Rattle.unix_world.specs.Worlds.{unix_of};
ghost use Rattle.call_journal.specs.Once.{Once};
ghost use Rattle.call_journal.specs.Unreachable.{unreachable_for_cause};
ghost use Rattle.trace_views.specs.Views.{Shows};
ghost use Rattle.trace_judge.specs.Known.{KnowsRun};
ghost use Rattle.run_judge.specs.Judged.{EndsWell, IsLegal, JudgesTo};

use crate::ending::{Stop, end_of};
use crate::judged::{JudgedRun, Refutation};
use call_journal::Trace;
use calls_once::calls_are_once;
use report_print::{output, tally_of};
use sprite_ids::{Bytes, Finish, NoMemory};
use std::alloc::Global;
use trace_judge::first_broken;
use trace_views::{Viewed, Views, view};
use unix_calls::{Description, Process};
use unix_world::World;

/// Judges a run of a described cluster that came to that end by its trace (this project).
///
/// It is `Judged` where all of these hold, and else `Refuted` by the first that doesn't: one Unix kernel gives the journal; each call is
/// issued, entered and returned once, in this order; by the state of the journal each process has ended where the run ended so, and one
/// lives where the budget was spent or it stalled; where it stalled each process that lives is blocked; and the trace's records are written
/// as they should be, it keeps the nine rules and is worth its units. What is known of each run, by proof, isn't asked: that servers are
/// called unreachable only after eight lost packets of an asking for that call, and what `KnowsRun` says of prefixes and packets. The
/// processes may do at most `most` instructions in all up to the calls of the entries, and as many from there up to their next calls where
/// the run stalled; past that the answer is `Steps`. The one error is want of memory, which is also the answer where the entries would be
/// more than 2^32.
pub fn judge_run(
    alloc: Global,
    c: &Description,
    trace: &Trace,
    finish: Finish,
    most: u64,
) -> Result<JudgedRun, NoMemory>
    requires lawful { Lawful c.now }
    requires bound { most ≤ 40000000000 }
    requires known { KnowsRun c.now trace.now }
    requires for_cause { unreachable_for_cause c.now trace.now ≡ true }
    ensures { IfOk result (JudgesTo c.now most trace.now finish) }
{
    match view(alloc, c, trace.records(), most)? {
        Viewed::NotLegal(place) => Ok(JudgedRun::Refuted(Refutation::Legal(place))),
        Viewed::Steps(place) => Ok(JudgedRun::Steps(place)),
        Viewed::Legal(end, views) => {
            let ps = end.processes.as_slice();
            judge_legal(alloc, c, trace, finish, most, &end.world, ps, &views)
        }
    }
}

// A run whose journal leads to that state.
fn judge_legal(
    alloc: Global,
    c: &Description,
    trace: &Trace,
    finish: Finish,
    most: u64,
    world: &World,
    ps: &[Process],
    views: &Views,
) -> Result<JudgedRun, NoMemory>
    requires lawful { Lawful c.now }
    requires bound { most ≤ 40000000000 }
    requires known { KnowsRun c.now trace.now }
    requires legal { IsLegal c.now most trace.now (unix_of c.now world.now ps.now) }
    requires shown { Shows c.now trace.now ps.now views.now }
    requires for_cause { unreachable_for_cause c.now trace.now ≡ true }
    ensures { IfOk result (JudgesTo c.now most trace.now finish) }
{
    if !calls_are_once(alloc, trace.records())? {
        return Ok(JudgedRun::Refuted(Refutation::Once));
    }
    judge_end(alloc, c, trace, finish, most, world, ps, views)
}

// A run, besides, whose calls are once.
fn judge_end(
    alloc: Global,
    c: &Description,
    trace: &Trace,
    finish: Finish,
    most: u64,
    world: &World,
    ps: &[Process],
    views: &Views,
) -> Result<JudgedRun, NoMemory>
    requires lawful { Lawful c.now }
    requires bound { most ≤ 40000000000 }
    requires known { KnowsRun c.now trace.now }
    requires legal { IsLegal c.now most trace.now (unix_of c.now world.now ps.now) }
    requires shown { Shows c.now trace.now ps.now views.now }
    requires once { Once trace.now }
    requires for_cause { unreachable_for_cause c.now trace.now ≡ true }
    ensures { IfOk result (JudgesTo c.now most trace.now finish) }
{
    match end_of(alloc, c, world, ps, finish, most)? {
        Stop::Good => judge_rules(alloc, c, trace, finish, ps, views),
        Stop::Wrong => Ok(JudgedRun::Refuted(Refutation::End)),
        Stop::Free => Ok(JudgedRun::Refuted(Refutation::Stall)),
        Stop::Far => {
            let place = world.entries.checked_add(1).ok_or(NoMemory)?;
            Ok(JudgedRun::Steps(place))
        }
    }
}

// A run, besides, that ended as it says.
fn judge_rules(
    alloc: Global,
    c: &Description,
    trace: &Trace,
    finish: Finish,
    ps: &[Process],
    views: &Views,
) -> Result<JudgedRun, NoMemory>
    requires lawful { Lawful c.now }
    requires known { KnowsRun c.now trace.now }
    requires shown { Shows c.now trace.now ps.now views.now }
    ensures { IfOk result (λ judged. (most : ℕ) (world : World) → EndsWell c.now most trace.now finish (unix_of c.now world ps.now) → JudgesTo c.now most trace.now finish judged) }
{
    match first_broken(alloc, c, trace.records(), ps, views)? {
        Some(rule) => Ok(JudgedRun::Refuted(Refutation::Rule(rule))),
        None => {
            let tally = tally_of(ps)?;
            let output = Bytes::of_vec(output(alloc, c, ps, finish)?);
            Ok(JudgedRun::Judged { output, tally })
        }
    }
}
