ghost use Rattle.std.specs.Prelude.{◌≡◌, ◌≢◌, ◌++◌, [], true, IfOk, Some};
ghost use Rattle.trace_text.specs.Traces.{trace_of};
ghost use Rattle.report_print.specs.Stats.{stats_of};
ghost use Rattle.unix_calls.specs.Output.{last_line};
ghost use Rattle.unix_calls.specs.Lawful.{Lawful};
ghost use Rattle.call_journal.specs.Journal.{journal_of};
ghost use Rattle.call_journal.specs.Unreachable.{unreachable_for_cause};
ghost use Rattle.trace_judge.specs.Known.{KnowsRun};
ghost use Rattle.run_judge.specs.Judged.{IsJudged, JudgesTo};
ghost use Rattle.sprite_cluster.specs.Finishing.{IsSpent, stands_so};
ghost use Rattle.sprite_cluster.specs.Logs.{Holds};
ghost use Rattle.sprite_top.specs.Top.{ClusterCauses, IsBroken, IsSameRun, RunsOver, is_out_of_memory, printed, status_of};

use crate::judged::refuted_line;
use crate::top::{Answer, Printing, Status, Turns};
use call_journal::Closed;
use kernel_threads::{Watch, run_seeded, run_threads};
use link_plan::Link;
use report_print::{Tally, history, last_line, stats, summary};
use run_judge::{JudgedRun, judge_run};
use sprite_cluster::Cluster;
use sprite_ids::{Bytes, Finish, NoMemory};
use std::alloc::Global;
use std::sync::Wait;
use std::thread::Threads;
use trace_text::print_trace;
use unix_calls::Description;

/// How many instructions the processes of a run may do when it is judged: as many as the largest budget lets them do.
const MOST: u64 = 40_000_000_000;

/// What is due for a described cluster, which is lawful: it is run over the link, which is handed back, its run is judged, and then
/// printed. The one error is want of memory.
pub(crate) fn answer_cluster<R: Threads + Wait + Sync, L: Link + Send, W: Watch + Sync>(
    rt: &R,
    alloc: Global,
    description: Description,
    print: Printing,
    turns: Turns,
    link: L,
    watch: &W,
) -> (Result<Answer, NoMemory>, L)
    requires { Lawful description }
    ensures causes { IfOk result.0 (λ a. ClusterCauses print a.status description a.closed a.due) }
    ensures over { IfOk result.0 (λ a. RunsOver L.faults L.asked link result.1 a.closed) }
{
    let (closed, link) = run_cluster(rt, alloc, description, turns, link, watch);
    let answer = match closed {
        Ok(closed) => judge_closed(alloc, closed, print),
        Err(NoMemory) => Err(NoMemory),
    };
    (answer, link)
}

// Runs the cluster over the link. The one error is want of memory.
fn run_cluster<R: Threads + Wait + Sync, L: Link + Send, W: Watch + Sync>(
    rt: &R,
    alloc: Global,
    description: Description,
    turns: Turns,
    link: L,
    watch: &W,
) -> (Result<Closed, NoMemory>, L)
    requires { Lawful description }
    ensures same { IfOk result.0 (λ run. run.description ≡ description) }
    ensures over { IfOk result.0 (λ run. RunsOver L.faults L.asked link result.1 (Some run)) }
{
    match Cluster::boot(alloc, description, link) {
        Ok(cluster) => run_booted(rt, alloc, cluster, turns, watch),
        Err(link) => (Err(NoMemory), link),
    }
}

// Runs a cluster that was booted. The one error is want of memory.
fn run_booted<R: Threads + Wait + Sync, L: Link + Send, W: Watch + Sync>(
    rt: &R,
    alloc: Global,
    cluster: Cluster<L>,
    turns: Turns,
    watch: &W,
) -> (Result<Closed, NoMemory>, L)
    requires lawful { Lawful cluster.description }
    requires holds { Holds L.faults L.asked cluster.description cluster.closed cluster.begun.value cluster.wire cluster.state cluster.trace }
    requires none_out { cluster.state.out ≡ [] }
    ensures same { IfOk result.0 (λ run. run.description ≡ cluster.description) }
    ensures over { IfOk result.0 (λ run. RunsOver L.faults L.asked cluster.begun.value result.1 (Some run)) }
{
    match run_by(rt, alloc, cluster, turns, watch) {
        Ok(cluster) => close(cluster),
        Err(cluster) => {
            let link = cluster.into_link();
            (Err(NoMemory), link)
        }
    }
}

// Runs the cluster in that order. The one error is want of memory, which hands the cluster back.
#[tactic(auto, using(crate::proofs::RunLaws::same_run, sprite_cluster::proofs::BootLaws::few_kernels))]
fn run_by<R: Threads + Wait + Sync, L: Link + Send, W: Watch + Sync>(
    rt: &R,
    alloc: Global,
    cluster: Cluster<L>,
    turns: Turns,
    watch: &W,
) -> Result<Cluster<L>, Cluster<L>>
    requires holds { Holds L.faults L.asked cluster.description cluster.closed cluster.begun.value cluster.wire cluster.state cluster.trace }
    requires none_out { cluster.state.out ≡ [] }
    ensures { IfOk result (IsSameRun L.faults L.asked cluster) }
{
    let Ok(kernels) = u8::try_from(cluster.description.kernels.len()) else {
        return Err(cluster);
    };
    match turns {
        Turns::Threads => run_threads(rt, alloc, cluster, kernels, watch),
        Turns::Seeded(seed) => Ok(run_seeded(alloc, cluster, kernels, seed)),
    }
}

// The run of a cluster that came to its end. The one error is want of memory.
fn close<L: Link>(cluster: Cluster<L>) -> (Result<Closed, NoMemory>, L)
    requires lawful { Lawful cluster.description }
    requires holds { Holds L.faults L.asked cluster.description cluster.closed cluster.begun.value cluster.wire cluster.state cluster.trace }
    requires over { stands_so cluster.closed cluster.description cluster.trace cluster.wire.machine cluster.state ≢ Finish.Running }
    ensures same { IfOk result.0 (λ run. run.description ≡ cluster.description) }
    ensures over { IfOk result.0 (λ run. RunsOver L.faults L.asked cluster.begun.value result.1 (Some run)) }
{
    let mut cluster = cluster;
    let finish = cluster.finish();
    let (closed, link) = cluster.close(finish);
    if is_out_of_memory(finish) {
        return (Err(NoMemory), link);
    }
    (Ok(closed), link)
}

// Whether memory was wanting.
fn is_out_of_memory(finish: Finish) -> bool
    ensures { result ≡ is_out_of_memory finish }
{
    match finish {
        Finish::OutOfMemory => true,
        Finish::AllEnded | Finish::Budget | Finish::Running | Finish::Stalled => false,
    }
}

// What is due for a run, which is judged first. The one error is want of memory.
fn judge_closed(alloc: Global, closed: Closed, print: Printing) -> Result<Answer, NoMemory>
    requires lawful { Lawful closed.description }
    requires spent { IsSpent closed.description closed.trace closed.finish }
    requires known { KnowsRun closed.description closed.trace }
    requires for_cause { unreachable_for_cause closed.description closed.trace ≡ true }
    ensures causes { IfOk result (λ a. ClusterCauses print a.status closed.description a.closed a.due) }
    ensures kept { IfOk result (λ a. a.closed ≡ Some closed) }
{
    match judge_run(
        alloc,
        &closed.description,
        &closed.trace,
        closed.finish,
        MOST,
    )? {
        JudgedRun::Judged { output, tally } => accept(alloc, closed, output, tally, print),
        JudgedRun::Refuted(refutation) => refute(
            alloc,
            closed,
            &JudgedRun::Refuted(refutation),
            print,
        ),
        JudgedRun::Steps(place) => refute(alloc, closed, &JudgedRun::Steps(place), print),
    }
}

// What is due for a run that is what was promised of it.
fn accept(
    alloc: Global,
    closed: Closed,
    output: Bytes,
    tally: Tally,
    print: Printing,
) -> Result<Answer, NoMemory>
    requires lawful { Lawful closed.description }
    requires spent { IsSpent closed.description closed.trace closed.finish }
    requires judged { IsJudged closed.description 40000000000 closed.trace closed.finish output tally }
    ensures causes { IfOk result (λ a. ClusterCauses print a.status closed.description a.closed a.due) }
    ensures kept { IfOk result (λ a. a.closed ≡ Some closed) }
{
    let due = printed(alloc, &closed, output, tally, print)?;
    Ok(Answer {
        status: status_of(closed.finish),
        due,
        closed: Some(closed),
    })
}

// What is printed of a run. The one error is want of memory.
fn printed(
    alloc: Global,
    closed: &Closed,
    output: Bytes,
    tally: Tally,
    print: Printing,
) -> Result<Bytes, NoMemory>
    requires judged { IsJudged closed.now.description 40000000000 closed.now.trace closed.now.finish output tally }
    ensures { IfOk result (λ text. text ≡ printed print closed.now.description closed.now.trace closed.now.finish) }
{
    match print {
        Printing::Output => Ok(output),
        Printing::Stats => with_stats(alloc, closed, output),
        Printing::Summary(count) => {
            Ok(Bytes::of_vec(summary(alloc, count, tally, closed.finish)?))
        }
        Printing::History => {
            let journal = closed.trace.journal(alloc)?;
            Ok(Bytes::of_vec(history(alloc, journal.as_slice(), closed.finish)?))
        }
        Printing::Trace => printed_trace(alloc, closed),
    }
}

// The output of a run, and then the counts of its trace. The one error is want of memory.
fn with_stats(alloc: Global, closed: &Closed, output: Bytes) -> Result<Bytes, NoMemory>
    ensures { IfOk result (λ text. text ≡ output ++ stats_of closed.now.trace) }
{
    let mut text = output.into_vec();
    text.extend_from_slice(stats(alloc, &closed.trace)?.as_slice())?;
    Ok(Bytes::of_vec(text))
}

// The records of a run, a line each, and why it stopped where a process lives. The one error is want of memory.
fn printed_trace(alloc: Global, closed: &Closed) -> Result<Bytes, NoMemory>
    ensures { IfOk result (λ text. text ≡ trace_of closed.now.trace ++ last_line closed.now.finish) }
{
    let mut text = print_trace(alloc, closed.trace.records())?;
    text.extend_from_slice(last_line(closed.finish))?;
    Ok(Bytes::of_vec(text))
}

// What is due for a run that isn't what was promised of it.
fn refute(
    alloc: Global,
    closed: Closed,
    judged: &JudgedRun,
    print: Printing,
) -> Result<Answer, NoMemory>
    requires spent { IsSpent closed.description closed.trace closed.finish }
    requires judged { JudgesTo closed.description 40000000000 closed.trace closed.finish judged.now }
    requires broken { IsBroken judged.now }
    ensures causes { IfOk result (λ a. ClusterCauses print a.status closed.description a.closed a.due) }
    ensures kept { IfOk result (λ a. a.closed ≡ Some closed) }
{
    let due = Bytes::of_vec(refuted_line(alloc, judged)?);
    Ok(Answer {
        status: Status::Refuted,
        due,
        closed: Some(closed),
    })
}

// The status of a run that came to that end.
fn status_of(finish: Finish) -> Status
    ensures { result ≡ status_of finish }
{
    match finish {
        Finish::AllEnded => Status::Ended,
        Finish::Budget => Status::Budget,
        Finish::Stalled => Status::Stalled,
        Finish::OutOfMemory | Finish::Running => Status::Refuted,
    }
}
