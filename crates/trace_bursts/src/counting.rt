ghost use Rattle.std.specs.Prelude.{◌≡◌, ℕ, IfOk, OnOk};
ghost use Rattle.std.specs.Option.{is_some};
ghost use Rattle.unix_calls.specs.State.{process_at};
ghost use Rattle.unix_world.specs.Among.{Ascending};
ghost use Rattle.trace_bursts.specs.Reasons.{bursts_are_counted};
ghost use Rattle.trace_bursts.specs.Doing.{due_by, is_met};
ghost use Rattle.trace_bursts.specs.Counting.{BurstsOn, EntersAt, EntersIf, IssuesOn, Judges, JudgesIf, all_met, doing_of, without};
ghost use Rattle.trace_bursts.specs.Counted.{CountsBefore};
ghost use Rattle.trace_bursts.specs.CountingLaws.{counts_enter, counts_pass};

use crate::doing::Doing;
use indexmap::IndexMap;
use sprite_ids::{NoMemory, Pid};
use std::alloc::Global;
use trace_walk::Watches;
use unix_calls::{Description, Entry, Event, Process, Rec};
use unix_world::{World, find};

/// What the bursts of a trace's processes did since their last entries, while one Unix kernel makes its entries, as long as all did no
/// more instructions than there are before their next calls, and exactly these where a call is issued (this project).
///
/// How many instructions there are before a call is told at its entry; only of processes whose call isn't entered in the trace, and of
/// those that die, are the images run for it.
#[derive(Drop)]
pub struct Counts {
    pub(crate) doings: IndexMap<Pid, Doing>,
    // Whether all did so.
    pub(crate) kept: bool,
}

impl Counts {
    ghost use Rattle.trace_bursts.specs.Counted.{CountsAll, IsFresh};

    /// Of no records.
    pub fn new(alloc: Global) -> Counts
        ensures { IsFresh result }
    {
        Counts {
            doings: IndexMap::new(alloc),
            kept: true,
        }
    }

    /// Whether the bursts of a trace's processes did so, where the trace leads to these in the one kernel. The one error is want of
    /// memory.
    pub(crate) fn are_met(
        &self,
        alloc: Global,
        c: &Description,
        trace: &[Rec],
        ps: &[Process],
    ) -> Result<bool, NoMemory>
        requires { CountsAll c.now trace.now ps.now self.now }
        ensures { IfOk result (λ met. met ≡ bursts_are_counted c.now trace.now) }
    {
        if !self.kept {
            return Ok(false);
        }
        are_all_met(alloc, c, ps, &self.doings)
    }
}

impl Watches for Counts {
    ghost tells = { λ c trace watch world ps past rest. CountsBefore c trace rest world ps past watch };

    ghost sees = { λ c world ps rec old new. JudgesIf old.kept c ps rec.event old.doings.entries new.kept new.doings.entries };

    ghost heeds = { λ world place way entry old new. EntersIf old.kept entry way old.doings.entries new.kept new.doings.entries };

    fn see(
        &mut self,
        alloc: Global,
        c: &Description,
        _world: &World,
        ps: &[Process],
        rec: &Rec,
    ) -> Result<(), NoMemory> {
        if self.kept {
            self.kept = judge(alloc, c, ps, &mut self.doings, &rec.event)?;
        }
        Ok(())
    }

    fn heed(
        &mut self,
        _world: &World,
        _place: u32,
        way: u64,
        entry: &Entry,
    ) -> Result<(), NoMemory> {
        if self.kept {
            self.kept = enter_at(&mut self.doings, entry, way);
        }
        Ok(())
    }

    ghost passes = { counts_pass };

    ghost goes_in = { counts_enter };
}

// Keeps what a burst or an issue does; of a death, tells whether its process's bursts are met before it.
fn judge(
    alloc: Global,
    c: &Description,
    ps: &[Process],
    doings: &mut IndexMap<Pid, Doing>,
    event: &Event,
) -> Result<bool, NoMemory>
    requires { Ascending ps.now }
    ensures { IfOk result (λ kept. Judges c.now ps.now event.now doings.old.entries kept doings.new.entries) }
{
    match event {
        Event::Burst { pid, count } => {
            keep_burst(ps, doings, *pid, u64::from(*count))?;
            Ok(true)
        }
        Event::Issue { pid, .. } => {
            keep_issue(ps, doings, *pid)?;
            Ok(true)
        }
        Event::Enter { entry } => match &entry.call {
            Some(_) => Ok(true),
            None => is_met_there(alloc, c, ps, doings, entry.pid),
        },
        _ => Ok(true),
    }
}

fn keep_burst(
    ps: &[Process],
    doings: &mut IndexMap<Pid, Doing>,
    pid: Pid,
    count: u64,
) -> Result<(), NoMemory>
    requires { Ascending ps.now }
    ensures { OnOk result (BurstsOn ps.now pid count doings.old.entries doings.new.entries) }
{
    let later = doing_of(doings, pid).burst(is_there(ps, pid), count)?;
    doings.insert(pid, later)?;
    Ok(())
}

fn keep_issue(ps: &[Process], doings: &mut IndexMap<Pid, Doing>, pid: Pid) -> Result<(), NoMemory>
    requires { Ascending ps.now }
    ensures { OnOk result (IssuesOn ps.now pid doings.old.entries doings.new.entries) }
{
    let later = doing_of(doings, pid).issue(is_there(ps, pid));
    doings.insert(pid, later)?;
    Ok(())
}

// Whether the one kernel has the process.
fn is_there(ps: &[Process], pid: Pid) -> bool
    requires { Ascending ps.now }
    ensures { result ≡ is_some (process_at ps.now pid) }
{
    find(ps, pid).is_some()
}

// What a process's bursts did.
fn doing_of(doings: &IndexMap<Pid, Doing>, pid: Pid) -> Doing
    ensures { result ≡ doing_of doings.now.entries pid }
{
    match doings.get(&pid) {
        Some(doing) => *doing,
        None => Doing::new(),
    }
}

// Whether a process's bursts are met by its image in the one kernel.
fn is_met_there(
    alloc: Global,
    c: &Description,
    ps: &[Process],
    doings: &IndexMap<Pid, Doing>,
    pid: Pid,
) -> Result<bool, NoMemory>
    requires { Ascending ps.now }
    ensures { IfOk result (λ met. met ≡ is_met (doing_of doings.now.entries pid) (due_by c.now ps.now pid)) }
{
    let doing = doing_of(doings, pid);
    match find(ps, pid) {
        Some(at) => doing.is_met_by(alloc, c, &ps[at]),
        None => Ok(true),
    }
}

// Begins anew behind an entry, and tells whether its process's bursts are met by its way to its call.
fn enter_at(doings: &mut IndexMap<Pid, Doing>, entry: &Entry, way: u64) -> bool
    ensures { EntersAt entry.now way doings.old.entries result doings.new.entries }
{
    let doing = taken(doings, entry.pid);
    entry.call.is_none() || doing.is_met(way)
}

// Takes out what a process's bursts did.
fn taken(doings: &mut IndexMap<Pid, Doing>, pid: Pid) -> Doing
    ensures doing { result ≡ doing_of doings.old.entries pid }
    ensures others { (other : ℕ) → doing_of doings.new.entries other ≡ without pid doings.old.entries other }
{
    match doings.swap_remove(&pid) {
        Some(doing) => doing,
        None => Doing::new(),
    }
}

// Whether the bursts of all processes in the one kernel are met.
fn are_all_met(
    alloc: Global,
    c: &Description,
    ps: &[Process],
    doings: &IndexMap<Pid, Doing>,
) -> Result<bool, NoMemory>
    requires { Ascending ps.now }
    ensures { IfOk result (λ met. met ≡ all_met c.now ps.now doings.now.entries ps.now) }
{
    for p in ps {
        if !is_met_there(alloc, c, ps, doings, p.pid)? {
            return Ok(false);
        }
    }
    Ok(true)
}
