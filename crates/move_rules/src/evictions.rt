ghost use Rattle.std.specs.Prelude.{◌≡◌, ℕ, ◌+◌, ◌==◌, [], OnOk, IfOk, count_by, nat_lt};
ghost use Rattle.std.specs.List.{list_any};
ghost use Rattle.move_rules.specs.declared.evictions.DueAt.{DueAt};
ghost use Rattle.move_rules.specs.Evictions.{BirthOn, DueOn, EvictionsOn, IssuesOn, MarksOn, MarksOne, PutsDue, UsesOn, birth_at, due_in, has_line, is_born_by, is_left_in, issues_of, leaves, marked_stops, uses_of};
ghost use Rattle.trace_places.specs.Places.{place_kept};
ghost use Rattle.move_rules.specs.Whereabouts.{is_placed_at};

use crate::movers::Movers;
use crate::whereabouts::is_placed_at;
use indexmap::{IndexMap, IndexSet};
use sprite_ids::{Kernel, NoMemory, Pid};
use std::alloc::Global;
use trace_places::{Place, child_of};
use trace_tables::CallAt;
use unix_calls::{Description, Event, EvictLine, Rec};

/// An eviction of a kernel at a count of its calls, as it concerns a process (this project).
#[derive(Clone, Copy, Debug, PartialEq, Eq, Hash)]
pub(crate) struct DueAt {
    pub(crate) host: Kernel,
    pub(crate) after: u64,
    pub(crate) pid: u64,
}

/// A process at a kernel (this project).
#[derive(Clone, Copy, Debug, PartialEq, Eq, Hash)]
pub(crate) struct UsedAt {
    pub(crate) pid: Pid,
    pub(crate) kernel: Kernel,
}

/// What is kept of the evictions (Douglis and Ousterhout 1991).
#[derive(Drop)]
pub(crate) struct Evictions {
    /// How many calls were issued at each kernel.
    pub(crate) issues: IndexMap<Kernel, u64>,
    /// How often each process was evicted from a kernel.
    pub(crate) used: IndexMap<UsedAt, u64>,
    /// The calls that made the processes, by number.
    pub(crate) births: IndexMap<u64, CallAt>,
    /// Of each eviction that became due for a process how often the process had stopped then.
    pub(crate) due: IndexMap<DueAt, u64>,
}

impl Evictions {
    /// Nothing.
    pub(crate) fn new(alloc: Global) -> Evictions
        ensures issues { result.issues.entries ≡ [] }
        ensures used { result.used.entries ≡ [] }
        ensures births { result.births.entries ≡ [] }
        ensures due { result.due.entries ≡ [] }
    {
        Evictions {
            issues: IndexMap::new(alloc),
            used: IndexMap::new(alloc),
            births: IndexMap::new(alloc),
            due: IndexMap::new(alloc),
        }
    }

    /// Whether an eviction from the kernel is due for the process that it wasn't evicted by so far.
    pub(crate) fn is_left_to_use(&self, c: &Description, pid: Pid, kernel: Kernel) -> bool
        ensures { result ≡ nat_lt (uses_of self.now.used.entries (record { pid = pid; kernel = kernel })) (count_by (due_in self.now.due.entries pid kernel) c.now.evicts) }
    {
        let used = uses_of(&self.used, &UsedAt { pid, kernel });
        used < count_due(&self.due, pid, kernel, c.evicts.as_slice())
    }

    /// Whether an eviction from the kernel became due for the process, which has stopped so often and didn't stop since.
    pub(crate) fn is_overdue(&self, c: &Description, pid: Pid, stops: u64, kernel: Kernel) -> bool
        ensures { result ≡ list_any (is_left_in self.now.due.entries stops pid kernel) c.now.evicts }
    {
        any_left(&self.due, pid, stops, kernel, c.evicts.as_slice())
    }

    /// Keeps what the next record tells, by where the processes are and what is kept of them before it. The one error is want of
    /// memory; a part may be kept then.
    pub(crate) fn go_on(
        &mut self,
        c: &Description,
        places: &IndexMap<u64, Place>,
        movers: &Movers,
        rec: &Rec,
    ) -> Result<(), NoMemory>
        ensures { OnOk result (EvictionsOn c.now places.now.entries movers.now rec.now self.old self.new) }
    {
        self.keep_due(c, places, movers, rec)?;
        keep_used(&mut self.used, movers, rec)?;
        keep_birth(&mut self.births, &rec.event)?;
        keep_issue(&mut self.issues, rec)
    }

    // Marks the processes for which an eviction becomes due.
    fn keep_due(
        &mut self,
        c: &Description,
        places: &IndexMap<u64, Place>,
        movers: &Movers,
        rec: &Rec,
    ) -> Result<(), NoMemory>
        ensures due { OnOk result (DueOn c.now self.old places.now.entries movers.now rec.now self.old.due.entries self.new.due.entries) }
        ensures issues { self.new.issues ≡ self.old.issues }
        ensures used { self.new.used ≡ self.old.used }
        ensures births { self.new.births ≡ self.old.births }
    {
        let Event::Issue { pid, .. } = &rec.event else {
            return Ok(());
        };
        let after = next_issue(&self.issues, rec.kernel)?;
        if !has_line(c.evicts.as_slice(), rec.kernel, after) {
            return Ok(());
        }
        let births = &self.births;
        let marking = Marking {
            host: rec.kernel,
            after,
            issuer: *pid,
        };
        mark_all(&mut self.due, &marking, places, births, movers)?;
        Ok(())
    }
}

// How many calls were issued at the kernel.
fn issues_of(issues: &IndexMap<Kernel, u64>, kernel: Kernel) -> u64
    ensures { result ≡ issues_of issues.now.entries kernel }
{
    match issues.get(&kernel) {
        Some(count) => *count,
        None => 0,
    }
}

// Which one the next call that is issued at the kernel is.
fn next_issue(issues: &IndexMap<Kernel, u64>, kernel: Kernel) -> Result<u64, NoMemory>
    ensures { IfOk result (λ next. next ≡ issues_of issues.now.entries kernel + 1) }
{
    issues_of(issues, kernel).checked_add(1).ok_or(NoMemory)
}

// How often the process was evicted from the kernel.
fn uses_of(used: &IndexMap<UsedAt, u64>, at: &UsedAt) -> u64
    ensures { result ≡ uses_of used.now.entries at.now }
{
    match used.get(at) {
        Some(count) => *count,
        None => 0,
    }
}

// How many evictions from the kernel became due for the process.
fn count_due(due: &IndexMap<DueAt, u64>, pid: Pid, kernel: Kernel, lines: &[EvictLine]) -> u64
    ensures { result ≡ count_by (due_in due.now.entries pid kernel) lines.now }
{
    let mut count: u64 = 0;
    for line in lines {
        if is_due(due, pid, kernel, line) {
            count += 1;
        }
    }
    count
}

fn is_due(due: &IndexMap<DueAt, u64>, pid: Pid, kernel: Kernel, line: &EvictLine) -> bool
    ensures { result ≡ due_in due.now.entries pid kernel line.now }
{
    line.host == kernel && due.get(&due_of(pid, line)).is_some()
}

fn due_of(pid: Pid, line: &EvictLine) -> DueAt
    ensures { result ≡ record { host = line.now.host; after = line.now.after; pid = pid } }
{
    DueAt {
        host: line.host,
        after: u64::from(line.after),
        pid: u64::from(pid.number()),
    }
}

// Whether an eviction from the kernel became due for the process, which has stopped so often and didn't stop since.
fn any_left(
    due: &IndexMap<DueAt, u64>,
    pid: Pid,
    stops: u64,
    kernel: Kernel,
    lines: &[EvictLine],
) -> bool
    ensures { result ≡ list_any (is_left_in due.now.entries stops pid kernel) lines.now }
{
    for line in lines {
        if is_left(due, pid, stops, kernel, line) {
            return true;
        }
    }
    false
}

fn is_left(
    due: &IndexMap<DueAt, u64>,
    pid: Pid,
    stops: u64,
    kernel: Kernel,
    line: &EvictLine,
) -> bool
    ensures { result ≡ is_left_in due.now.entries stops pid kernel line.now }
{
    if line.host != kernel {
        return false;
    }
    match due.get(&due_of(pid, line)) {
        Some(at) => *at == stops,
        None => false,
    }
}

// Whether the cluster has an eviction of the kernel at that count.
fn has_line(lines: &[EvictLine], host: Kernel, after: u64) -> bool
    ensures { result ≡ has_line lines.now host after }
{
    for line in lines {
        if line.host == host && u64::from(line.after) == after {
            return true;
        }
    }
    false
}

// An eviction that becomes due, by the call that a process issues.
#[derive(Clone, Copy, Debug, PartialEq, Eq)]
struct Marking {
    host: Kernel,
    after: u64,
    issuer: Pid,
}

// Marks all processes that leave the kernel by it.
fn mark_all(
    due: &mut IndexMap<DueAt, u64>,
    marking: &Marking,
    places: &IndexMap<u64, Place>,
    births: &IndexMap<u64, CallAt>,
    movers: &Movers,
) -> Result<(), NoMemory>
    ensures { OnOk result (MarksOn marking.now places.now.entries births.now.entries movers.now due.old.entries due.new.entries) }
{
    for pid in places.keys() {
        mark_one(due, marking, places, births, movers, *pid)?;
    }
    Ok(())
}

// Marks the process, if it leaves the kernel.
fn mark_one(
    due: &mut IndexMap<DueAt, u64>,
    marking: &Marking,
    places: &IndexMap<u64, Place>,
    births: &IndexMap<u64, CallAt>,
    movers: &Movers,
    pid: u64,
) -> Result<(), NoMemory>
    ensures { OnOk result (MarksOne marking.now places.now.entries births.now.entries movers.now pid due.old.entries due.new.entries) }
{
    if !leaves(places, births, &movers.returned, marking.host, pid) {
        return Ok(());
    }
    let stops = marked_stops(marking, movers, pid)?;
    let host = marking.host;
    let after = marking.after;
    put_due(due, DueAt { host, after, pid }, stops)?;
    Ok(())
}

// Keeps that an eviction becomes due for a process that has stopped so often.
fn put_due(due: &mut IndexMap<DueAt, u64>, at: DueAt, stops: u64) -> Result<(), NoMemory>
    ensures { OnOk result (PutsDue at stops due.old.entries due.new.entries) }
{
    due.insert(at, stops)?;
    Ok(())
}

// How often the process has stopped, with the call that is issued.
fn marked_stops(marking: &Marking, movers: &Movers, pid: u64) -> Result<u64, NoMemory>
    ensures { IfOk result (λ stops. stops ≡ marked_stops marking.now movers.now pid) }
{
    let stops = movers.mover_of(pid).stops;
    if u64::from(marking.issuer.number()) == pid {
        stops.checked_add(1).ok_or(NoMemory)
    } else {
        Ok(stops)
    }
}

// Whether the process is at the kernel, which isn't its home, and its birth is over.
fn leaves(
    places: &IndexMap<u64, Place>,
    births: &IndexMap<u64, CallAt>,
    returned: &IndexSet<CallAt>,
    host: Kernel,
    pid: u64,
) -> bool
    ensures { result ≡ leaves places.now.entries births.now.entries returned.now.keys host pid }
{
    is_placed_at(places, pid, host)
        && pid / 1000 != u64::from(host.number())
        && is_born(births, returned, pid)
}

fn is_born(births: &IndexMap<u64, CallAt>, returned: &IndexSet<CallAt>, pid: u64) -> bool
    ensures { result ≡ is_born_by returned.now.keys (birth_at births.now.entries pid) }
{
    match births.get(&pid) {
        Some(birth) => returned.contains(birth),
        None => true,
    }
}

// Keeps that a process is evicted.
fn keep_used(used: &mut IndexMap<UsedAt, u64>, movers: &Movers, rec: &Rec) -> Result<(), NoMemory>
    ensures { OnOk result (UsesOn movers.now rec.now used.old.entries used.new.entries) }
{
    let Event::Freeze { pid } = &rec.event else {
        return Ok(());
    };
    if movers.moves_itself(*pid) {
        return Ok(());
    }
    let at = UsedAt {
        pid: *pid,
        kernel: rec.kernel,
    };
    let count = uses_of(used, &at).checked_add(1).ok_or(NoMemory)?;
    used.insert(at, count)?;
    Ok(())
}

// Keeps the call that makes a process, unless one is kept.
fn keep_birth(births: &mut IndexMap<u64, CallAt>, event: &Event) -> Result<(), NoMemory>
    ensures { OnOk result (BirthOn event.now births.old.entries births.new.entries) }
{
    let Event::Enter { entry } = event else {
        return Ok(());
    };
    let Some(child) = child_of(entry) else {
        return Ok(());
    };
    if births.get(&child).is_none() {
        let pid = entry.pid;
        let number = entry.number;
        births.insert(child, CallAt { pid, number })?;
    }
    Ok(())
}

// Counts a call that is issued at a kernel.
fn keep_issue(issues: &mut IndexMap<Kernel, u64>, rec: &Rec) -> Result<(), NoMemory>
    ensures { OnOk result (IssuesOn rec.now issues.old.entries issues.new.entries) }
{
    let Event::Issue { .. } = &rec.event else {
        return Ok(());
    };
    let count = next_issue(issues, rec.kernel)?;
    issues.insert(rec.kernel, count)?;
    Ok(())
}
