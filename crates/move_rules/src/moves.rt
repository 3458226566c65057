ghost use Rattle.std.specs.Prelude.{◌≡◌, IfOk, OnOk};
ghost use Rattle.unix_calls.specs.Lawful.{Lawful};
ghost use Rattle.call_journal.specs.Moves.{processes_run_where_they_are, runs_well};
ghost use Rattle.trace_tables.specs.Callers.{callers_from, callers_of};
ghost use Rattle.trace_rules.specs.Judging.{caller_of, callers_each};
ghost use Rattle.move_rules.specs.Moves.{KeepsMoving, TellsMoves, freezes_well, issues_well, leads_well, moves_well, thaws_well};
ghost use Rattle.move_rules.specs.MoveLaws.{moves_on, moves_told};
ghost use Rattle.move_rules.specs.Arrivals.{named_target};
ghost use Rattle.trace_places.specs.Places.{place_kept};

use crate::arrivals::{Arrivals, named_target};
use crate::evictions::Evictions;
use crate::movers::Movers;
use crate::whereabouts::is_placed_at;
use indexmap::IndexMap;
use sprite_ids::{Kernel, NoMemory, Pid};
use std::alloc::Global;
use trace_places::{Place, boot_places, keep_place, place_in};
use trace_rules::{LooksBackTold, each_keeps_told};
use trace_tables::Caller;
use unix_calls::{Description, Entry, Event, Rec};

/// Whether each process of the trace runs where it is, and moves for a cause: its own call, or an eviction (Douglis and Ousterhout
/// 1991). `callers` tells of each record what the one-kernel Unix tells of its process. The one error is want of memory.
pub fn processes_run_where_they_are(
    alloc: Global,
    c: &Description,
    trace: &[Rec],
    callers: &[Caller],
) -> Result<bool, NoMemory>
    requires lawful { Lawful c.now }
    requires called { callers.now ≡ callers_of c.now trace.now }
    ensures { IfOk result (λ kept. kept ≡ processes_run_where_they_are c.now trace.now) }
{
    let places = boot_places(alloc, c)?;
    let mut judge = Moves {
        places,
        movers: Movers::new(alloc),
        evictions: Evictions::new(alloc),
        arrivals: Arrivals::new(alloc),
    };
    each_keeps_told(alloc, c, &mut judge, trace, callers)
}

/// What is kept of the records so far (this project).
#[derive(Drop)]
pub(crate) struct Moves {
    /// Where the processes are, by number.
    pub(crate) places: IndexMap<u64, Place>,
    pub(crate) movers: Movers,
    pub(crate) evictions: Evictions,
    pub(crate) arrivals: Arrivals,
}

impl LooksBackTold<Caller> for Moves {
    ghost told_of = { caller_of };

    ghost told_from = { callers_from };

    ghost test = { λ c trace past rec. runs_well c past rec.kernel rec.event };

    ghost tells = { λ c trace judge past. TellsMoves c judge past };

    ghost fits = { λ c judge rec caller. moves_well c judge rec.kernel rec.event caller };

    ghost goes_on = { λ c rec caller old new. KeepsMoving c rec old new };

    fn fits(
        &self,
        _alloc: Global,
        c: &Description,
        rec: &Rec,
        caller: &Caller,
    ) -> Result<bool, NoMemory> {
        let kernel = rec.kernel;
        match &rec.event {
            Event::Burst { pid, .. } => Ok(is_placed_at(
                &self.places,
                u64::from(pid.number()),
                kernel,
            )),
            Event::Issue { pid, .. } => Ok(issues_well(self, c, *pid, kernel, caller)),
            Event::Freeze { pid } => Ok(freezes_well(self, c, *pid, kernel)),
            Event::Thaw { pid } => Ok(thaws_well(self, *pid, kernel)),
            Event::Enter { entry } => Ok(leads_well(self, c, entry)),
            Event::Return { pid, number, .. } => {
                Ok(self.arrivals.returns_at(*pid, *number, kernel))
            }
            _ => Ok(true),
        }
    }

    fn go_on(
        &mut self,
        _alloc: Global,
        c: &Description,
        rec: &Rec,
        _caller: &Caller,
    ) -> Result<(), NoMemory> {
        self.arrivals.go_on(c, &self.places, rec)?;
        self.evictions.go_on(c, &self.places, &self.movers, rec)?;
        self.movers.go_on(&rec.event)?;
        keep_place(&mut self.places, rec.kernel, &rec.event)
    }

    ghost each = { callers_each };

    ghost is_told = { λ c trace judge past rec. moves_told c judge past rec };

    ghost tells_on = { λ c trace old new past rec. moves_on c old new past rec };
}

// Whether a process that issues a call is there, and heeded its evictions, unless it holds a master stream.
fn issues_well(judge: &Moves, c: &Description, pid: Pid, kernel: Kernel, caller: &Caller) -> bool
    ensures { result ≡ issues_well c.now judge.now pid kernel caller.now }
{
    let number = u64::from(pid.number());
    if !is_placed_at(&judge.places, number, kernel) {
        return false;
    }
    let stops = judge.movers.mover_of(number).stops;
    caller.is_master || !judge.evictions.is_overdue(c, pid, stops, kernel)
}

// Whether a process that is frozen is so by its own call, or by an eviction that is due.
fn freezes_well(judge: &Moves, c: &Description, pid: Pid, kernel: Kernel) -> bool
    ensures { result ≡ freezes_well c.now judge.now pid kernel }
{
    if !is_placed_at(&judge.places, u64::from(pid.number()), kernel) {
        return false;
    }
    judge.movers.moves_itself(pid) || judge.evictions.is_left_to_use(c, pid, kernel)
}

// Whether a process that was evicted goes on at its home.
fn thaws_well(judge: &Moves, pid: Pid, kernel: Kernel) -> bool
    ensures { result ≡ thaws_well judge.now pid kernel }
{
    kernel == pid.home() || !judge.movers.mover_of(u64::from(pid.number())).is_evicted
}

// Whether a move enters where it leads, or on the way.
fn leads_well(judge: &Moves, c: &Description, entry: &Entry) -> bool
    ensures { result ≡ leads_well (named_target c.now entry.now.call entry.now.reply) (place_kept judge.now.places.entries entry.now.pid) }
{
    let Some(target) = named_target(c, entry) else {
        return true;
    };
    match place_in(&judge.places, entry.pid) {
        Some(at) => {
            let number = u64::from(at.kernel.number());
            (!at.moving && number == target) || at.moving
        }
        None => false,
    }
}
