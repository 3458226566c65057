ghost use Rattle.std.specs.Prelude.{◌≡◌, ℕ, [], OnOk, true, if◌then◌else◌};
ghost use Rattle.call_journal.specs.Calls.{is_move};
ghost use Rattle.call_journal.specs.Matching.{is_entry_at, is_return};
ghost use Rattle.trace_tables.specs.declared.CallAt.{CallAt};
ghost use Rattle.trace_tables.specs.Calls.{has_call};
ghost use Rattle.move_rules.specs.Movers.{AskedOn, MoversOn, asked_at, frozen_by_itself, is_move_asked, mover_behind, mover_of, moves_itself};

use indexmap::{IndexMap, IndexSet};
use process_machine::Call;
use sprite_ids::{NoMemory, Pid};
use std::alloc::Global;
use trace_tables::CallAt;
use unix_calls::Event;

/// What is kept of a process (this project).
#[derive(Clone, Copy, Debug, PartialEq, Eq)]
pub(crate) struct Mover {
    /// The number of the call that it issued last; 0 before the first.
    pub(crate) number: u32,
    /// Whether it was frozen since it issued that call.
    pub(crate) is_frozen: bool,
    /// Whether no call of its own asked for its last freeze.
    pub(crate) is_evicted: bool,
    /// How often it issued a call or was frozen.
    pub(crate) stops: u64,
}

/// What is kept of the processes and their calls (this project).
#[derive(Drop)]
pub(crate) struct Movers {
    /// The processes, by number.
    pub(crate) movers: IndexMap<u64, Mover>,
    /// Of each call that was issued whether it moves its process.
    pub(crate) asked: IndexMap<CallAt, bool>,
    /// The calls that were entered.
    pub(crate) entered: IndexSet<CallAt>,
    /// The calls that returned.
    pub(crate) returned: IndexSet<CallAt>,
}

impl Movers {
    /// Nothing.
    pub(crate) fn new(alloc: Global) -> Movers
        ensures movers { result.movers.entries ≡ [] }
        ensures asked { result.asked.entries ≡ [] }
        ensures entered { result.entered.keys ≡ [] }
        ensures returned { result.returned.keys ≡ [] }
    {
        Movers {
            movers: IndexMap::new(alloc),
            asked: IndexMap::new(alloc),
            entered: IndexSet::new(alloc),
            returned: IndexSet::new(alloc),
        }
    }

    /// What is kept of the process.
    pub(crate) fn mover_of(&self, pid: u64) -> Mover
        ensures { result ≡ mover_of self.now.movers.entries pid }
    {
        mover_of(&self.movers, pid)
    }

    /// Whether the process is inside a call of its own that moves it, not entered so far, and wasn't frozen since.
    pub(crate) fn moves_itself(&self, pid: Pid) -> bool
        ensures { result ≡ moves_itself self.now pid }
    {
        let mover = mover_of(&self.movers, u64::from(pid.number()));
        let number = mover.number;
        let at = CallAt { pid, number };
        !self.entered.contains(&at) && is_move_asked(&self.asked, &at) && !mover.is_frozen
    }

    /// Keeps what the next event tells. The one error is want of memory; a part may be kept then.
    pub(crate) fn go_on(&mut self, event: &Event) -> Result<(), NoMemory>
        ensures { OnOk result (MoversOn event.now self.old self.new) }
    {
        let own = self.frozen_by_itself(event);
        keep_mover(&mut self.movers, own, event)?;
        keep_asked(&mut self.asked, event)?;
        keep_entered(&mut self.entered, event)?;
        keep_returned(&mut self.returned, event)
    }

    // Whether the process that an event freezes is so by its own call.
    fn frozen_by_itself(&self, event: &Event) -> bool
        ensures { result ≡ frozen_by_itself self.now event.now }
    {
        match event {
            Event::Freeze { pid } => self.moves_itself(*pid),
            _ => false,
        }
    }
}

fn mover_of(movers: &IndexMap<u64, Mover>, pid: u64) -> Mover
    ensures { result ≡ mover_of movers.now.entries pid }
{
    match movers.get(&pid) {
        Some(mover) => *mover,
        None => Mover {
            number: 0,
            is_frozen: false,
            is_evicted: false,
            stops: 0,
        },
    }
}

fn is_move_asked(asked: &IndexMap<CallAt, bool>, at: &CallAt) -> bool
    ensures { result ≡ is_move_asked (asked_at asked.now.entries at.now) }
{
    match asked.get(at) {
        Some(moves) => *moves,
        None => false,
    }
}

// Keeps what an event tells of its process; `own`: the one that is frozen is so by its own call.
fn keep_mover(movers: &mut IndexMap<u64, Mover>, own: bool, event: &Event) -> Result<(), NoMemory>
    ensures { OnOk result ((pid : ℕ) → mover_of movers.new.entries pid ≡ mover_behind own event.now pid (mover_of movers.old.entries pid)) }
{
    match event {
        Event::Issue { pid, number, .. } => {
            let at = u64::from(pid.number());
            let before = mover_of(movers, at);
            let stops = before.stops.checked_add(1).ok_or(NoMemory)?;
            let mover = Mover {
                number: *number,
                is_frozen: false,
                is_evicted: before.is_evicted,
                stops,
            };
            movers.insert(at, mover)?;
            Ok(())
        }
        Event::Freeze { pid } => {
            let at = u64::from(pid.number());
            let before = mover_of(movers, at);
            let stops = before.stops.checked_add(1).ok_or(NoMemory)?;
            let mover = Mover {
                number: before.number,
                is_frozen: true,
                is_evicted: !own,
                stops,
            };
            movers.insert(at, mover)?;
            Ok(())
        }
        _ => Ok(()),
    }
}

// Keeps whether a call that is issued moves its process, unless it is kept of that number.
fn keep_asked(asked: &mut IndexMap<CallAt, bool>, event: &Event) -> Result<(), NoMemory>
    ensures { OnOk result (AskedOn event.now asked.old.entries asked.new.entries) }
{
    let Event::Issue { pid, number, call } = event else {
        return Ok(());
    };
    let at = CallAt {
        pid: *pid,
        number: *number,
    };
    if asked.get(&at).is_none() {
        asked.insert(at, is_move(call))?;
    }
    Ok(())
}

// Whether a call moves its process.
fn is_move(call: &Call) -> bool
    ensures { result ≡ is_move call.now }
{
    match call {
        Call::Migrate { .. } | Call::Rexec { .. } => true,
        _ => false,
    }
}

// Keeps the call of an entry.
fn keep_entered(entered: &mut IndexSet<CallAt>, event: &Event) -> Result<(), NoMemory>
    ensures { OnOk result ((at : CallAt) → has_call entered.new.keys at ≡ (if is_entry_at at.pid at.number event.now then true else has_call entered.old.keys at)) }
{
    if let Event::Enter { entry } = event {
        entered.insert(CallAt {
            pid: entry.pid,
            number: entry.number,
        })?;
    }
    Ok(())
}

// Keeps a call that returns.
fn keep_returned(returned: &mut IndexSet<CallAt>, event: &Event) -> Result<(), NoMemory>
    ensures { OnOk result ((at : CallAt) → has_call returned.new.keys at ≡ (if is_return at.pid at.number event.now then true else has_call returned.old.keys at)) }
{
    if let Event::Return { pid, number, .. } = event {
        returned.insert(CallAt {
            pid: *pid,
            number: *number,
        })?;
    }
    Ok(())
}
