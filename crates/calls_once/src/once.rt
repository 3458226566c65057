ghost use Rattle.std.specs.Prelude.{◌≡◌, ◌↔◌, IsTrue, IfOk};
ghost use Rattle.call_journal.specs.Once.{Once, progress_after};
ghost use Rattle.calls_once.specs.Passes.{Advances, Goes, caller_of, turn_in};
ghost use Rattle.calls_once.specs.Turns.{Gives};

use crate::progress::{CallProgress, turn_after};
use indexmap::IndexMap;
use sprite_ids::{NoMemory, Pid};
use std::alloc::Global;
use unix_calls::{Event, Rec};

/// Whether each call of the trace is issued, entered and returned once, in this order, by one pass over the records (this project).
///
/// The calls of a process are numbered 1, 2 and so on; a process that ends has no event of its calls any more. The one error is
/// want of memory.
pub fn calls_are_once(alloc: Global, trace: &[Rec]) -> Result<bool, NoMemory>
    ensures { IfOk result (λ once. IsTrue once ↔ Once trace.now) }
{
    let mut turns = IndexMap::new(alloc);
    for record in trace {
        if !go_on(alloc, &mut turns, &record.event)? {
            return Ok(false);
        }
    }
    Ok(true)
}

// Moves the turn of the process on of whose calls the event is one; false where the event isn't in its turn.
fn go_on(
    alloc: Global,
    turns: &mut IndexMap<Pid, CallProgress>,
    event: &Event,
) -> Result<bool, NoMemory>
    ensures { IfOk result (λ made. Goes turns.old.entries event.now made turns.new.entries) }
{
    match caller_of(event) {
        Some(pid) => advance(alloc, turns, pid, event),
        None => Ok(true),
    }
}

// The process of whose calls the event is one, if it is any.
fn caller_of(event: &Event) -> Option<Pid>
    ensures { result ≡ caller_of event.now }
{
    match event {
        Event::Issue { pid, .. } => Some(*pid),
        Event::Enter { entry } => Some(entry.pid),
        Event::Return { pid, .. } => Some(*pid),
        _ => None,
    }
}

// Moves the process's turn on by an event of its calls; false, and nothing changes, where the event isn't in its turn.
fn advance(
    alloc: Global,
    turns: &mut IndexMap<Pid, CallProgress>,
    pid: Pid,
    event: &Event,
) -> Result<bool, NoMemory>
    ensures { IfOk result (λ made. Advances turns.old.entries pid event.now made turns.new.entries) }
{
    match next_turn(alloc, turns, pid, event)? {
        Some(turn) => {
            turns.insert(pid, turn)?;
            Ok(true)
        }
        None => Ok(false),
    }
}

// The process's turn after an event of its calls.
fn next_turn(
    alloc: Global,
    turns: &IndexMap<Pid, CallProgress>,
    pid: Pid,
    event: &Event,
) -> Result<Option<CallProgress>, NoMemory>
    ensures { Gives result (progress_after (turn_in turns.now.entries pid) event.now) }
{
    match turns.get(&pid) {
        Some(turn) => turn_after(alloc, turn, event),
        None => turn_after(alloc, &CallProgress::Between(0), event),
    }
}
