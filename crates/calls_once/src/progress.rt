ghost use Rattle.std.specs.Prelude.{◌≡◌, IfOk};
ghost use Rattle.std.specs.Option.{option_map};
ghost use Rattle.call_journal.specs.Once.{progress_after, is_same_call, over_after, whole_of};
ghost use Rattle.calls_once.specs.Turns.{Gives, after_between, after_issued, after_asked, after_entered, entered_by, asked_by, done_by, death_by, progress_by, progress_by_call};

use process_machine::{Call, Reply};
use sprite_ids::{Copying, NoMemory};
use std::alloc::Global;
use unix_calls::{Entry, Event, Part};
use unix_run::{same_call, same_reply};

/// How far a process is with its calls (this project).
#[derive(Debug, Drop)]
pub(crate) enum CallProgress {
    /// So many calls have returned, and none is out.
    Between(u32),
    /// The call of that number is issued.
    Issued(u32, Call),
    /// It has gone to the master of a device.
    Asked(u32, Call),
    /// Its entry is made, with that reply.
    Entered(u32, Call, Reply),
    /// The process has ended.
    Over,
}

/// How far a process is after an event of its calls; None exactly where the event isn't in its turn. The one error is want of memory.
pub(crate) fn turn_after(
    alloc: Global,
    turn: &CallProgress,
    event: &Event,
) -> Result<Option<CallProgress>, NoMemory>
    ensures { Gives result (progress_after (progress_by turn.now) event.now) }
{
    match turn {
        CallProgress::Between(calls) => after_between(alloc, *calls, event),
        CallProgress::Issued(number, call) => after_issued(alloc, *number, call, event),
        CallProgress::Asked(number, call) => after_asked(alloc, *number, call, event),
        CallProgress::Entered(number, call, reply) => Ok(after_entered(
            *number, call, reply, event,
        )),
        CallProgress::Over => Ok(None),
    }
}

// Between two calls: the next one is issued, or the process dies.
fn after_between(alloc: Global, calls: u32, event: &Event) -> Result<Option<CallProgress>, NoMemory>
    ensures { Gives result (after_between calls event.now) }
{
    match event {
        Event::Issue { number, call, .. } => issued(alloc, calls, *number, call),
        Event::Enter { entry } => Ok(died(calls, entry)),
        _ => Ok(None),
    }
}

// The next call is issued, if it has the next number.
fn issued(
    alloc: Global,
    calls: u32,
    number: u32,
    call: &Call,
) -> Result<Option<CallProgress>, NoMemory>
    ensures { Gives result (progress_by_call calls number call.now) }
{
    if number == 0 || number - 1 != calls {
        return Ok(None);
    }
    Ok(Some(CallProgress::Issued(number, call.copy(alloc)?)))
}

// The process dies, if the entry has the number that would come next.
fn died(calls: u32, entry: &Entry) -> Option<CallProgress>
    ensures { option_map progress_by result ≡ death_by calls entry.now }
{
    if entry.number == 0 || entry.number - 1 != calls {
        return None;
    }
    match entry.part {
        Part::Death => Some(CallProgress::Over),
        _ => None,
    }
}

// A call is issued: its entry is made, or it goes to the master of a device.
fn after_issued(
    alloc: Global,
    number: u32,
    call: &Call,
    event: &Event,
) -> Result<Option<CallProgress>, NoMemory>
    ensures { Gives result (after_issued number call.now event.now) }
{
    match event {
        Event::Enter { entry } => entered(alloc, number, call, entry),
        _ => Ok(None),
    }
}

fn entered(
    alloc: Global,
    number: u32,
    call: &Call,
    entry: &Entry,
) -> Result<Option<CallProgress>, NoMemory>
    ensures { Gives result (entered_by number call.now entry.now) }
{
    if entry.number != number || !is_same_call(call, &entry.call) {
        return Ok(None);
    }
    match entry.part {
        Part::Whole => whole(alloc, number, call, &entry.reply),
        Part::Ask => asked(alloc, number, call, &entry.reply),
        _ => Ok(None),
    }
}

// The call's entry, with its reply.
fn whole(
    alloc: Global,
    number: u32,
    call: &Call,
    reply: &Option<Reply>,
) -> Result<Option<CallProgress>, NoMemory>
    ensures { Gives result (whole_of number call.now reply.now) }
{
    match reply {
        Some(reply) => {
            let call = call.copy(alloc)?;
            Ok(Some(CallProgress::Entered(number, call, reply.copy(alloc)?)))
        }
        None => Ok(None),
    }
}

// The call goes to a master; it has no reply so far.
fn asked(
    alloc: Global,
    number: u32,
    call: &Call,
    reply: &Option<Reply>,
) -> Result<Option<CallProgress>, NoMemory>
    ensures { Gives result (asked_by number call.now reply.now) }
{
    match reply {
        Some(_) => Ok(None),
        None => Ok(Some(CallProgress::Asked(number, call.copy(alloc)?))),
    }
}

// A call has gone to a master: its answer comes.
fn after_asked(
    alloc: Global,
    number: u32,
    call: &Call,
    event: &Event,
) -> Result<Option<CallProgress>, NoMemory>
    ensures { Gives result (after_asked number call.now event.now) }
{
    match event {
        Event::Enter { entry } => done(alloc, number, call, entry),
        _ => Ok(None),
    }
}

fn done(
    alloc: Global,
    number: u32,
    call: &Call,
    entry: &Entry,
) -> Result<Option<CallProgress>, NoMemory>
    ensures { Gives result (done_by number call.now entry.now) }
{
    if entry.number != number || !is_same_call(call, &entry.call) {
        return Ok(None);
    }
    match entry.part {
        Part::Done => whole(alloc, number, call, &entry.reply),
        _ => Ok(None),
    }
}

// A call's entry is made: it returns.
fn after_entered(number: u32, call: &Call, reply: &Reply, event: &Event) -> Option<CallProgress>
    ensures { option_map progress_by result ≡ after_entered number call.now reply.now event.now }
{
    match event {
        Event::Return {
            number: other,
            reply: given,
            ..
        } => {
            if *other != number || !same_reply(reply, given) {
                return None;
            }
            Some(over_after(call, number))
        }
        _ => None,
    }
}

// Behind the return of an exit or a bad step the process has ended.
fn over_after(call: &Call, number: u32) -> CallProgress
    ensures { progress_by result ≡ over_after call.now number }
{
    match call {
        Call::Exit { .. } => CallProgress::Over,
        Call::BadStep => CallProgress::Over,
        _ => CallProgress::Between(number),
    }
}

// Whether it is that call.
fn is_same_call(call: &Call, other: &Option<Call>) -> bool
    ensures { result ≡ is_same_call call.now other.now }
{
    match other {
        Some(other) => same_call(call, other),
        None => false,
    }
}
