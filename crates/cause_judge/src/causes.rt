ghost use Rattle.std.specs.Prelude.{◌≡◌};
ghost use Rattle.unix_calls.specs.Lawful.{Lawful};
ghost use Rattle.call_journal.specs.Past.{some_then};
ghost use Rattle.call_journal.specs.Unreachable.{is_unreachable_entry, unreachable_for_cause};
ghost use Rattle.call_journal.specs.Calls.{error_in, is_unreachable_error};
ghost use Rattle.cause_judge.specs.Causes.{is_cause, keeps_behind};

use crate::giving_up::is_given_up;
use process_machine::Reply;
use sprite_ids::{Errno, Kernel};
use unix_calls::{Description, Entry, Event, Part, Rec};

/// Whether each entry of the trace that calls a server unreachable has a cause: earlier at the same kernel, a send for the sake of that
/// call was given up, after eight lost packets and with no reply (this project).
///
/// Such a send is looked for from the entry back, so that an entry with a cause costs the way back to it.
pub fn are_for_cause(c: &Description, trace: &[Rec]) -> bool
    requires lawful { Lawful c.now }
    ensures { result ≡ unreachable_for_cause c.now trace.now }
{
    for (place, record) in trace.iter().enumerate() {
        if !keeps_cause(c, &trace[..place], record) {
            return false;
        }
    }
    true
}

// Whether a record keeps the rule that stands behind these.
fn keeps_cause(c: &Description, before: &[Rec], rec: &Rec) -> bool
    requires lawful { Lawful c.now }
    ensures { result ≡ keeps_behind c.now before.now rec.now.kernel rec.now.event }
{
    match &rec.event {
        Event::Enter { entry } => {
            !is_unreachable_entry(entry) || has_cause(c, before, rec.kernel, entry)
        }
        _ => true,
    }
}

// Whether an entry calls a server unreachable.
fn is_unreachable_entry(entry: &Entry) -> bool
    ensures { result ≡ is_unreachable_entry entry.now }
{
    entry.part == Part::Whole && is_unreachable(&entry.reply)
}

fn is_unreachable(reply: &Option<Reply>) -> bool
    ensures { result ≡ is_unreachable_error (error_in reply.now) }
{
    matches!(reply, Some(Reply::Error(Errno::Unreachable)))
}

// Whether one of the records before an entry of the kernel is its cause, looked for from the last one back.
fn has_cause(c: &Description, before: &[Rec], kernel: Kernel, entry: &Entry) -> bool
    requires lawful { Lawful c.now }
    ensures { result ≡ some_then (is_cause c.now kernel entry.now.pid entry.now.number) before.now }
{
    let mut place = before.len();
    while place > 0 {
        place -= 1;
        if is_cause(c, kernel, entry, &before[place], &before[place + 1..]) {
            return true;
        }
    }
    false
}

// Whether a record of the kernel is a send for the sake of the entry's call that was given up in those behind it.
fn is_cause(c: &Description, kernel: Kernel, entry: &Entry, rec: &Rec, behind: &[Rec]) -> bool
    requires lawful { Lawful c.now }
    ensures { result ≡ is_cause c.now kernel entry.now.pid entry.now.number rec.now behind.now }
{
    rec.kernel == kernel && is_given_up(c, kernel, entry, &rec.event, behind)
}
