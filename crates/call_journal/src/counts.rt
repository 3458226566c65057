ghost use Rattle.std.specs.Prelude.{◌≡◌, ◌<◌, IfSome, replicate};
ghost use Rattle.call_journal.specs.Counts.{tally_more};
ghost use Rattle.call_journal.specs.Units.{bytes_of_call, bytes_of_reply, data_of, units_of_event, kind_of};

use process_machine::{Call, Reply};
use unix_calls::{Entry, Event};

/// How many kinds of records there are.
pub const KINDS: usize = 21;

/// The units of some records, and how many of each kind there are.
#[derive(Clone, Copy, Debug)]
pub struct Tally {
    pub units: u64,
    pub counts: [u64; KINDS],
}

impl Tally {
    /// Of no records.
    pub fn new() -> Tally
        ensures units { result.units ≡ 0 }
        ensures counts { result.counts ≡ replicate 21 0 }
    {
        Tally {
            units: 0,
            counts: [0; KINDS],
        }
    }

    /// With one event more; None where a number is more than 64 bits tell.
    pub fn with(&self, event: &Event) -> Option<Tally>
        ensures { IfSome result (λ t. t ≡ tally_more self.now event.now) }
    {
        let kind = kind_of(event);
        let mut counts = self.counts;
        counts[kind] = counts[kind].checked_add(1)?;
        let units = self.units.checked_add(units_of_event(event)?)?;
        Some(Tally { units, counts })
    }
}

/// The place of an event's kind among the twenty-one, in the order in which they are counted.
fn kind_of(event: &Event) -> usize
    ensures kind { result ≡ kind_of event.now }
    ensures few { result < 21 }
{
    match event {
        Event::Burst { .. } => 0,
        Event::Issue { .. } => 1,
        Event::Enter { .. } => 2,
        Event::Return { .. } => 3,
        Event::Send { .. } => 4,
        Event::Fault { .. } => 5,
        Event::Deliver { .. } => 6,
        Event::Expire { .. } => 7,
        Event::Grant { .. } => 8,
        Event::Callback { .. } => 9,
        Event::Mode { .. } => 10,
        Event::Filled { .. } => 11,
        Event::Dropped { .. } => 12,
        Event::Dirtied { .. } => 13,
        Event::WroteBack { .. } => 14,
        Event::Opened { .. } => 15,
        Event::Closed { .. } => 16,
        Event::Shared { .. } => 17,
        Event::Learned { .. } => 18,
        Event::Freeze { .. } => 19,
        Event::Thaw { .. } => 20,
    }
}

/// How many bytes a call carries, its texts and names among them; None where they are more than a number of 64 bits tells.
fn bytes_of_call(call: &Call) -> Option<usize>
    ensures { IfSome result (λ n. n ≡ bytes_of_call call.now) }
{
    match call {
        Call::Print { bytes } | Call::Write { bytes, .. } => Some(bytes.len()),
        Call::PdPut { bytes, .. } | Call::Ioctl { bytes, .. } => Some(bytes.len()),
        Call::Exec { name, .. } | Call::Migrate { name } => Some(name.len()),
        Call::OpenFile { path, .. } | Call::List { path, .. } => Some(path.len()),
        Call::Stat { path } | Call::Mkdir { path } | Call::Rmdir { path } => Some(path.len()),
        Call::Unlink { path } | Call::Chdir { path } | Call::PdMake { path } => Some(path.len()),
        Call::Rename { old, new } => old.len().checked_add(new.len()),
        Call::Rexec { name, host } => name.len().checked_add(host.len()),
        _ => Some(0),
    }
}

/// How many bytes a reply carries.
fn bytes_of_reply(reply: &Reply) -> usize
    ensures { result ≡ bytes_of_reply reply.now }
{
    match reply {
        Reply::Value { bytes, .. } => bytes.len(),
        Reply::Error(_) => 0,
    }
}

/// The data of an entry in bytes: those of its call and of its reply; None where they are more than a number of 64 bits tells.
fn data_of(entry: &Entry) -> Option<usize>
    ensures { IfSome result (λ n. n ≡ data_of entry.now) }
{
    let asked = match &entry.call {
        Some(call) => bytes_of_call(call)?,
        None => 0,
    };
    let answered = match &entry.reply {
        Some(reply) => bytes_of_reply(reply),
        None => 0,
    };
    asked.checked_add(answered)
}

/// The units of an event: one, and one more for each 64 bytes, or part of 64, of an entry's data; None where they are more than a
/// number of 64 bits tells.
fn units_of_event(event: &Event) -> Option<u64>
    ensures { IfSome result (λ n. n ≡ units_of_event event.now) }
{
    let Event::Enter { entry } = event else {
        return Some(1);
    };
    let begun = data_of(entry)?.checked_add(63)? / 64;
    (begun as u64).checked_add(1)
}
