ghost use Rattle.std.specs.Prelude.{◌≡◌, ◌*◌, IfOk, count_by, length, nat_le};
ghost use Rattle.call_journal.specs.Matching.{has_event};
ghost use Rattle.call_journal.specs.WorthRecords.{are_moved_opens_few, is_any_freeze};
ghost use Rattle.trace_forms.specs.Openings.{openings_of};
ghost use Rattle.open_worth.specs.MovedOpens.{is_made_next, is_moved_open, moved_in};

use sprite_ids::NoMemory;
use trace_counts::added;
use unix_calls::{Description, Event, Rec, Stream};

/// Whether at most sixteen opens of the trace are those of moves, behind which no entry makes a stream of a file, for each freeze
/// (this project). `openings` tells of each record which stream of a file its entry makes. The one error is 2^64 such opens, which no
/// trace has.
pub fn moved_opens_are_few(
    c: &Description,
    trace: &[Rec],
    openings: &[Option<Stream>],
) -> Result<bool, NoMemory>
    requires { openings.now ≡ openings_of c.now trace.now }
    ensures { IfOk result (λ few. few ≡ are_moved_opens_few c.now trace.now) }
{
    let moved = moved_opens(trace, openings)?;
    let freezes = freezes(trace)?;
    Ok(are_few(moved, freezes))
}

fn are_few(moved: u64, freezes: u64) -> bool
    ensures { result ≡ nat_le moved (16 * freezes) }
{
    u128::from(moved) <= 16 * u128::from(freezes)
}

// How many opens are those of moves.
fn moved_opens(trace: &[Rec], openings: &[Option<Stream>]) -> Result<u64, NoMemory>
    requires { length openings.now ≡ length trace.now }
    ensures { IfOk result (λ count. count ≡ moved_in trace.now openings.now) }
{
    let mut count: u64 = 0;
    for (place, rec) in trace.iter().enumerate() {
        count = added(count, is_moved_open(&rec.event, &openings[place + 1..]))?;
    }
    Ok(count)
}

// Whether it is an open behind which no stream of a file is made.
fn is_moved_open(event: &Event, behind: &[Option<Stream>]) -> bool
    ensures { result ≡ is_moved_open event.now behind.now }
{
    match event {
        Event::Opened { .. } => !is_made_next(behind),
        _ => false,
    }
}

fn is_made_next(openings: &[Option<Stream>]) -> bool
    ensures { result ≡ is_made_next openings.now }
{
    match openings {
        [first, ..] => first.is_some(),
        [] => false,
    }
}

fn freezes(trace: &[Rec]) -> Result<u64, NoMemory>
    ensures { IfOk result (λ count. count ≡ count_by (has_event is_any_freeze) trace.now) }
{
    let mut count: u64 = 0;
    for rec in trace {
        count = added(count, is_any_freeze(&rec.event))?;
    }
    Ok(count)
}

fn is_any_freeze(event: &Event) -> bool
    ensures { result ≡ is_any_freeze event.now }
{
    match event {
        Event::Freeze { .. } => true,
        _ => false,
    }
}
