ghost use Rattle.std.specs.Prelude.{◌≡◌, ◌*◌, IfOk, count_by, nat_le};
ghost use Rattle.call_journal.specs.Matching.{has_event};
ghost use Rattle.call_journal.specs.WorthSends.{are_free_sends_few, is_free_send, is_occasion};

use sprite_ids::NoMemory;
use trace_counts::added;
use unix_calls::{Event, Rec, SendKind};

/// Whether at most 64 packets go for the sake of no call, writing back no block, for each callback, freeze, thaw and entry of the
/// trace (this project). The one error is 2^64 records, which no trace has.
pub fn free_sends_are_few(trace: &[Rec]) -> Result<bool, NoMemory>
    ensures { IfOk result (λ few. few ≡ are_free_sends_few trace.now) }
{
    let free = free_sends(trace)?;
    let occasions = occasions(trace)?;
    Ok(are_few(free, occasions))
}

fn are_few(free: u64, occasions: u64) -> bool
    ensures { result ≡ nat_le free (64 * occasions) }
{
    u128::from(free) <= 64 * u128::from(occasions)
}

fn free_sends(trace: &[Rec]) -> Result<u64, NoMemory>
    ensures { IfOk result (λ count. count ≡ count_by (has_event is_free_send) trace.now) }
{
    let mut count: u64 = 0;
    for rec in trace {
        count = added(count, is_free_send(&rec.event))?;
    }
    Ok(count)
}

fn occasions(trace: &[Rec]) -> Result<u64, NoMemory>
    ensures { IfOk result (λ count. count ≡ count_by (has_event is_occasion) trace.now) }
{
    let mut count: u64 = 0;
    for rec in trace {
        count = added(count, is_occasion(&rec.event))?;
    }
    Ok(count)
}

fn is_free_send(event: &Event) -> bool
    ensures { result ≡ is_free_send event.now }
{
    match event {
        Event::Send {
            about: None,
            kind: SendKind::WriteBack { .. },
            ..
        } => false,
        Event::Send { about: None, .. } => true,
        _ => false,
    }
}

fn is_occasion(event: &Event) -> bool
    ensures { result ≡ is_occasion event.now }
{
    match event {
        Event::Callback { .. } => true,
        Event::Freeze { .. } => true,
        Event::Thaw { .. } => true,
        Event::Enter { .. } => true,
        _ => false,
    }
}
