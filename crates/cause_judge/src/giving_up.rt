ghost use Rattle.std.specs.Prelude.{◌≡◌, count_by};
ghost use Rattle.std.specs.List.{list_any};
ghost use Rattle.unix_calls.specs.Lawful.{Lawful};
ghost use Rattle.call_journal.specs.Matching.{has_event, is_at, is_expire, is_loss, is_reply_from};
ghost use Rattle.call_journal.specs.Unreachable.{gave_up, is_given_up, lost_eight, may_give_up};
ghost use Rattle.cause_judge.specs.Causes.{ends_tries};

use crate::matching::{is_about, is_expire, is_last_expire, is_loss, is_reply_from};
use crate::serving::server_of;
use sprite_ids::{Kernel, TxNo};
use unix_calls::{Description, Entry, Event, Rec, SendKind};
use unix_world::begins_domain;

/// Whether an event of the kernel is a send for the sake of the entry's call that was given up in the records behind it.
pub(crate) fn is_given_up(
    c: &Description,
    kernel: Kernel,
    entry: &Entry,
    event: &Event,
    behind: &[Rec],
) -> bool
    requires lawful { Lawful c.now }
    ensures { result ≡ is_given_up c.now kernel entry.now.pid entry.now.number event.now behind.now }
{
    match event {
        Event::Send {
            tx,
            to,
            about,
            kind,
        } => {
            is_about(entry, about) && may_give_up(c, *to, kind) && gave_up(kernel, *tx, *to, behind)
        }
        _ => false,
    }
}

// Whether a send to that kernel may be given up: an echo, or the broadcast of a prefix that it serves.
fn may_give_up(c: &Description, to: Kernel, kind: &SendKind) -> bool
    requires lawful { Lawful c.now }
    ensures { result ≡ may_give_up c.now to kind.now }
{
    match kind {
        SendKind::Other => true,
        SendKind::Broadcast { prefix } => begins_domain(c, prefix) && server_of(c, prefix) == to,
        _ => false,
    }
}

// Whether a send was given up in the records behind it.
fn gave_up(kernel: Kernel, tx: TxNo, to: Kernel, behind: &[Rec]) -> bool
    ensures { result ≡ gave_up kernel tx.0 to behind.now }
{
    for (place, record) in behind.iter().enumerate() {
        if ends_tries(kernel, tx, to, &behind[..place], record) {
            return true;
        }
    }
    false
}

// Whether a record ends the eighth try of a send, the last one, and packets were lost in the records between the two.
fn ends_tries(kernel: Kernel, tx: TxNo, to: Kernel, between: &[Rec], rec: &Rec) -> bool
    ensures { result ≡ ends_tries kernel tx.0 to between.now rec.now }
{
    is_last_expire(kernel, tx, rec)
        && tries_over(kernel, tx, between) == 7
        && lost_eight(kernel, tx, to, between)
}

// How many tries of a send are over.
fn tries_over(kernel: Kernel, tx: TxNo, records: &[Rec]) -> usize
    ensures { result ≡ count_by (is_at kernel (is_expire tx.0)) records.now }
{
    records
        .iter()
        .filter(|record| is_expire(kernel, tx, record))
        .count()
}

// Whether eight packets between the two kernels were lost, and no reply to the send came.
fn lost_eight(kernel: Kernel, tx: TxNo, to: Kernel, between: &[Rec]) -> bool
    ensures { result ≡ lost_eight kernel tx.0 to between.now }
{
    losses(kernel, to, between) >= 8 && !was_answered(kernel, tx, to, between)
}

// How many packets between the two kernels were lost.
fn losses(kernel: Kernel, to: Kernel, records: &[Rec]) -> usize
    ensures { result ≡ count_by (has_event (is_loss kernel to)) records.now }
{
    records
        .iter()
        .filter(|record| is_loss(kernel, to, &record.event))
        .count()
}

// Whether a reply to the send came.
fn was_answered(kernel: Kernel, tx: TxNo, to: Kernel, records: &[Rec]) -> bool
    ensures { result ≡ list_any (is_at kernel (is_reply_from tx.0 to)) records.now }
{
    records
        .iter()
        .any(|record| is_reply_from(kernel, tx, to, record))
}
