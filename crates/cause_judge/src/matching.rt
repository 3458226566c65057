ghost use Rattle.std.specs.Prelude.{◌≡◌};
ghost use Rattle.call_journal.specs.Matching.{is_about, is_at, is_expire, is_last_expire, is_loss, is_pair, is_reply_from};

use link_plan::Fate;
use sprite_ids::{Kernel, TxNo};
use unix_calls::{About, Entry, Event, Rec};

/// Whether a packet goes for the sake of the entry's call.
pub(crate) fn is_about(entry: &Entry, about: &Option<About>) -> bool
    ensures { result ≡ is_about entry.now.pid entry.now.number about.now }
{
    match about {
        Some(about) => about.pid == entry.pid && about.number == entry.number,
        None => false,
    }
}

/// Whether a record of the kernel says that a try of that send is over.
pub(crate) fn is_expire(kernel: Kernel, tx: TxNo, rec: &Rec) -> bool
    ensures { result ≡ is_at kernel (is_expire tx.0) rec.now }
{
    match rec.event {
        Event::Expire { tx: other, .. } => rec.kernel == kernel && other == tx,
        _ => false,
    }
}

/// Whether a record of the kernel says that the last try of that send is over.
pub(crate) fn is_last_expire(kernel: Kernel, tx: TxNo, rec: &Rec) -> bool
    ensures { result ≡ is_at kernel (is_last_expire tx.0) rec.now }
{
    match rec.event {
        Event::Expire { tx: other, last } => rec.kernel == kernel && other == tx && last,
        _ => false,
    }
}

/// Whether a record of the kernel takes a reply of that send, from that kernel.
pub(crate) fn is_reply_from(kernel: Kernel, tx: TxNo, from: Kernel, rec: &Rec) -> bool
    ensures { result ≡ is_at kernel (is_reply_from tx.0 from) rec.now }
{
    match rec.event {
        Event::Deliver {
            tx: other,
            from: sender,
            reply,
            ..
        } => rec.kernel == kernel && reply && other == tx && sender == from,
        _ => false,
    }
}

/// Whether the link lost a packet between the two kernels.
pub(crate) fn is_loss(one: Kernel, other: Kernel, event: &Event) -> bool
    ensures { result ≡ is_loss one other event.now }
{
    match event {
        Event::Fault { a, b, fate } => is_pair(*a, *b, one, other) && *fate == Fate::Lost,
        _ => false,
    }
}

// Whether the first two kernels are the others, in one order or the other.
fn is_pair(a: Kernel, b: Kernel, one: Kernel, other: Kernel) -> bool
    ensures { result ≡ is_pair a b one other }
{
    (a == one && b == other) || (a == other && b == one)
}
