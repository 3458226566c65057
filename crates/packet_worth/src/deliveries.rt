ghost use Rattle.std.specs.Prelude.{◌≡◌, [], IfOk, OnOk};
ghost use Rattle.std.specs.List.{list_all};
ghost use Rattle.call_journal.specs.WorthPackets.{deliveries_are_few};
ghost use Rattle.packet_worth.specs.Counts.{Counted, TotalsOn, delivered_way, is_few_in, way_is_few};

use crate::counts::{Way, count_number, count_way, number_count, way_count};
use indexmap::IndexMap;
use sprite_ids::{Kernel, NoMemory, TxNo};
use std::alloc::Global;
use unix_calls::{Event, Rec};

/// Whether the packets of each remote call are delivered at most six times at each receiver for each time that it went out: two
/// copies of a request, and two of the reply to each, the request delivered (this project). The one error is want of memory.
pub fn deliveries_are_few(alloc: Global, trace: &[Rec]) -> Result<bool, NoMemory>
    ensures { IfOk result (λ kept. kept ≡ deliveries_are_few trace.now) }
{
    let totals = totals_of(alloc, trace)?;
    all_are_few(&totals, trace)
}

/// How often the packets of each remote call were delivered at each receiver, or came from it as replies; how often it was sent to
/// each; and how many of its tries were over (this project).
#[derive(Drop)]
pub(crate) struct Totals {
    pub(crate) delivered: IndexMap<Way, u64>,
    pub(crate) sent: IndexMap<Way, u64>,
    pub(crate) expired: IndexMap<TxNo, u64>,
}

fn no_totals(alloc: Global) -> Totals
    ensures delivered { result.delivered.entries ≡ [] }
    ensures sent { result.sent.entries ≡ [] }
    ensures expired { result.expired.entries ≡ [] }
{
    Totals {
        delivered: IndexMap::new(alloc),
        sent: IndexMap::new(alloc),
        expired: IndexMap::new(alloc),
    }
}

// The totals of a trace. The one error is want of memory.
fn totals_of(alloc: Global, trace: &[Rec]) -> Result<Totals, NoMemory>
    ensures { IfOk result (λ totals. Counted totals trace.now) }
{
    let mut totals = no_totals(alloc);
    for rec in trace {
        count(&mut totals, rec)?;
    }
    Ok(totals)
}

// Counts one record. The one error is want of memory.
fn count(totals: &mut Totals, rec: &Rec) -> Result<(), NoMemory>
    ensures { OnOk result (TotalsOn rec.now totals.old totals.new) }
{
    match &rec.event {
        Event::Deliver {
            tx,
            from,
            reply,
            ..
        } => count_way(&mut totals.delivered, way_of(rec.kernel, tx, from, *reply)),
        Event::Send { tx, to, .. } => {
            count_way(
                &mut totals.sent,
                Way {
                    tx: *tx,
                    receiver: *to,
                },
            )
        }
        Event::Expire { tx, .. } => count_number(&mut totals.expired, *tx),
        _ => Ok(()),
    }
}

// The way of a packet that is delivered at a kernel: a reply comes from its receiver.
fn way_of(kernel: Kernel, tx: &TxNo, from: &Kernel, reply: bool) -> Way
    ensures { result ≡ delivered_way kernel tx.now from.now reply }
{
    Way {
        tx: *tx,
        receiver: if reply { *from } else { kernel },
    }
}

// Whether the deliveries on each way of the trace are few, by the totals. The one error is want of memory.
fn all_are_few(totals: &Totals, trace: &[Rec]) -> Result<bool, NoMemory>
    ensures { IfOk result (λ kept. kept ≡ list_all (is_few_in totals.now) trace.now) }
{
    for rec in trace {
        if !is_few(totals, rec)? {
            return Ok(false);
        }
    }
    Ok(true)
}

fn is_few(totals: &Totals, rec: &Rec) -> Result<bool, NoMemory>
    ensures { IfOk result (λ few. few ≡ is_few_in totals.now rec.now) }
{
    match &rec.event {
        Event::Deliver {
            tx,
            from,
            reply,
            ..
        } => way_is_few(totals, &way_of(rec.kernel, tx, from, *reply)),
        _ => Ok(true),
    }
}

// At most six deliveries for each time that it went out. The one error is that the product is 2^64 or more, which no trace does.
fn way_is_few(totals: &Totals, way: &Way) -> Result<bool, NoMemory>
    ensures { IfOk result (λ few. few ≡ way_is_few totals.now way.now) }
{
    let sent = way_count(&totals.sent, way);
    let sendings = sent
        .checked_add(number_count(&totals.expired, &way.tx))
        .ok_or(NoMemory)?;
    let most = sendings.checked_mul(6).ok_or(NoMemory)?;
    Ok(way_count(&totals.delivered, way) <= most)
}
