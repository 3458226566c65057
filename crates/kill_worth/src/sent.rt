ghost use Rattle.std.specs.Prelude.{◌≡◌, [], OnOk};
ghost use Rattle.kill_worth.specs.Known.{AddsSent, PutsSent, SendsEach, SentOn, sent_count, sent_slot};

use crate::away::{Away, away_count, away_slot, one_more};
use crate::keys::{KillAt, RequestAt};
use crate::told::kill_sent;
use indexmap::IndexMap;
use sprite_ids::{Kernel, NoMemory};
use std::alloc::Global;
use unix_calls::Event;

/// The place of a process among those of whose kill one request tells (this project).
#[derive(Clone, Copy, Debug, PartialEq, Eq, Hash)]
pub(crate) struct RequestSlot {
    pub(crate) at: RequestAt,
    pub(crate) place: u64,
}

/// The processes of whose kills requests tell, by the requests (this project).
#[derive(Drop)]
pub(crate) struct Sent {
    /// Of how many processes' kills a request tells.
    pub(crate) counts: IndexMap<RequestAt, u64>,
    /// These, by their places among them.
    pub(crate) slots: IndexMap<RequestSlot, u64>,
}

/// None.
pub(crate) fn none_sent(alloc: Global) -> Sent
    ensures counts { result.counts.entries ≡ [] }
    ensures slots { result.slots.entries ≡ [] }
{
    Sent {
        counts: IndexMap::new(alloc),
        slots: IndexMap::new(alloc),
    }
}

/// Of how many processes' kills a request tells.
pub(crate) fn sent_count(sent: &Sent, at: &RequestAt) -> u64
    ensures { result ≡ sent_count sent.now.counts.entries at.now }
{
    match sent.counts.get(at) {
        Some(count) => *count,
        None => 0,
    }
}

/// The process at a place among them.
pub(crate) fn sent_slot(sent: &Sent, at: &RequestAt, place: u64) -> Option<u64>
    ensures { result ≡ sent_slot sent.now.slots.entries at.now place }
{
    sent.slots.get(&RequestSlot { at: *at, place }).copied()
}

/// Keeps of whose kills an event's request tells, by those that were killed before. The one error is want of memory.
pub(crate) fn keep_sent(
    sent: &mut Sent,
    away: &Away,
    kernel: Kernel,
    event: &Event,
) -> Result<(), NoMemory>
    ensures { OnOk result (SentOn kernel event.now away.now sent.old sent.new) }
{
    match event {
        Event::Send {
            tx,
            to,
            about: Some(about),
            ..
        } => {
            let kill = kill_sent(kernel, *to, about);
            let at = RequestAt {
                kernel: *to,
                tx: *tx,
            };
            send_each(sent, away, &kill, &at)
        }
        _ => Ok(()),
    }
}

fn send_each(sent: &mut Sent, away: &Away, kill: &KillAt, at: &RequestAt) -> Result<(), NoMemory>
    ensures { OnOk result (SendsEach away.now kill.now at.now sent.old sent.new) }
{
    let count = away_count(away, kill);
    for place in 0..count {
        if let Some(pid) = away_slot(away, kill, place) {
            add_sent(sent, at, pid)?;
        }
    }
    Ok(())
}

fn add_sent(sent: &mut Sent, at: &RequestAt, pid: u64) -> Result<(), NoMemory>
    ensures { OnOk result (AddsSent at.now pid sent.old sent.new) }
{
    put_sent(sent, at, pid)?;
    Ok(())
}

fn put_sent(sent: &mut Sent, at: &RequestAt, pid: u64) -> Result<(), NoMemory>
    ensures { OnOk result (PutsSent at.now pid sent.old sent.new) }
{
    let place = sent_count(sent, at);
    let count = one_more(place)?;
    sent.slots.insert(RequestSlot { at: *at, place }, pid)?;
    sent.counts.insert(*at, count)?;
    Ok(())
}
