ghost use Rattle.std.specs.Prelude.{◌≡◌, IfOk, OnOk};
ghost use Rattle.unix_calls.specs.Lawful.{Lawful};
ghost use Rattle.kill_worth.specs.Known.{BeginsKnowledge, KeepsKnowledge, KnownOn, MeetsEach, MeetsOne, TakenOn, is_placed};

use crate::away::{Away, keep_away, none_away};
use crate::keys::{KnownAt, RequestAt};
use crate::kills::{Kills, keep_kills, no_kills};
use crate::sent::{Sent, keep_sent, none_sent, sent_count, sent_slot};
use indexmap::{IndexMap, IndexSet};
use sprite_ids::{Kernel, NoMemory};
use std::alloc::Global;
use trace_places::Place;
use unix_calls::{Description, Event, Rec};

/// What kernels know of kills (this project).
#[derive(Drop)]
pub(crate) struct Knowledge {
    /// The kills that were entered, and where the processes are.
    pub(crate) kills: Kills,
    /// The processes that were killed while they were away.
    pub(crate) away: Away,
    /// Of which kills requests tell.
    pub(crate) sent: Sent,
    /// The requests that were taken.
    pub(crate) taken: IndexSet<RequestAt>,
    /// The processes whose kills are known.
    pub(crate) known: IndexSet<KnownAt>,
}

/// Nothing. The one error is want of memory.
pub(crate) fn no_knowledge(alloc: Global, c: &Description) -> Result<Knowledge, NoMemory>
    requires { Lawful c.now }
    ensures { IfOk result (BeginsKnowledge c.now) }
{
    let kills = no_kills(alloc, c)?;
    Ok(Knowledge {
        kills,
        away: none_away(alloc),
        sent: none_sent(alloc),
        taken: IndexSet::new(alloc),
        known: IndexSet::new(alloc),
    })
}

/// Keeps what a record tells. The one error is want of memory; a part may be kept then.
pub(crate) fn keep_knowledge(judge: &mut Knowledge, rec: &Rec) -> Result<(), NoMemory>
    ensures { OnOk result (KeepsKnowledge rec.now.kernel rec.now.event judge.old judge.new) }
{
    keep_known(
        &mut judge.known,
        &judge.taken,
        &judge.sent,
        &judge.kills.places,
        rec,
    )?;
    keep_taken(&mut judge.taken, rec)?;
    keep_sent(&mut judge.sent, &judge.away, rec.kernel, &rec.event)?;
    keep_away(&mut judge.away, &judge.kills, &rec.event)?;
    keep_kills(&mut judge.kills, rec)
}

fn keep_taken(taken: &mut IndexSet<RequestAt>, rec: &Rec) -> Result<(), NoMemory>
    ensures { OnOk result (TakenOn rec.now.kernel rec.now.event taken.old.keys taken.new.keys) }
{
    if let Event::Deliver {
        tx,
        reply: false,
        ..
    } = &rec.event
    {
        taken.insert(RequestAt {
            kernel: rec.kernel,
            tx: *tx,
        })?;
    }
    Ok(())
}

fn keep_known(
    known: &mut IndexSet<KnownAt>,
    taken: &IndexSet<RequestAt>,
    sent: &Sent,
    places: &IndexMap<u64, Place>,
    rec: &Rec,
) -> Result<(), NoMemory>
    ensures { OnOk result (KnownOn rec.now.kernel rec.now.event taken.now.keys sent.now places.now.entries known.old.keys known.new.keys) }
{
    match &rec.event {
        Event::Deliver {
            tx,
            reply: false,
            ..
        } => {
            let at = RequestAt {
                kernel: rec.kernel,
                tx: *tx,
            };
            if taken.contains(&at) {
                return Ok(());
            }
            meet_each(known, sent, places, &at)
        }
        _ => Ok(()),
    }
}

// The kills of which a request tells are known of the processes that are at the kernel.
fn meet_each(
    known: &mut IndexSet<KnownAt>,
    sent: &Sent,
    places: &IndexMap<u64, Place>,
    at: &RequestAt,
) -> Result<(), NoMemory>
    ensures { OnOk result (MeetsEach sent.now places.now.entries at.now known.old.keys known.new.keys) }
{
    let count = sent_count(sent, at);
    for place in 0..count {
        if let Some(pid) = sent_slot(sent, at, place) {
            meet(known, places, at.kernel, pid)?;
        }
    }
    Ok(())
}

fn meet(
    known: &mut IndexSet<KnownAt>,
    places: &IndexMap<u64, Place>,
    kernel: Kernel,
    pid: u64,
) -> Result<(), NoMemory>
    ensures { OnOk result (MeetsOne places.now.entries kernel pid known.old.keys known.new.keys) }
{
    if is_placed(places, kernel, pid) {
        known.insert(KnownAt { kernel, pid })?;
    }
    Ok(())
}

// Whether the process is at the kernel, and not on its way.
fn is_placed(places: &IndexMap<u64, Place>, kernel: Kernel, pid: u64) -> bool
    ensures { result ≡ is_placed places.now.entries kernel pid }
{
    match places.get(&pid) {
        Some(place) => !place.moving && place.kernel == kernel,
        None => false,
    }
}
