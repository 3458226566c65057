ghost use Rattle.std.specs.Prelude.{◌≡◌, IfOk, OnOk};
ghost use Rattle.unix_calls.specs.Lawful.{Lawful};
ghost use Rattle.call_journal.specs.WorthKills.{killed_by};
ghost use Rattle.kill_worth.specs.Kills.{BeginsKills, KeepsKills, KillsOn, away_from, first_away, kill_kept};

use crate::keys::KillAt;
use indexmap::{IndexMap, IndexSet};
use process_machine::{Call, Reply};
use sprite_ids::{Kernel, NoMemory, Pid};
use std::alloc::Global;
use trace_places::{Place, boot_places, keep_place};
use unix_calls::{Description, Entry, Event, Rec};

/// Where each process is, and the processes of which a kill was entered so far, by their numbers (this project).
#[derive(Drop)]
pub(crate) struct Kills {
    pub(crate) places: IndexMap<u64, Place>,
    pub(crate) killed: IndexSet<u64>,
}

/// Each process is at its home, and none is killed. The one error is want of memory.
pub(crate) fn no_kills(alloc: Global, c: &Description) -> Result<Kills, NoMemory>
    requires { Lawful c.now }
    ensures { IfOk result (BeginsKills c.now) }
{
    let places = boot_places(alloc, c)?;
    Ok(Kills {
        places,
        killed: IndexSet::new(alloc),
    })
}

/// The process that an entry kills, by its number.
pub(crate) fn killed_by(entry: &Entry) -> Option<u64>
    ensures { result ≡ killed_by entry.now.call entry.now.reply }
{
    match &entry.call {
        Some(Call::Kill { pid }) => match &entry.reply {
            Some(Reply::Value { .. }) => Some(*pid),
            _ => None,
        },
        _ => None,
    }
}

/// Where an entry's kill of that process is to be told: nowhere if it isn't the first one, or the process is at its home or on its
/// way.
pub(crate) fn first_away(kills: &Kills, entry: &Entry, pid: u64) -> Option<KillAt>
    ensures { result ≡ first_away kills.now entry.now pid }
{
    if kills.killed.contains(&pid) {
        return None;
    }
    match kills.places.get(&pid) {
        Some(place) => away_from(entry, pid, place),
        None => None,
    }
}

// The same of one that is at that place.
fn away_from(entry: &Entry, pid: u64, place: &Place) -> Option<KillAt>
    ensures { result ≡ away_from entry.now pid place.now }
{
    let home = pid / 1000;
    if place.moving || u64::from(place.kernel.number()) == home {
        return None;
    }
    Some(KillAt {
        home,
        to: place.kernel,
        pid: entry.pid,
        number: entry.number,
    })
}

/// Where the kill of an event is to be told.
pub(crate) fn kill_kept(kills: &Kills, event: &Event) -> Option<KillAt>
    ensures { result ≡ kill_kept kills.now event.now }
{
    match event {
        Event::Enter { entry } => match killed_by(entry) {
            Some(pid) => first_away(kills, entry, pid),
            None => None,
        },
        _ => None,
    }
}

/// Keeps what a record tells. The one error is want of memory.
pub(crate) fn keep_kills(kills: &mut Kills, rec: &Rec) -> Result<(), NoMemory>
    ensures { OnOk result (KeepsKills rec.now.kernel rec.now.event kills.old kills.new) }
{
    keep_place(&mut kills.places, rec.kernel, &rec.event)?;
    keep_killed(&mut kills.killed, &rec.event)
}

fn keep_killed(killed: &mut IndexSet<u64>, event: &Event) -> Result<(), NoMemory>
    ensures { OnOk result (KillsOn event.now killed.old.keys killed.new.keys) }
{
    let Event::Enter { entry } = event else {
        return Ok(());
    };
    if let Some(pid) = killed_by(entry) {
        killed.insert(pid)?;
    }
    Ok(())
}
