ghost use Rattle.std.specs.Prelude.{◌≡◌, ◌+◌, [], IfOk, OnOk};
ghost use Rattle.kill_worth.specs.Known.{AddsAway, AwayOn, PutsAway, away_count, away_slot};

use crate::keys::KillAt;
use crate::kills::{Kills, first_away, killed_by};
use indexmap::IndexMap;
use sprite_ids::NoMemory;
use std::alloc::Global;
use unix_calls::Event;

/// The place of a process among those that one call killed while they were at one kernel (this project).
#[derive(Clone, Copy, Debug, PartialEq, Eq, Hash)]
pub(crate) struct KillSlot {
    pub(crate) at: KillAt,
    pub(crate) place: u64,
}

/// The processes that were away from their homes when they were killed, by the kills (this project).
#[derive(Drop)]
pub(crate) struct Away {
    /// How many processes were killed so.
    pub(crate) counts: IndexMap<KillAt, u64>,
    /// These, by their places among them.
    pub(crate) slots: IndexMap<KillSlot, u64>,
}

/// None.
pub(crate) fn none_away(alloc: Global) -> Away
    ensures counts { result.counts.entries ≡ [] }
    ensures slots { result.slots.entries ≡ [] }
{
    Away {
        counts: IndexMap::new(alloc),
        slots: IndexMap::new(alloc),
    }
}

/// How many processes were killed so.
pub(crate) fn away_count(away: &Away, at: &KillAt) -> u64
    ensures { result ≡ away_count away.now.counts.entries at.now }
{
    match away.counts.get(at) {
        Some(count) => *count,
        None => 0,
    }
}

/// The process at a place among them.
pub(crate) fn away_slot(away: &Away, at: &KillAt, place: u64) -> Option<u64>
    ensures { result ≡ away_slot away.now.slots.entries at.now place }
{
    away.slots.get(&KillSlot { at: *at, place }).copied()
}

/// Keeps the process that an event kills, by what was killed before. The one error is want of memory.
pub(crate) fn keep_away(away: &mut Away, kills: &Kills, event: &Event) -> Result<(), NoMemory>
    ensures { OnOk result (AwayOn kills.now event.now away.old away.new) }
{
    let Event::Enter { entry } = event else {
        return Ok(());
    };
    let Some(pid) = killed_by(entry) else {
        return Ok(());
    };
    match first_away(kills, entry, pid) {
        Some(kill) => add_away(away, &kill, pid),
        None => Ok(()),
    }
}

fn add_away(away: &mut Away, at: &KillAt, pid: u64) -> Result<(), NoMemory>
    ensures { OnOk result (AddsAway at.now pid away.old away.new) }
{
    put_away(away, at, pid)?;
    Ok(())
}

fn put_away(away: &mut Away, at: &KillAt, pid: u64) -> Result<(), NoMemory>
    ensures { OnOk result (PutsAway at.now pid away.old away.new) }
{
    let place = away_count(away, at);
    let count = one_more(place)?;
    away.slots.insert(KillSlot { at: *at, place }, pid)?;
    away.counts.insert(*at, count)?;
    Ok(())
}

/// One more. The one error is that there were 2^64, which no trace has.
pub(crate) fn one_more(count: u64) -> Result<u64, NoMemory>
    ensures { IfOk result (λ next. next ≡ count + 1) }
{
    count.checked_add(1).ok_or(NoMemory)
}
