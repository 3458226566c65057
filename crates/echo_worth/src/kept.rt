ghost use Rattle.std.specs.Prelude.{◌≡◌, ◌+◌, [], IfOk, OnOk};
ghost use Rattle.unix_calls.specs.Lawful.{Lawful};
ghost use Rattle.call_journal.specs.Past.{no_past};
ghost use Rattle.trace_places.specs.Places.{TellsPlaces};
ghost use Rattle.echo_worth.specs.Kept.{CountsSender, GivesUp, GivesUpSlot, KeepsEcho, NothingKept, PutsEcho, PutsLimited, PutsNamed, PutsOther, sender_count};

use crate::keys::{CallTo, EchoSlot, OtherAt, Sender};
use indexmap::{IndexMap, IndexSet};
use sprite_ids::NoMemory;
use std::alloc::Global;
use trace_places::{Place, boot_places};
use trace_tables::CallAt;
use unix_calls::Description;

/// What the records so far tell of echoes and broadcasts: where processes are; which calls that were issued go by names; which
/// packets of no stated kind went; which numbers have eight tries, and how many were over; which echoes went with each number; and
/// which were given up (this project).
#[derive(Drop)]
pub(crate) struct Kept {
    pub(crate) places: IndexMap<u64, Place>,
    pub(crate) named: IndexMap<CallAt, bool>,
    pub(crate) others: IndexSet<OtherAt>,
    pub(crate) limited: IndexSet<Sender>,
    pub(crate) expires: IndexMap<Sender, u64>,
    pub(crate) counts: IndexMap<Sender, u64>,
    pub(crate) slots: IndexMap<EchoSlot, CallTo>,
    pub(crate) given_up: IndexSet<CallTo>,
}

/// Nothing but where the processes begin. The one error is want of memory.
pub(crate) fn nothing_kept(alloc: Global, c: &Description) -> Result<Kept, NoMemory>
    requires { Lawful c.now }
    ensures nothing { IfOk result NothingKept }
    ensures places { IfOk result (λ kept. TellsPlaces kept.places.entries (no_past c.now).processes) }
{
    Ok(Kept {
        places: boot_places(alloc, c)?,
        named: IndexMap::new(alloc),
        others: IndexSet::new(alloc),
        limited: IndexSet::new(alloc),
        expires: IndexMap::new(alloc),
        counts: IndexMap::new(alloc),
        slots: IndexMap::new(alloc),
        given_up: IndexSet::new(alloc),
    })
}

/// Keeps whether the first issue of a call is of a name call.
pub(crate) fn put_named(
    named: &mut IndexMap<CallAt, bool>,
    call: CallAt,
    is_named: bool,
) -> Result<(), NoMemory>
    ensures { OnOk result (PutsNamed call is_named named.old.entries named.new.entries) }
{
    if named.get(&call).is_none() {
        named.insert(call, is_named)?;
    }
    Ok(())
}

/// How often it was counted.
pub(crate) fn sender_count(counts: &IndexMap<Sender, u64>, at: &Sender) -> u64
    ensures { result ≡ sender_count counts.now.entries at.now }
{
    match counts.get(at) {
        Some(count) => *count,
        None => 0,
    }
}

/// Counts it once more. The errors are want of memory, and 2^64, which no trace has.
pub(crate) fn count_sender(counts: &mut IndexMap<Sender, u64>, at: &Sender) -> Result<(), NoMemory>
    ensures { OnOk result (CountsSender at.now counts.old.entries counts.new.entries) }
{
    let more = sender_count(counts, at).checked_add(1).ok_or(NoMemory)?;
    counts.insert(*at, more)?;
    Ok(())
}

/// Keeps that the number has eight tries, if it has.
pub(crate) fn put_limited(
    limited: &mut IndexSet<Sender>,
    at: &Sender,
    is_limited: bool,
) -> Result<(), NoMemory>
    ensures { OnOk result (PutsLimited is_limited at.now limited.old.keys limited.new.keys) }
{
    if !is_limited {
        return Ok(());
    }
    limited.insert(*at)?;
    Ok(())
}

/// Keeps that a packet of no stated kind went there for the sake of the call.
pub(crate) fn put_other(others: &mut IndexSet<OtherAt>, one: OtherAt) -> Result<(), NoMemory>
    ensures { OnOk result (PutsOther one others.old.keys others.new.keys) }
{
    others.insert(one)?;
    Ok(())
}

/// Keeps a packet that went with that number, if it is an echo.
pub(crate) fn keep_echo(
    counts: &mut IndexMap<Sender, u64>,
    slots: &mut IndexMap<EchoSlot, CallTo>,
    at: &Sender,
    to: &CallTo,
    is_echo: bool,
) -> Result<(), NoMemory>
    ensures { OnOk result (KeepsEcho is_echo at.now to.now counts.old.entries slots.old.entries counts.new.entries slots.new.entries) }
{
    if !is_echo {
        return Ok(());
    }
    put_echo(counts, slots, at, to)
}

// A further echo goes with that number.
fn put_echo(
    counts: &mut IndexMap<Sender, u64>,
    slots: &mut IndexMap<EchoSlot, CallTo>,
    at: &Sender,
    to: &CallTo,
) -> Result<(), NoMemory>
    ensures { OnOk result (PutsEcho at.now to.now counts.old.entries slots.old.entries counts.new.entries slots.new.entries) }
{
    let slot = EchoSlot {
        at: *at,
        place: sender_count(counts, at),
    };
    slots.insert(slot, *to)?;
    count_sender(counts, at)
}

/// The echoes that went with that number are given up.
pub(crate) fn give_up(
    given_up: &mut IndexSet<CallTo>,
    slots: &IndexMap<EchoSlot, CallTo>,
    at: &Sender,
    count: u64,
) -> Result<(), NoMemory>
    ensures { OnOk result (GivesUp at.now count slots.now.entries given_up.old.keys given_up.new.keys) }
{
    for place in 0..count {
        give_up_slot(given_up, slots, &EchoSlot { at: *at, place })?;
    }
    Ok(())
}

// The echo of a slot is given up, if there is one.
fn give_up_slot(
    given_up: &mut IndexSet<CallTo>,
    slots: &IndexMap<EchoSlot, CallTo>,
    slot: &EchoSlot,
) -> Result<(), NoMemory>
    ensures { OnOk result (GivesUpSlot slot.now slots.now.entries given_up.old.keys given_up.new.keys) }
{
    match slots.get(slot) {
        Some(to) => {
            given_up.insert(*to)?;
            Ok(())
        }
        None => Ok(()),
    }
}
