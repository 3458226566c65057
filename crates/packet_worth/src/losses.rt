ghost use Rattle.std.specs.Prelude.{◌≡◌, ◌+◌, [], IfOk, OnOk};
ghost use Rattle.packet_worth.specs.Losses.{MovesLosses, NoPackets, PutsAgain, PutsOnce, TellsLosses, has_loss_at, has_loss_since, loss_well, losses_are_met, may_expire, slots_lost};
ghost use Rattle.packet_worth.specs.Pairs.{slot_kept};
ghost use Rattle.packet_worth.specs.LossLaws.{losses_told, losses_told_on};

use crate::counts::number_count;
use crate::faults::{Packets, no_packets};
use crate::pairs::{Pair, Slot, pair_count, pair_of};
use indexmap::IndexMap;
use link_plan::Fate;
use sprite_ids::{Kernel, NoMemory, TxNo};
use std::alloc::Global;
use trace_rules::{LooksBack, each_keeps};
use unix_calls::{Description, Event, Rec};

/// Whether each try of the trace is over only where a packet was lost, since the request last went out, between two kernels between
/// which it went (this project). The one error is want of memory.
pub fn losses_are_met(alloc: Global, c: &Description, trace: &[Rec]) -> Result<bool, NoMemory>
    ensures { IfOk result (λ kept. kept ≡ losses_are_met c.now trace.now) }
{
    let mut judge = no_losses(alloc);
    each_keeps(alloc, c, &mut judge, trace)
}

/// A remote call, at the kernel that sends it (this project).
#[derive(Clone, Copy, Debug, PartialEq, Eq, Hash)]
pub(crate) struct Sender {
    pub(crate) kernel: Kernel,
    pub(crate) tx: TxNo,
}

/// How many packets were lost so far; the number of the last one between any two kernels; how many were lost when each remote call
/// last went out; and between which kernels it went (this project).
#[derive(Drop)]
pub(crate) struct Losses {
    pub(crate) packets: Packets,
    pub(crate) lost: u64,
    pub(crate) losses: IndexMap<Pair, u64>,
    pub(crate) sendings: IndexMap<Sender, u64>,
}

fn no_losses(alloc: Global) -> Losses
    ensures packets { NoPackets result.packets }
    ensures losses { result.losses.entries ≡ [] }
    ensures sendings { result.sendings.entries ≡ [] }
{
    Losses {
        packets: no_packets(alloc),
        lost: 0,
        losses: IndexMap::new(alloc),
        sendings: IndexMap::new(alloc),
    }
}

impl LooksBack for Losses {
    ghost test = { λ c past rec. loss_well past rec.kernel rec.event };

    ghost tells = { λ judge past. TellsLosses judge past.records };

    ghost fits = { λ c judge rec. may_expire judge rec.kernel rec.event };

    ghost goes_on = { λ rec old new. MovesLosses rec.kernel rec.event old new };

    fn fits(&self, _alloc: Global, _c: &Description, rec: &Rec) -> Result<bool, NoMemory> {
        match &rec.event {
            Event::Expire { tx, .. } => Ok(has_loss(self, tx, &sender_at(rec.kernel, tx))),
            _ => Ok(true),
        }
    }

    fn go_on(&mut self, alloc: Global, rec: &Rec) -> Result<(), NoMemory> {
        self.packets.go_on(alloc, rec)?;
        match &rec.event {
            Event::Send { tx, .. } => {
                put_once(&mut self.sendings, sender_at(rec.kernel, tx), self.lost)
            }
            Event::Expire { tx, last: false } => {
                put_again(&mut self.sendings, sender_at(rec.kernel, tx), self.lost)
            }
            Event::Fault {
                a,
                b,
                fate: Fate::Lost,
            } => {
                let lost = one_more(self.lost)?;
                self.losses.insert(pair_of(*a, *b), lost)?;
                self.lost = lost;
                Ok(())
            }
            _ => Ok(()),
        }
    }

    ghost is_told = { losses_told };

    ghost tells_on = { losses_told_on };
}

fn sender_at(kernel: Kernel, tx: &TxNo) -> Sender
    ensures { result ≡ record { kernel = kernel; tx = tx.now } }
{
    Sender { kernel, tx: *tx }
}

// Whether a packet was lost since the request last went out from its kernel.
fn has_loss(judge: &Losses, tx: &TxNo, at: &Sender) -> bool
    ensures { result ≡ has_loss_since judge.now tx.now at.now }
{
    match judge.sendings.get(at) {
        Some(sent) => {
            let count = number_count(&judge.packets.counts, tx);
            are_slots_lost(&judge.packets.slots, &judge.losses, tx, *sent, count)
        }
        None => false,
    }
}

// Whether one was, since so many, between the kernels of the first slots.
fn are_slots_lost(
    slots: &IndexMap<Slot, Pair>,
    losses: &IndexMap<Pair, u64>,
    tx: &TxNo,
    sent: u64,
    count: u64,
) -> bool
    ensures { result ≡ slots_lost slots.now.entries losses.now.entries tx.now sent count }
{
    let mut lost = false;
    for place in 0..count {
        let here = is_slot_lost(slots, losses, &Slot { tx: *tx, place }, sent);
        lost = lost || here;
    }
    lost
}

fn is_slot_lost(
    slots: &IndexMap<Slot, Pair>,
    losses: &IndexMap<Pair, u64>,
    slot: &Slot,
    sent: u64,
) -> bool
    ensures { result ≡ has_loss_at losses.now.entries sent (slot_kept slots.now.entries slot.now) }
{
    match slots.get(slot) {
        Some(pair) => sent < pair_count(losses, pair),
        None => false,
    }
}

// The request goes out for the first time.
fn put_once(sendings: &mut IndexMap<Sender, u64>, at: Sender, lost: u64) -> Result<(), NoMemory>
    ensures { OnOk result (PutsOnce at lost sendings.old.entries sendings.new.entries) }
{
    if sendings.get(&at).is_none() {
        sendings.insert(at, lost)?;
    }
    Ok(())
}

// It goes out again, if it went out.
fn put_again(sendings: &mut IndexMap<Sender, u64>, at: Sender, lost: u64) -> Result<(), NoMemory>
    ensures { OnOk result (PutsAgain at lost sendings.old.entries sendings.new.entries) }
{
    if sendings.get(&at).is_some() {
        sendings.insert(at, lost)?;
    }
    Ok(())
}

// One more. The one error is that there were 2^64, which no trace has.
fn one_more(count: u64) -> Result<u64, NoMemory>
    ensures { IfOk result (λ next. next ≡ count + 1) }
{
    count.checked_add(1).ok_or(NoMemory)
}
