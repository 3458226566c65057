ghost use Rattle.std.specs.Prelude.{◌≡◌, [], IfOk, OnOk};
ghost use Rattle.packet_worth.specs.Faults.{faults_are_few, faults_well};
ghost use Rattle.packet_worth.specs.Pairs.{AddsEach, MovesOn, PutsSlot, ResendsOn, SendsOn, TellsPackets, may_fault};
ghost use Rattle.packet_worth.specs.PairLaws.{fault_told, packets_told_on};

use crate::counts::{count_number, number_count};
use crate::pairs::{Pair, Sent, Slot, add, pair_count, pair_of};
use indexmap::{IndexMap, IndexSet};
use sprite_ids::{NoMemory, TxNo};
use std::alloc::Global;
use trace_rules::{LooksBack, each_keeps};
use unix_calls::{Description, Event, Rec};

/// Whether the link makes no more faults between two kernels than packets went between them before: requests, the first and each
/// further time, and replies to those that were delivered (this project). The one error is want of memory.
pub fn faults_are_few(alloc: Global, c: &Description, trace: &[Rec]) -> Result<bool, NoMemory>
    ensures { IfOk result (λ kept. kept ≡ faults_are_few c.now trace.now) }
{
    let mut judge = no_packets(alloc);
    each_keeps(alloc, c, &mut judge, trace)
}

/// How many packets went and how many faults were made between any two kernels; how often each remote call was sent again, and
/// between which kernels it went (this project).
#[derive(Drop)]
pub(crate) struct Packets {
    pub(crate) packets: IndexMap<Pair, u64>,
    pub(crate) faults: IndexMap<Pair, u64>,
    pub(crate) resends: IndexMap<TxNo, u64>,
    pub(crate) sent: IndexSet<Sent>,
    pub(crate) counts: IndexMap<TxNo, u64>,
    pub(crate) slots: IndexMap<Slot, Pair>,
}

/// Nothing so far.
pub(crate) fn no_packets(alloc: Global) -> Packets
    ensures packets { result.packets.entries ≡ [] }
    ensures faults { result.faults.entries ≡ [] }
    ensures resends { result.resends.entries ≡ [] }
    ensures sent { result.sent.keys ≡ [] }
    ensures counts { result.counts.entries ≡ [] }
    ensures slots { result.slots.entries ≡ [] }
{
    Packets {
        packets: IndexMap::new(alloc),
        faults: IndexMap::new(alloc),
        resends: IndexMap::new(alloc),
        sent: IndexSet::new(alloc),
        counts: IndexMap::new(alloc),
        slots: IndexMap::new(alloc),
    }
}

impl LooksBack for Packets {
    ghost test = { λ c past rec. faults_well past rec.event };

    ghost tells = { λ judge past. TellsPackets judge past.records };

    ghost fits = { λ c judge rec. may_fault judge rec.event };

    ghost goes_on = { λ rec old new. MovesOn rec.kernel rec.event old new };

    fn fits(&self, _alloc: Global, _c: &Description, rec: &Rec) -> Result<bool, NoMemory> {
        match &rec.event {
            Event::Fault { a, b, .. } => {
                let pair = pair_of(*a, *b);
                Ok(pair_count(&self.faults, &pair) < pair_count(&self.packets, &pair))
            }
            _ => Ok(true),
        }
    }

    fn go_on(&mut self, _alloc: Global, rec: &Rec) -> Result<(), NoMemory> {
        match &rec.event {
            Event::Send { tx, to, .. } => send(self, tx, &pair_of(rec.kernel, *to)),
            Event::Expire { tx, last: false } => resend(self, tx),
            Event::Deliver {
                from,
                reply: false,
                ..
            } => add(&mut self.packets, &pair_of(rec.kernel, *from), 1),
            Event::Fault { a, b, .. } => add(&mut self.faults, &pair_of(*a, *b), 1),
            _ => Ok(()),
        }
    }

    ghost is_told = { fault_told };

    ghost tells_on = { packets_told_on };
}

// A remote call goes out between two kernels. Where it never went between them, its resends so far go there too.
fn send(judge: &mut Packets, tx: &TxNo, pair: &Pair) -> Result<(), NoMemory>
    ensures { OnOk result (SendsOn tx.now pair.now judge.old judge.new) }
{
    let sent = Sent {
        tx: *tx,
        pair: *pair,
    };
    if judge.sent.contains(&sent) {
        return add(&mut judge.packets, pair, 1);
    }
    let more = number_count(&judge.resends, tx)
        .checked_add(1)
        .ok_or(NoMemory)?;
    add(&mut judge.packets, pair, more)?;
    put_slot(&mut judge.counts, &mut judge.slots, tx, pair)?;
    judge.sent.insert(sent)?;
    Ok(())
}

// A further pair of a remote call.
fn put_slot(
    counts: &mut IndexMap<TxNo, u64>,
    slots: &mut IndexMap<Slot, Pair>,
    tx: &TxNo,
    pair: &Pair,
) -> Result<(), NoMemory>
    ensures { OnOk result (PutsSlot tx.now pair.now counts.old.entries slots.old.entries counts.new.entries slots.new.entries) }
{
    let slot = Slot {
        tx: *tx,
        place: number_count(counts, tx),
    };
    slots.insert(slot, *pair)?;
    count_number(counts, *tx)
}

// It goes out again, between all kernels between which it went.
fn resend(judge: &mut Packets, tx: &TxNo) -> Result<(), NoMemory>
    ensures { OnOk result (ResendsOn tx.now judge.old judge.new) }
{
    let count = number_count(&judge.counts, tx);
    count_number(&mut judge.resends, *tx)?;
    add_each(&mut judge.packets, &judge.slots, tx, count)
}

// One packet more for each of the first slots.
fn add_each(
    packets: &mut IndexMap<Pair, u64>,
    slots: &IndexMap<Slot, Pair>,
    tx: &TxNo,
    count: u64,
) -> Result<(), NoMemory>
    ensures { OnOk result (AddsEach tx.now count slots.now.entries packets.old.entries packets.new.entries) }
{
    for place in 0..count {
        if let Some(pair) = slots.get(&Slot { tx: *tx, place }) {
            add(packets, pair, 1)?;
        }
    }
    Ok(())
}
