ghost use Rattle.std.specs.Prelude.{◌≡◌, [], not, IfOk, OnOk};
ghost use Rattle.call_journal.specs.Formed.{is_for_a_call, same_broadcast};
ghost use Rattle.call_journal.specs.Matching.{is_once, same_about};
ghost use Rattle.trace_forms.specs.Parts.{packets_are_formed};
ghost use Rattle.trace_forms.specs.Packets.{KeepsPacket, KeepsSend, PutsDelivery, PutsFirst, about_agrees_in, is_carried_in, is_from_in, is_new_receiver, is_next_in, is_sent_in, is_told_alike, is_told_in, packet_fits};

use crate::places::{FrozenAt, Receiver};
use indexmap::{IndexMap, IndexSet};
use link_plan::Fate;
use sprite_ids::{Copying, Kernel, NoMemory, Pid, TxNo};
use std::alloc::Global;
use unix_calls::{About, Description, Event, Rec, SendKind};

/// Whether the packets of a trace are written as they should be: a request's first sending to each receiver, of which only a
/// broadcast has several; deliveries of what was sent, about the call for whose sake it went; tries that are over, of requests that
/// went out; and faults (this project). The one error is want of memory.
pub fn packets_are_formed(alloc: Global, c: &Description, trace: &[Rec]) -> Result<bool, NoMemory>
    ensures { IfOk result (λ kept. kept ≡ packets_are_formed c.now trace.now) }
{
    let mut packets = Packets::new(alloc);
    for rec in trace {
        if !fits(&packets, rec) {
            return Ok(false);
        }
        go_on(alloc, &mut packets, rec)?;
    }
    Ok(true)
}

/// The first sending of a request (this project).
#[derive(Drop)]
pub(crate) struct FirstSend {
    pub(crate) kernel: Kernel,
    pub(crate) about: Option<About>,
    pub(crate) kind: SendKind,
}

/// What the records so far tell of packets: the first sending of each number, and its receivers; what the first delivery of a number
/// is about; which processes each kernel froze; and the number of each process's last issue (this project).
#[derive(Drop)]
pub(crate) struct Packets {
    pub(crate) sends: IndexMap<u32, FirstSend>,
    pub(crate) receivers: IndexSet<Receiver>,
    pub(crate) deliveries: IndexMap<u32, Option<About>>,
    pub(crate) frozen: IndexSet<FrozenAt>,
    pub(crate) issues: IndexMap<Pid, u32>,
}

impl Packets {
    fn new(alloc: Global) -> Packets
        ensures sends { result.sends.entries ≡ [] }
        ensures receivers { result.receivers.keys ≡ [] }
        ensures deliveries { result.deliveries.entries ≡ [] }
        ensures frozen { result.frozen.keys ≡ [] }
        ensures issues { result.issues.entries ≡ [] }
    {
        Packets {
            sends: IndexMap::new(alloc),
            receivers: IndexSet::new(alloc),
            deliveries: IndexMap::new(alloc),
            frozen: IndexSet::new(alloc),
            issues: IndexMap::new(alloc),
        }
    }
}

// Whether a record's packet is written as it should be.
fn fits(packets: &Packets, rec: &Rec) -> bool
    ensures { result ≡ packet_fits packets.now rec.now.kernel rec.now.event }
{
    let kernel = rec.kernel;
    match &rec.event {
        Event::Send {
            tx,
            to,
            about,
            kind,
        } => is_for_a_call(kind, about) && is_new(packets, kernel, *tx, *to, about, kind),
        Event::Deliver {
            tx,
            from,
            reply,
            about,
        } => {
            let (sender, to) = if *reply {
                (kernel, *from)
            } else {
                (*from, kernel)
            };
            is_sent(packets, sender, *tx, to, about) && is_told_alike(packets, *tx, about)
        }
        Event::Expire { tx, .. } => is_from(packets, *tx, kernel),
        Event::Fault { fate, .. } => !matches!(fate, Fate::Once),
        _ => true,
    }
}

// An operation and a broadcast go for the sake of a call.
fn is_for_a_call(kind: &SendKind, about: &Option<About>) -> bool
    ensures { result ≡ is_for_a_call kind.now about.now }
{
    match kind {
        SendKind::Op { .. } => about.is_some(),
        SendKind::Broadcast { .. } => about.is_some(),
        _ => true,
    }
}

// Whether a send is the first one of its number to that receiver, and a broadcast where there are others.
fn is_new(
    packets: &Packets,
    kernel: Kernel,
    tx: TxNo,
    to: Kernel,
    about: &Option<About>,
    kind: &SendKind,
) -> bool
    ensures { result ≡ is_new_receiver packets.now kernel tx.0 to about.now kind.now }
{
    match packets.sends.get(&tx.0) {
        Some(first) => {
            first.kernel == kernel
                && !packets.receivers.contains(&Receiver { tx: tx.0, to })
                && same_broadcast(kind, &first.kind)
                && same_about(about, &first.about)
        }
        None => true,
    }
}

// Whether the same prefix is asked for.
fn same_broadcast(kind: &SendKind, other: &SendKind) -> bool
    ensures { result ≡ same_broadcast kind.now other.now }
{
    match (kind, other) {
        (SendKind::Broadcast { prefix }, SendKind::Broadcast { prefix: other }) => {
            prefix.parts() == other.parts()
        }
        _ => false,
    }
}

// The same call, or none.
fn same_about(about: &Option<About>, other: &Option<About>) -> bool
    ensures { result ≡ same_about about.now other.now }
{
    match (about, other) {
        (None, None) => true,
        (Some(about), Some(other)) => about.pid == other.pid && about.number == other.number,
        _ => false,
    }
}

// Whether a request of that number went from the sender to that kernel, for what the delivery is about.
fn is_sent(packets: &Packets, sender: Kernel, tx: TxNo, to: Kernel, about: &Option<About>) -> bool
    ensures { result ≡ is_sent_in packets.now sender tx.0 to about.now }
{
    match packets.sends.get(&tx.0) {
        Some(first) => {
            first.kernel == sender
                && packets.receivers.contains(&Receiver { tx: tx.0, to })
                && about_agrees(packets, sender, &first.kind, about, &first.about)
        }
        None => false,
    }
}

// What a delivery is about, by the kind of its sending.
fn about_agrees(
    packets: &Packets,
    sender: Kernel,
    kind: &SendKind,
    about: &Option<About>,
    sent: &Option<About>,
) -> bool
    ensures { result ≡ about_agrees_in packets.now sender kind.now about.now sent.now }
{
    match kind {
        SendKind::Op { .. } => same_about(about, sent),
        SendKind::Other => is_told(packets, sender, about, sent),
        _ => about.is_none(),
    }
}

// A packet of no stated kind is about the call of its sending, about none, or about one that it carries.
fn is_told(packets: &Packets, sender: Kernel, about: &Option<About>, sent: &Option<About>) -> bool
    ensures { result ≡ is_told_in packets.now sender about.now sent.now }
{
    match (about, sent) {
        (None, _) => true,
        (Some(about), Some(sent)) => about.pid == sent.pid && about.number == sent.number,
        (Some(about), None) => is_carried(packets, sender, about),
    }
}

// Whether a packet carries that process or tells of its death.
fn is_carried(packets: &Packets, sender: Kernel, about: &About) -> bool
    ensures { result ≡ is_carried_in packets.now sender about.now }
{
    let frozen = FrozenAt {
        kernel: sender,
        pid: about.pid,
    };
    packets.frozen.contains(&frozen) || is_next(&packets.issues, about)
}

// Whether the call has the number behind the process's last one.
fn is_next(issues: &IndexMap<Pid, u32>, about: &About) -> bool
    ensures { result ≡ is_next_in issues.now.entries about.now }
{
    match issues.get(&about.pid) {
        Some(number) => u64::from(about.number) == u64::from(*number) + 1,
        None => about.number == 1,
    }
}

// Whether the deliveries of a number so far are about the same call.
fn is_told_alike(packets: &Packets, tx: TxNo, about: &Option<About>) -> bool
    ensures { result ≡ is_told_alike packets.now.deliveries.entries tx.0 about.now }
{
    match packets.deliveries.get(&tx.0) {
        Some(first) => same_about(about, first),
        None => true,
    }
}

// Whether requests of that number went out from the kernel.
fn is_from(packets: &Packets, tx: TxNo, kernel: Kernel) -> bool
    ensures { result ≡ is_from_in packets.now.sends.entries tx.0 kernel }
{
    match packets.sends.get(&tx.0) {
        Some(first) => first.kernel == kernel,
        None => false,
    }
}

// Keeps what a record tells. The one error is want of memory; a part may be kept then.
fn go_on(alloc: Global, packets: &mut Packets, rec: &Rec) -> Result<(), NoMemory>
    ensures { OnOk result (KeepsPacket rec.now packets.old packets.new) }
{
    match &rec.event {
        Event::Send {
            tx,
            to,
            about,
            kind,
        } => keep_send(alloc, packets, rec.kernel, *tx, *to, about, kind),
        Event::Deliver { tx, about, .. } => put_delivery(&mut packets.deliveries, *tx, about),
        Event::Freeze { pid } => {
            packets.frozen.insert(FrozenAt {
                kernel: rec.kernel,
                pid: *pid,
            })?;
            Ok(())
        }
        Event::Issue { pid, number, .. } => {
            packets.issues.insert(*pid, *number)?;
            Ok(())
        }
        _ => Ok(()),
    }
}

// Keeps a send.
fn keep_send(
    alloc: Global,
    packets: &mut Packets,
    kernel: Kernel,
    tx: TxNo,
    to: Kernel,
    about: &Option<About>,
    kind: &SendKind,
) -> Result<(), NoMemory>
    ensures { OnOk result (KeepsSend kernel tx.0 to about.now kind.now packets.old packets.new) }
{
    let first = FirstSend {
        kernel,
        about: *about,
        kind: kind.copy(alloc)?,
    };
    put_first(&mut packets.sends, tx.0, first)?;
    packets.receivers.insert(Receiver { tx: tx.0, to })?;
    Ok(())
}

// Puts it there, unless there is one.
fn put_first(
    sends: &mut IndexMap<u32, FirstSend>,
    tx: u32,
    first: FirstSend,
) -> Result<(), NoMemory>
    ensures { OnOk result (PutsFirst sends.old.entries tx first sends.new.entries) }
{
    if sends.get(&tx).is_none() {
        sends.insert(tx, first)?;
    }
    Ok(())
}

// Puts it there, unless there is one.
fn put_delivery(
    deliveries: &mut IndexMap<u32, Option<About>>,
    tx: TxNo,
    about: &Option<About>,
) -> Result<(), NoMemory>
    ensures { OnOk result (PutsDelivery deliveries.old.entries tx.0 about.now deliveries.new.entries) }
{
    if deliveries.get(&tx.0).is_none() {
        deliveries.insert(tx.0, *about)?;
    }
    Ok(())
}
