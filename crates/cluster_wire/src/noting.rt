ghost use Rattle.std.specs.Prelude.{◌≡◌, ◌++◌, ◌∷◌, [], None, OnOk};
ghost use Rattle.cluster_wire.specs.Noted.{faulted, faulted_all, is_of, is_own, left_after, noted_all, noted_one, packet_of, untold, without_faults};

use crate::telling::Sent;
use link_plan::Fate;
use sprite_ids::{Items, Kernel, NoMemory};
use unix_calls::Event;

/// Tells the fault of a packet from one kernel to another, where the link made one. The one error is want of memory.
pub fn note_fault(
    told: &mut Items<Event>,
    from: Kernel,
    to: Kernel,
    fate: Fate,
) -> Result<(), NoMemory>
    ensures { OnOk result (told.new ≡ faulted from to fate told.old) }
{
    if fate == Fate::Once {
        return Ok(());
    }
    told.push(Event::Fault {
        a: from,
        b: to,
        fate,
    })
}

/// Tells the faults of the kernel's packets to these. The one error is want of memory.
pub fn note_faults(
    told: &mut Items<Event>,
    kernel: Kernel,
    fates: &[(Kernel, Fate)],
) -> Result<(), NoMemory>
    ensures { OnOk result (told.new ≡ faulted_all kernel fates.now told.old) }
{
    for packet in fates {
        note_fault(told, kernel, packet.0, packet.1)?;
    }
    Ok(())
}

/// Tells all that the kernel did, which takes it out of the list, beside the packets that went out: each sending is directly followed by
/// its packet's fault, where the link made one. The one error is want of memory; it is also the answer where a packet isn't told or a
/// sending finds no packet, which never comes, since the kernel tells its sendings in the order in which its packets go out; and where
/// the kernel tells of a burst, a timer, a packet that comes or a fault, which no kernel does.
pub fn note_all(
    told: &mut Items<Event>,
    kernel: Kernel,
    events: &mut Items<Event>,
    sent: &[Sent],
) -> Result<(), NoMemory>
    ensures told { OnOk result (told.new ≡ noted_all kernel events.old sent.now told.old) }
    ensures whole { OnOk result (untold events.old sent.now ≡ []) }
    ensures all { OnOk result (without_faults told.new ≡ without_faults told.old ++ events.old) }
{
    let mut left = sent;
    'events: while !events.is_empty() {
        let event = events.remove(0);
        let rest = left_after(&event, left);
        note_one(told, kernel, event, left)?;
        left = rest;
    }
    if !left.is_empty() {
        return Err(NoMemory);
    }
    Ok(())
}

// Tells one thing that the kernel did.
#[tactic(auto, using(crate::proofs::NotedLaws::packet_told))]
fn note_one(
    told: &mut Items<Event>,
    kernel: Kernel,
    event: Event,
    sent: &[Sent],
) -> Result<(), NoMemory>
    ensures told { OnOk result (told.new ≡ noted_one kernel event (packet_of event sent.now) told.old) }
    ensures all { OnOk result (without_faults told.new ≡ without_faults told.old ++ event ∷ []) }
{
    match packet_of(&event, sent) {
        Some(packet) => {
            told.push(event)?;
            note_fault(told, kernel, packet.to, packet.fate)
        }
        None => note_own(told, kernel, event),
    }
}

// Tells what the kernel alone tells. Want of memory is also the answer where it isn't the kernel that tells it.
#[tactic(auto, using(crate::proofs::NotedLaws::own_told))]
fn note_own(told: &mut Items<Event>, kernel: Kernel, event: Event) -> Result<(), NoMemory>
    ensures told { OnOk result (told.new ≡ noted_one kernel event None told.old) }
    ensures all { OnOk result (without_faults told.new ≡ without_faults told.old ++ event ∷ []) }
{
    if is_own(&event) {
        return told.push(event);
    }
    Err(NoMemory)
}

// Whether the kernel alone tells that.
fn is_own(event: &Event) -> bool
    ensures { result ≡ is_own event.now }
{
    match event {
        Event::Burst { .. }
        | Event::Send { .. }
        | Event::Deliver { .. }
        | Event::Expire { .. }
        | Event::Fault { .. } => false,
        _ => true,
    }
}

// Whether the event tells that this packet went out.
fn is_of(event: &Event, packet: Sent) -> bool
    ensures { result ≡ is_of event.now packet }
{
    match event {
        Event::Send { tx, to, .. } => packet.tx == *tx && packet.to == *to,
        _ => false,
    }
}

// The packet that went out next, where the event tells of it.
fn packet_of(event: &Event, sent: &[Sent]) -> Option<Sent>
    ensures { result ≡ packet_of event.now sent.now }
{
    match sent {
        [packet, ..] if is_of(event, *packet) => Some(*packet),
        _ => None,
    }
}

// The packets that are left behind the event.
fn left_after<'a>(event: &Event, sent: &'a [Sent]) -> &'a [Sent]
    ensures { result.now ≡ left_after event.now sent.now }
{
    match sent {
        [packet, rest @ ..] if is_of(event, *packet) => rest,
        _ => sent,
    }
}
