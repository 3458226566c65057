ghost use Rattle.std.specs.Prelude.{◌≡◌, ◌≤◌, ◌++◌, ◌||◌, codes, IfOk, OnOk, length};
ghost use Rattle.std.specs.Fmt.{decimal};
ghost use Rattle.std.specs.List.{AllByRecursion};
ghost use Rattle.wire_fragments.specs.Runs.{gives, is_given};
ghost use Rattle.wire_fragments.specs.declared.MessageId.{MessageId as Name};
ghost use Rattle.frames_text.specs.Parcels.{IsParcel, cuts_from};
ghost use Rattle.frames_text.specs.Reports.{AreSent, has, packet_line, report};

use crate::parcel::Parcel;
use crate::sending::{arriving, send_all};
use indexmap::IndexSet;
use link_plan::Link;
use sprite_ids::NoMemory;
use std::alloc::Global;
use wire_fragments::{Gathered, MessageId, gather_all};

/// How many messages may be in part at a time.
const ROOM: u16 = 65_535;

/// Sends the packets in frames over the link, each with the number of its place, counted from 1, and gathers the frames that arrive: one
/// that meets no fault arrives once, one that is late behind all others (this project).
///
/// What comes back is a line for each packet, `packet N whole` or `packet N lost`. Each frame asks the link once, in order. No more
/// frames between two kernels meet a fault, and no more packets between them are lost, than the link's count of their faults
/// rises. The one error is want of memory.
pub fn send_parcels<L: Link>(
    alloc: Global,
    link: &mut L,
    parcels: &[Parcel],
) -> Result<Vec<u8>, NoMemory>
    requires parcels { AllByRecursion IsParcel parcels.now }
    requires few { length parcels.now ≤ 65535 }
    ensures { IfOk result (λ lines. AreSent L.faults L.asked link.old link.new (cuts_from 1 parcels.now) lines.items) }
{
    let sent = send_all(alloc, link, parcels)?;
    let frames = arriving(alloc, sent.as_slice())?;
    let answers = gather_all(alloc, ROOM, frames.as_slice())?;
    let given = names_given(alloc, answers.as_slice())?;
    let lines = report(alloc, parcels, &given)?;
    Ok(lines)
}

// The names of the messages that are given.
fn names_given(alloc: Global, answers: &[Gathered]) -> Result<IndexSet<MessageId>, NoMemory>
    ensures { IfOk result (λ given. (name : Name) → has given.keys name ≡ is_given answers.now name) }
{
    let mut given = IndexSet::new(alloc);
    for answer in answers {
        note(&mut given, answer)?;
    }
    Ok(given)
}

// Notes the message that an answer gives.
fn note(given: &mut IndexSet<MessageId>, answer: &Gathered) -> Result<(), NoMemory>
    ensures { OnOk result ((name : Name) → has given.new.keys name ≡ (gives name answer.now || has given.old.keys name)) }
{
    if let Gathered::Whole { from, to, id, .. } = answer {
        given.insert(MessageId {
            from: *from,
            to: *to,
            id: *id,
        })?;
    }
    Ok(())
}

// The line of each packet.
fn report(
    alloc: Global,
    parcels: &[Parcel],
    given: &IndexSet<MessageId>,
) -> Result<Vec<u8>, NoMemory>
    requires { length parcels.now ≤ 65535 }
    ensures { IfOk result (λ lines. lines.items ≡ report (has given.now.keys) (cuts_from 1 parcels.now)) }
{
    let mut lines = Vec::new(alloc);
    let mut id = 1;
    for parcel in parcels {
        let name = MessageId {
            from: parcel.from,
            to: parcel.to,
            id,
        };
        put_line(alloc, &mut lines, id, is_given(given, &name))?;
        id += 1;
    }
    Ok(lines)
}

// Whether the message of that name is given.
fn is_given(given: &IndexSet<MessageId>, name: &MessageId) -> bool
    ensures { result ≡ has given.now.keys name.now }
{
    given.contains(name)
}

// Puts the line of a packet.
fn put_line(alloc: Global, out: &mut Vec<u8>, id: u32, whole: bool) -> Result<(), NoMemory>
    ensures { OnOk result (out.new.items ≡ out.old.items ++ packet_line id whole) }
{
    let digits = format!(in alloc; "{id}")?;
    out.extend_from_slice(b"packet ")?;
    out.extend_from_slice(digits.as_bytes())?;
    if whole {
        out.extend_from_slice(b" whole\n")?;
    } else {
        out.extend_from_slice(b" lost\n")?;
    }
    Ok(())
}
