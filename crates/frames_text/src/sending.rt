ghost use Rattle.std.specs.Prelude.{◌≡◌, ◌≤◌, ◌++◌, IfOk, OnOk, length, map};
ghost use Rattle.std.specs.List.{AllByRecursion};
ghost use Rattle.frames_text.specs.Parcels.{IsParcel, cut_of, cuts_from};
ghost use Rattle.frames_text.specs.Sending.{AreAsked, all_framed, arriving, frame_of, framed, in_time, later_arriving, now_arriving, too_late};

use crate::parcel::Parcel;
use link_plan::{Fate, Link};
use sprite_ids::{Bytes, Copying, Kernel, NoMemory};
use std::alloc::Global;
use wire_fragments::cut;

/// A frame that was sent, and its fate (this project).
#[derive(Drop)]
pub struct Sent {
    /// The kernel that sent it.
    pub from: Kernel,
    /// The kernel that it is for.
    pub to: Kernel,
    /// What became of it.
    pub fate: Fate,
    /// Its bytes.
    pub bytes: Bytes,
}

/// Cuts the packets, with the numbers from 1 on, and asks the link for the fate of each frame, in order. The one error is want of memory.
#[tactic(auto, using(crate::proofs::AskLaws::none_asked))]
pub(crate) fn send_all<L: Link>(
    alloc: Global,
    link: &mut L,
    parcels: &[Parcel],
) -> Result<Vec<Sent>, NoMemory>
    requires parcels { AllByRecursion IsParcel parcels.now }
    requires few { length parcels.now ≤ 65535 }
    ensures frames { IfOk result (λ sent. map frame_of sent.items ≡ all_framed (cuts_from 1 parcels.now)) }
    ensures over { IfOk result (λ sent. AreAsked L.faults L.asked link.old link.new sent.items) }
{
    let mut sent = Vec::new(alloc);
    let mut id = 1;
    for parcel in parcels {
        send_parcel(alloc, link, &mut sent, parcel, id)?;
        id += 1;
    }
    Ok(sent)
}

// Cuts a packet, and asks the link for the fate of each frame.
#[tactic(auto, using(crate::proofs::AskLaws::asked_more))]
fn send_parcel<L: Link>(
    alloc: Global,
    link: &mut L,
    sent: &mut Vec<Sent>,
    parcel: &Parcel,
    id: u32,
) -> Result<(), NoMemory>
    requires { IsParcel parcel.now }
    ensures frames { OnOk result (map frame_of sent.new.items ≡ map frame_of sent.old.items ++ framed (cut_of id parcel.now)) }
    ensures over { OnOk result ((before : L) → AreAsked L.faults L.asked before link.old sent.old.items → AreAsked L.faults L.asked before link.new sent.new.items) }
{
    let pieces = cut(alloc, parcel.from, parcel.to, id, parcel.bytes.as_slice())?;
    for piece in pieces {
        let fate = link.fate(parcel.from, parcel.to);
        sent.push(Sent {
            from: parcel.from,
            to: parcel.to,
            fate,
            bytes: piece,
        })?;
    }
    Ok(())
}

/// The frames that arrive, in order: those that are late behind all others. The one error is want of memory.
pub(crate) fn arriving(alloc: Global, sent: &[Sent]) -> Result<Vec<Bytes>, NoMemory>
    ensures { IfOk result (λ frames. frames.items ≡ arriving sent.now) }
{
    let mut frames = Vec::new(alloc);
    put_in_time(alloc, &mut frames, sent)?;
    put_too_late(alloc, &mut frames, sent)?;
    Ok(frames)
}

// Puts those that arrive in time.
fn put_in_time(alloc: Global, frames: &mut Vec<Bytes>, sent: &[Sent]) -> Result<(), NoMemory>
    ensures { OnOk result (frames.new.items ≡ frames.old.items ++ in_time sent.now) }
{
    for frame in sent {
        put_now(alloc, frames, frame)?;
    }
    Ok(())
}

// Puts what arrives of a frame at once.
fn put_now(alloc: Global, frames: &mut Vec<Bytes>, frame: &Sent) -> Result<(), NoMemory>
    ensures { OnOk result (frames.new.items ≡ frames.old.items ++ now_arriving frame.now.fate frame.now.bytes) }
{
    match frame.fate {
        Fate::Once => frames.push(frame.bytes.copy(alloc)?)?,
        Fate::Twice => {
            frames.push(frame.bytes.copy(alloc)?)?;
            frames.push(frame.bytes.copy(alloc)?)?;
        }
        Fate::Lost | Fate::Late => {}
    }
    Ok(())
}

// Puts those that arrive behind all others.
fn put_too_late(alloc: Global, frames: &mut Vec<Bytes>, sent: &[Sent]) -> Result<(), NoMemory>
    ensures { OnOk result (frames.new.items ≡ frames.old.items ++ too_late sent.now) }
{
    for frame in sent {
        put_later(alloc, frames, frame)?;
    }
    Ok(())
}

// Puts what arrives of a frame behind all others.
fn put_later(alloc: Global, frames: &mut Vec<Bytes>, frame: &Sent) -> Result<(), NoMemory>
    ensures { OnOk result (frames.new.items ≡ frames.old.items ++ later_arriving frame.now.fate frame.now.bytes) }
{
    if frame.fate == Fate::Late {
        frames.push(frame.bytes.copy(alloc)?)?;
    }
    Ok(())
}
