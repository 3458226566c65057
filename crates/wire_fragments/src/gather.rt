ghost use Rattle.std.specs.Prelude.{◌≡◌, ◌≤◌, ◌<◌, true, IfOk, OnOk, OnErr, length};
ghost use Rattle.indexmap.specs.IndexMap.{insert_entry};
ghost use Rattle.wire_fragments.specs.Gathering.{after, answer_to, awaits_at, empty_gather, first_piece, is_message, pieces_at, plan_of, progress_of, whole};
ghost use Rattle.wire_fragments.specs.Pieces.{with_frame};
ghost use Rattle.wire_fragments.specs.declared.progress.Progress.TheVariants.{Given as IsGiven, InPart};

use crate::gathered::Gathered;
use crate::head::{HEAD, Head, MessageId, head_of};
use crate::plan::Plan;
use crate::progress::Progress;
use indexmap::IndexMap;
use sprite_ids::{Bytes, NoMemory};
use std::alloc::Global;
use std::marker::Model;

/// The messages of which frames have come (this project). It keeps at most so many in part as it has room for, and knows
/// each that it gave.
///
/// Gathering a message takes time in proportion to its bytes. A message in part takes 1,488 bytes and a bit for each of its
/// frames.
#[derive(Drop)]
pub struct Gather {
    room: u16,
    messages: IndexMap<MessageId, Progress>,
    in_part: usize,
}

impl Model for Gather {
    ghost use Rattle.std.specs.Prelude.{◌≡◌};
    ghost use Rattle.wire_fragments.specs.Gathering.{Gathering, count_kept};

    ghost Value = { Gathering };

    ghost view = { λ gather. record { room = gather.room; messages = gather.messages.entries } };

    ghost invariant = { λ gather. gather.in_part ≡ count_kept gather.messages.entries };
}

impl Gather {
    /// Nothing has come, and there is room for so many messages in part. It takes no memory.
    pub fn new(alloc: Global, room: u16) -> Gather
        requires { 1 ≤ room }
        ensures { result ≡ empty_gather room }
    {
        Gather {
            room,
            messages: IndexMap::new(alloc),
            in_part: 0,
        }
    }

    /// Takes a frame. After want of memory, the one error, all is as before.
    pub fn take(&mut self, alloc: Global, frame: &[u8]) -> Result<Gathered, NoMemory>
        ensures answer { IfOk result (λ answer. answer ≡ answer_to self.old frame.now) }
        ensures ok { OnOk result (self.new ≡ after self.old frame.now) }
        ensures err { OnErr result (self.new ≡ self.old) }
    {
        let Some(head) = head_of(frame) else {
            return Ok(Gathered::Bad);
        };
        let piece = &frame[HEAD..];
        match self.plan(&head) {
            Plan::Known => Ok(Gathered::Known),
            Plan::Differs(kept) => Ok(Gathered::Differs(kept, head.count)),
            Plan::Full => Ok(Gathered::Full(self.room)),
            Plan::Alone => give_alone(&mut self.messages, alloc, &head.message, piece),
            Plan::First => {
                keep_first(&mut self.messages, alloc, &head, piece)?;
                self.in_part += 1;
                Ok(Gathered::Kept)
            }
            Plan::Next => {
                keep_next(&mut self.messages, &head, piece)?;
                Ok(Gathered::Kept)
            }
            Plan::Last => {
                let message = give_last(&mut self.messages, &head, piece)?;
                self.in_part -= 1;
                Ok(whole(&head.message, message))
            }
        }
    }

    // What becomes of a frame with that head.
    fn plan(&self, head: &Head) -> Plan
        ensures { result ≡ plan_of self.now head.now }
    {
        match self.messages.get(&head.message) {
            None if head.count == 1 => Plan::Alone,
            None if self.in_part >= usize::from(self.room) => Plan::Full,
            None => Plan::First,
            Some(Progress::Given) => Plan::Known,
            Some(Progress::InPart(part)) => part.plan(head),
        }
    }
}

// The answer that gives a message.
fn whole(name: &MessageId, message: Bytes) -> Gathered
    ensures { result ≡ whole name.now message }
{
    Gathered::Whole {
        from: name.from,
        to: name.to,
        id: name.id,
        message,
    }
}

// Gives a message of one frame.
fn give_alone(
    messages: &mut IndexMap<MessageId, Progress>,
    alloc: Global,
    name: &MessageId,
    piece: &[u8],
) -> Result<Gathered, NoMemory>
    ensures answer { IfOk result (λ answer. answer ≡ whole name.now piece.now) }
    ensures ok { OnOk result (messages.new.entries ≡ insert_entry is_message messages.old.entries name.now IsGiven) }
    ensures err { OnErr result (messages.new.entries ≡ messages.old.entries) }
{
    let message = Bytes::of_slice(alloc, piece)?;
    messages.insert(*name, Progress::Given)?;
    Ok(whole(name, message))
}

// Keeps the first frame that comes of a message.
fn keep_first(
    messages: &mut IndexMap<MessageId, Progress>,
    alloc: Global,
    head: &Head,
    piece: &[u8],
) -> Result<(), NoMemory>
    requires within { head.now.index < head.now.count }
    requires short { length piece.now ≤ 1488 }
    ensures ok { OnOk result (messages.new.entries ≡ insert_entry is_message messages.old.entries head.now.message (first_piece head.now piece.now)) }
    ensures err { OnErr result (messages.new.entries ≡ messages.old.entries) }
{
    let progress = Progress::first(alloc, head, piece)?;
    messages.insert(head.message, progress)?;
    Ok(())
}

// Keeps a further frame of a message.
fn keep_next(
    messages: &mut IndexMap<MessageId, Progress>,
    head: &Head,
    piece: &[u8],
) -> Result<(), NoMemory>
    requires missing { awaits_at (progress_of messages.old.entries head.now.message) head.now.index ≡ true }
    requires short { length piece.now ≤ 1488 }
    ensures ok { OnOk result (messages.new.entries ≡ insert_entry is_message messages.old.entries head.now.message (InPart (with_frame (pieces_at (progress_of messages.old.entries head.now.message)) head.now.index piece.now))) }
    ensures err { OnErr result (messages.new.entries ≡ messages.old.entries) }
{
    let Some(progress) = messages.get_mut(&head.message) else {
        return Ok(());
    };
    progress.keep(head.index, piece)
}

// Gives a message with the last frame that was missing.
fn give_last(
    messages: &mut IndexMap<MessageId, Progress>,
    head: &Head,
    piece: &[u8],
) -> Result<Bytes, NoMemory>
    requires missing { awaits_at (progress_of messages.old.entries head.now.message) head.now.index ≡ true }
    requires short { length piece.now ≤ 1488 }
    ensures message { IfOk result (λ message. message ≡ (with_frame (pieces_at (progress_of messages.old.entries head.now.message)) head.now.index piece.now).bytes) }
    ensures ok { OnOk result (messages.new.entries ≡ insert_entry is_message messages.old.entries head.now.message IsGiven) }
    ensures err { OnErr result (messages.new.entries ≡ messages.old.entries) }
{
    let Some(progress) = messages.get_mut(&head.message) else {
        unreachable!()
    };
    progress.give(head.index, piece)
}
