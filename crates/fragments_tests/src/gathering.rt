use crate::frames::{Kind, frames, is_none, message, takes};
use sprite_ids::{Bytes, NoMemory};
use std::alloc::Global;
use std::process::Abort;
use wire_fragments::{Gather, Gathered, gather_all};

/// Which frame of a message comes, and what is answered.
struct Row {
    message: usize,
    frame: usize,
    kind: Kind,
}

/// The frames of some messages.
#[derive(Drop)]
struct SentFrames {
    messages: Vec<Vec<Bytes>>,
}

impl SentFrames {
    fn frame(&self, message: usize, frame: usize) -> Option<&[u8]> {
        if message >= self.messages.len() {
            return None;
        }
        let frames = self.messages[message].as_slice();
        if frame < frames.len() {
            Some(frames[frame].as_slice())
        } else {
            None
        }
    }
}

// Messages of 4,123, of 1,489, of 10 and of 4,465 bytes; the last has the name of the first, and a frame more.
fn sent(alloc: Global) -> Result<SentFrames, NoMemory> {
    let mut messages = Vec::new(alloc);
    messages.push(frames(alloc, 1, 4123)?)?;
    messages.push(frames(alloc, 2, 1489)?)?;
    messages.push(frames(alloc, 3, 10)?)?;
    messages.push(frames(alloc, 1, 4465)?)?;
    Ok(SentFrames { messages })
}

fn is_taken(alloc: Global, gather: &mut Gather, sent: &SentFrames, row: &Row) -> bool {
    match sent.frame(row.message, row.frame) {
        Some(frame) => takes(alloc, gather, frame, row.kind),
        None => false,
    }
}

// The place of the first row that is answered otherwise, where there is room for one message in part.
fn first_other(alloc: Global, sent: &SentFrames, rows: &[Row]) -> Option<usize> {
    let mut gather = Gather::new(alloc, 1);
    for (place, row) in rows.iter().enumerate() {
        if !is_taken(alloc, &mut gather, sent, row) {
            return Some(place);
        }
    }
    None
}

fn first_other_sent(alloc: Global, rows: &[Row]) -> Option<usize> {
    match sent(alloc) {
        Ok(sent) => first_other(alloc, &sent, rows),
        Err(NoMemory) => Some(rows.len()),
    }
}

static TAKEN: [Row; 12] = [
    // The last of three, the first, the first again.
    Row {
        message: 0,
        frame: 2,
        kind: Kind::Kept,
    },
    Row {
        message: 0,
        frame: 0,
        kind: Kind::Kept,
    },
    Row {
        message: 0,
        frame: 0,
        kind: Kind::Known,
    },
    // A frame of four with that name is known by its place, or differs.
    Row {
        message: 3,
        frame: 0,
        kind: Kind::Known,
    },
    Row {
        message: 3,
        frame: 1,
        kind: Kind::Differs(3, 4),
    },
    // No room for another message of two frames; one of one frame needs none.
    Row {
        message: 1,
        frame: 1,
        kind: Kind::Full(1),
    },
    Row {
        message: 2,
        frame: 0,
        kind: Kind::Whole,
    },
    Row {
        message: 2,
        frame: 0,
        kind: Kind::Known,
    },
    // The one that is missing.
    Row {
        message: 0,
        frame: 1,
        kind: Kind::Whole,
    },
    // What was given is known, also by a frame of another count; and there is room again.
    Row {
        message: 3,
        frame: 3,
        kind: Kind::Known,
    },
    Row {
        message: 1,
        frame: 0,
        kind: Kind::Kept,
    },
    Row {
        message: 1,
        frame: 1,
        kind: Kind::Whole,
    },
];

#[test]
fn frames_are_answered(rt: HostRuntime) {
    is_none(&rt, first_other_sent(rt.alloc(), &TAKEN));
}

// Whether the answer gives the message of so many bytes.
fn gives(alloc: Global, answer: &Gathered, count: usize) -> bool {
    let Ok(wanted) = message(alloc, count) else {
        return false;
    };
    match answer {
        Gathered::Whole { message, .. } => message.as_slice() == wanted.as_slice(),
        _ => false,
    }
}

// The bytes of a message of 4,123 whose frames come in the order 3, 1, 1, 2.
fn last_gives(alloc: Global) -> Result<bool, NoMemory> {
    let sent = frames(alloc, 1, 4123)?;
    let mut came = Vec::new(alloc);
    for place in [2, 0, 0, 1] {
        if place < sent.len() {
            came.push(Bytes::of_slice(alloc, sent[place].as_slice())?)?;
        }
    }
    let answers = gather_all(alloc, 1, came.as_slice())?;
    if answers.len() != 4 {
        return Ok(false);
    }
    Ok(gives(alloc, &answers[3], 4123))
}

fn is_true(rt: &impl Abort, holds: Result<bool, NoMemory>) {
    assert_eq!(rt; holds, Ok(true));
}

#[test]
fn a_message_is_given_byte_for_byte(rt: HostRuntime) {
    is_true(&rt, last_gives(rt.alloc()));
}
