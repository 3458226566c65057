use sprite_ids::{Bytes, Kernel, NoMemory};
use std::alloc::Global;
use std::process::Abort;
use wire_fragments::{Gather, Gathered, cut};

// Asserts that no row is another, and tells the place of the one that is.
pub fn is_none(rt: &impl Abort, other: Option<usize>) {
    assert_eq!(rt; other, None);
}

fn kernel(number: u8) -> Result<Kernel, NoMemory> {
    Kernel::new(number).ok_or(NoMemory)
}

// A message of so many bytes: 0, 1, .. up to 250, and then the same again.
pub fn message(alloc: Global, count: usize) -> Result<Vec<u8>, NoMemory> {
    let mut bytes = Vec::with_capacity(alloc, count)?;
    for place in 0..count {
        bytes.push((place % 251) as u8)?;
    }
    Ok(bytes)
}

// The frames of a message of so many bytes from kernel 1 to kernel 2, with that number.
pub fn frames(alloc: Global, id: u32, count: usize) -> Result<Vec<Bytes>, NoMemory> {
    let bytes = message(alloc, count)?;
    if bytes.len() > 97_516_080 {
        return Err(NoMemory);
    }
    cut(alloc, kernel(1)?, kernel(2)?, id, bytes.as_slice())
}

/// What an answer is, without the message.
#[derive(Clone, Copy, Debug, PartialEq, Eq)]
pub enum Kind {
    Bad,
    Known,
    Differs(u16, u16),
    Full(u16),
    Whole,
    Kept,
}

fn kind_of(answer: &Gathered) -> Kind {
    match answer {
        Gathered::Bad => Kind::Bad,
        Gathered::Known => Kind::Known,
        Gathered::Differs(kept, came) => Kind::Differs(*kept, *came),
        Gathered::Full(room) => Kind::Full(*room),
        Gathered::Whole { .. } => Kind::Whole,
        Gathered::Kept => Kind::Kept,
    }
}

// Whether taking the frame answers so.
pub fn takes(alloc: Global, gather: &mut Gather, frame: &[u8], kind: Kind) -> bool {
    match gather.take(alloc, frame) {
        Ok(answer) => kind_of(&answer) == kind,
        Err(_) => false,
    }
}
