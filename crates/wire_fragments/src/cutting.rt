ghost use Rattle.std.specs.Prelude.{◌≡◌, ◌≤◌, ◌<◌, ◌+◌, ◌*◌, ◌++◌, IfOk, OnOk, length};
ghost use Rattle.std.specs.Int.{w16, w32, to_le_bytes};
ghost use Rattle.wire_fragments.specs.Frames.{count_of, cut, frame, piece};

use crate::head::{FULL, Head, MessageId};
use sprite_ids::{Bytes, Kernel, NoMemory};
use std::alloc::Global;

/// The frames of a message, in order: as many as its bytes fill, 1,488 in each, and one where it has none (this project).
///
/// A frame is the sender, the receiver, the message's number in four bytes, the frame's index from 0, the count of frames and
/// the length of its piece in two bytes each, the lowest byte first, and then its piece. The message has at most 97,516,080
/// bytes, which fill 65,535 frames. The one error is want of memory.
pub fn cut(
    alloc: Global,
    from: Kernel,
    to: Kernel,
    id: u32,
    message: &[u8],
) -> Result<Vec<Bytes>, NoMemory>
    requires { length message.now ≤ 97516080 }
    ensures { IfOk result (λ frames. frames.items ≡ cut (record { from = from; to = to; id = id }) message.now) }
{
    let count = count_of(message.len());
    let name = MessageId { from, to, id };
    let mut frames = Vec::with_capacity(alloc, usize::from(count))?;
    let mut index = 0;
    'pieces: while index < count {
        let head = Head {
            message: name,
            index,
            count,
        };
        frames.push(frame(alloc, &head, piece(message, index))?)?;
        index += 1;
    }
    Ok(frames)
}

// How many frames a message of so many bytes has.
fn count_of(length: usize) -> u16
    requires { length ≤ 97516080 }
    ensures { result ≡ count_of length }
{
    if length == 0 {
        return 1;
    }
    match u16::try_from((length + (FULL - 1)) / FULL) {
        Ok(count) => count,
        Err(_) => unreachable!(),
    }
}

// The piece of the message that the frame of that index has.
fn piece(message: &[u8], index: u16) -> &[u8]
    requires { length message.now ≤ 97516080 }
    ensures { result.now ≡ piece message.now index }
{
    let start = (FULL * usize::from(index)).min(message.len());
    let end = (start + FULL).min(message.len());
    &message[start..end]
}

// The bytes of the frame with that head and piece.
fn frame(alloc: Global, head: &Head, piece: &[u8]) -> Result<Bytes, NoMemory>
    requires { length piece.now ≤ 1488 }
    ensures { IfOk result (λ bytes. bytes ≡ frame head.now piece.now) }
{
    let length = match u16::try_from(piece.len()) {
        Ok(length) => length,
        Err(_) => unreachable!(),
    };
    let mut bytes = Vec::new(alloc);
    bytes.push(head.message.from.number())?;
    bytes.push(head.message.to.number())?;
    bytes.extend_from_slice(&head.message.id.to_le_bytes())?;
    bytes.extend_from_slice(&head.index.to_le_bytes())?;
    bytes.extend_from_slice(&head.count.to_le_bytes())?;
    bytes.extend_from_slice(&length.to_le_bytes())?;
    bytes.extend_from_slice(piece)?;
    Ok(Bytes::of_vec(bytes))
}
