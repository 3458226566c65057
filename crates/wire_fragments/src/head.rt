ghost use Rattle.std.specs.Prelude.{◌≡◌, ◌≤◌, ◌<◌, ◌+◌, IfSome, length};
ghost use Rattle.wire_fragments.specs.Frames.{head_of, number16_at, number32_at};

use sprite_ids::Kernel;

/// The bytes of a frame's head.
pub(crate) const HEAD: usize = 12;

/// The most bytes of a message in one frame.
pub(crate) const FULL: usize = 1488;

/// Which message a frame belongs to.
#[derive(Clone, Copy, Debug, PartialEq, Eq, Hash)]
pub struct MessageId {
    /// The kernel that sends it.
    pub from: Kernel,
    /// The kernel that it is for.
    pub to: Kernel,
    /// Its number, which tells it from the other messages between the two.
    pub id: u32,
}

/// What the head of a frame says.
#[derive(Clone, Copy, Debug, PartialEq, Eq)]
pub struct Head {
    /// The message.
    pub message: MessageId,
    /// Which of its frames this is, from 0.
    pub index: u16,
    /// How many frames it has.
    pub count: u16,
}

/// What the head of the frame says; None exactly where the bytes spell no frame: where a kernel is none, the index isn't
/// under the count, the length is over 1,488 or isn't that of the piece, a frame before the last isn't full, or the last one
/// is empty and not the only one.
pub(crate) fn head_of(frame: &[u8]) -> Option<Head>
    ensures head { result ≡ head_of frame.now }
    ensures index { IfSome result (λ head. head.index < head.count) }
    ensures long { IfSome result (λ _. (12 ≤ length frame.now) × (length frame.now ≤ 1500)) }
{
    if frame.len() < HEAD {
        return None;
    }
    let from = Kernel::new(frame[0])?;
    let to = Kernel::new(frame[1])?;
    let id = number32_at(frame, 2);
    let index = number16_at(frame, 6);
    let count = number16_at(frame, 8);
    let length = usize::from(number16_at(frame, 10));
    if index >= count || length > FULL || length != frame.len() - HEAD {
        return None;
    }
    if (index + 1 < count && length != FULL) || (length == 0 && count != 1) {
        return None;
    }
    Some(Head {
        message: MessageId { from, to, id },
        index,
        count,
    })
}

// The number in the two bytes from there on, the lowest first.
fn number16_at(bytes: &[u8], at: usize) -> u16
    requires { at + 2 ≤ length bytes.now }
    ensures { result ≡ number16_at bytes.now at }
{
    u16::from_le_bytes([bytes[at], bytes[at + 1]])
}

// The number in the four bytes from there on, the lowest first.
fn number32_at(bytes: &[u8], at: usize) -> u32
    requires { at + 4 ≤ length bytes.now }
    ensures { result ≡ number32_at bytes.now at }
{
    u32::from_le_bytes([bytes[at], bytes[at + 1], bytes[at + 2], bytes[at + 3]])
}
