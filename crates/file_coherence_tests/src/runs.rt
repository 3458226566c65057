use crate::script::{Act, Effect};
use sprite_ids::Mode;

/// A file is written in a cache and closed, and then opened with truncation: its client's blocks are recalled, and what it holds
/// is out of date.
pub static TRUNCATED: [Act; 16] = [
    Act::Open(1, 1, Mode::Both),
    Act::Comes(1),
    Act::Comes(1),
    Act::Write(1, (1, 1), 0, b"a"),
    Act::Comes(2),
    Act::Comes(2),
    Act::Close(1, (1, 1)),
    Act::Comes(3),
    Act::Comes(3),
    Act::Empty(1, 1, Mode::Both),
    Act::Comes(4),
    Act::Comes(5),
    Act::Comes(5),
    Act::Comes(4),
    Act::Write(1, (1, 1), 1, b"b"),
    Act::Read(1, (1, 1), 0, 10),
];

pub static TRUNCATED_EFFECTS: [Effect; 5] = [
    Effect::Opened(16),
    Effect::Wrote(1, 1),
    Effect::Opened(16),
    Effect::Wrote(1, 1),
    Effect::Read(1, b"\0b"),
];

/// A grant comes to its client after a newer callback that stopped its caching.
pub static STOPPED: [Act; 16] = [
    Act::Open(1, 1, Mode::Read),
    Act::Comes(1),
    Act::Open(2, 1, Mode::Write),
    Act::Comes(2),
    Act::Comes(3),
    Act::Comes(3),
    Act::Comes(2),
    Act::Comes(1),
    Act::Read(1, (1, 1), 0, 4),
    Act::Comes(4),
    Act::Comes(4),
    Act::Write(2, (2, 1), 0, b"y"),
    Act::Comes(5),
    Act::Comes(5),
    Act::Read(1, (1, 1), 0, 4),
    Act::Comes(6),
];

pub static STOPPED_EFFECTS: [Effect; 5] = [
    Effect::Opened(16),
    Effect::Opened(16),
    Effect::Read(16, b"x"),
    Effect::Wrote(16, 1),
    Effect::Read(16, b"y"),
];

/// Two opens of a kernel are granted, and the newer grant comes first.
pub static CROSSED: [Act; 9] = [
    Act::Open(1, 1, Mode::Read),
    Act::Comes(1),
    Act::Open(1, 2, Mode::Read),
    Act::Comes(2),
    Act::Comes(2),
    Act::Comes(1),
    Act::Read(1, (1, 1), 0, 4),
    Act::Comes(3),
    Act::Comes(3),
];

pub static CROSSED_EFFECTS: [Effect; 3] = [
    Effect::Opened(16),
    Effect::Opened(16),
    Effect::Read(1, b"x"),
];

/// The file of a write-back that is on its way is truncated by another client.
pub static EMPTIED: [Act; 12] = [
    Act::Empty(2, 1, Mode::Both),
    Act::Comes(1),
    Act::Comes(1),
    Act::Append(2, (2, 1), b"ba"),
    Act::Back(2, 0),
    Act::Empty(1, 1, Mode::Both),
    Act::Comes(3),
    Act::Comes(4),
    Act::Comes(4),
    Act::Comes(2),
    Act::Comes(3),
    Act::Read(1, (1, 1), 0, 4),
];

pub static EMPTIED_REST: [Act; 2] = [Act::Comes(5), Act::Comes(5)];

pub static EMPTIED_EFFECTS: [Effect; 3] = [
    Effect::Opened(16),
    Effect::Wrote(2, 2),
    Effect::Opened(16),
];

pub static EMPTIED_REST_EFFECTS: [Effect; 1] = [Effect::Read(16, b"")];

/// A second client opens the file for writing: the first one's block is collected before the open is granted.
pub static CALLED: [Act; 14] = [
    Act::Open(1, 1, Mode::Both),
    Act::Comes(1),
    Act::Comes(1),
    Act::Write(1, (1, 1), 0, b"a"),
    Act::Comes(2),
    Act::Comes(2),
    Act::Open(2, 1, Mode::Both),
    Act::Comes(3),
    Act::Comes(3),
    Act::Comes(4),
    Act::Comes(4),
    Act::Comes(3),
    Act::Read(2, (2, 1), 0, 4),
    Act::Comes(5),
];

pub static CALLED_EFFECTS: [Effect; 4] = [
    Effect::Opened(16),
    Effect::Wrote(1, 1),
    Effect::Opened(16),
    Effect::Read(16, b"a"),
];

/// The holder opens the file twice more for writing, and the newer grant comes first: its dirty block stays.
pub static HELD: [Act; 11] = [
    Act::Empty(1, 1, Mode::Both),
    Act::Comes(1),
    Act::Comes(1),
    Act::Write(1, (1, 1), 0, b"ab"),
    Act::Open(1, 2, Mode::Both),
    Act::Open(1, 3, Mode::Both),
    Act::Comes(2),
    Act::Comes(3),
    Act::Comes(3),
    Act::Comes(2),
    Act::Read(1, (1, 2), 0, 4),
];

pub static HELD_EFFECTS: [Effect; 5] = [
    Effect::Opened(16),
    Effect::Wrote(1, 2),
    Effect::Opened(16),
    Effect::Opened(16),
    Effect::Read(1, b"ab"),
];

/// Part of a block is written and sent to the server, and another client reads the file there.
pub static PARTIAL: [Act; 14] = [
    Act::Empty(1, 1, Mode::Both),
    Act::Comes(1),
    Act::Comes(1),
    Act::Write(1, (1, 1), 0, b"a"),
    Act::Back(1, 0),
    Act::Comes(2),
    Act::Comes(2),
    Act::Open(2, 1, Mode::Read),
    Act::Comes(3),
    Act::Comes(4),
    Act::Comes(4),
    Act::Comes(3),
    Act::Read(2, (2, 1), 0, 9),
    Act::Comes(5),
];

pub static PARTIAL_EFFECTS: [Effect; 4] = [
    Effect::Opened(16),
    Effect::Wrote(1, 1),
    Effect::Opened(16),
    Effect::Read(16, b"a"),
];

/// A stream moves to another client and leaves references behind, so that its file is cached by nobody; then it is closed on
/// both.
pub static MOVED: [Act; 19] = [
    Act::Open(1, 1, Mode::Both),
    Act::Comes(1),
    Act::Comes(1),
    Act::Write(1, (1, 1), 0, b"ab"),
    Act::Move((1, 1), 1, 2, true),
    Act::Comes(2),
    Act::Comes(3),
    Act::Comes(3),
    Act::Comes(2),
    Act::Comes(2),
    Act::Append(2, (1, 1), b"c"),
    Act::Comes(4),
    Act::Comes(4),
    Act::Read(1, (1, 1), 0, 4),
    Act::Comes(5),
    Act::Comes(5),
    Act::Close(1, (1, 1)),
    Act::Comes(6),
    Act::Expires(6),
];

pub static MOVED_EFFECTS: [Effect; 4] = [
    Effect::Opened(16),
    Effect::Wrote(1, 2),
    Effect::Wrote(16, 1),
    Effect::Read(16, b"abc"),
];

/// A stream moves with all its references, while its client's dirty block is on its way.
pub static CARRIED: [Act; 15] = [
    Act::Empty(1, 1, Mode::Both),
    Act::Comes(1),
    Act::Comes(1),
    Act::Write(1, (1, 1), 0, b"abc"),
    Act::Back(1, 0),
    Act::Move((1, 1), 1, 2, false),
    Act::Comes(3),
    Act::Comes(4),
    Act::Comes(2),
    Act::Comes(4),
    Act::Comes(3),
    Act::Comes(2),
    Act::Comes(3),
    Act::Read(2, (1, 1), 0, 4),
    Act::Comes(5),
];

pub static CARRIED_REST: [Act; 1] = [Act::Comes(5)];

pub static CARRIED_EFFECTS: [Effect; 2] = [Effect::Opened(16), Effect::Wrote(1, 3)];

pub static CARRIED_REST_EFFECTS: [Effect; 1] = [Effect::Read(2, b"abc")];

/// Appends up to the limit and past it, in a cache and at the server. The file has one byte less than it may have.
pub static LIMIT: [Act; 14] = [
    Act::Open(1, 1, Mode::Write),
    Act::Comes(1),
    Act::Comes(1),
    Act::Append(1, (1, 1), b"ab"),
    Act::Append(1, (1, 1), b"c"),
    Act::Comes(2),
    Act::Comes(2),
    Act::Open(2, 1, Mode::Write),
    Act::Comes(3),
    Act::Comes(4),
    Act::Comes(4),
    Act::Comes(3),
    Act::Append(2, (2, 1), b"d"),
    Act::Comes(5),
];

pub static LIMIT_EFFECTS: [Effect; 5] = [
    Effect::Opened(16),
    Effect::TooBig(1),
    Effect::Wrote(1, 1),
    Effect::Opened(16),
    Effect::TooBig(16),
];

/// Steps that aren't possible: of streams that nobody has, of calls that aren't there, of kernels that aren't clients.
pub static IMPOSSIBLE: [Act; 9] = [
    Act::Read(1, (1, 1), 0, 4),
    Act::Write(1, (1, 1), 0, b"a"),
    Act::Append(2, (1, 1), b"a"),
    Act::Close(1, (1, 1)),
    Act::Move((1, 1), 1, 2, true),
    Act::Back(1, 0),
    Act::Comes(1),
    Act::Open(3, 1, Mode::Read),
    Act::Empty(1, 1, Mode::Read),
];

pub static NOTHING: [Effect; 0] = [];
