use crate::script::{Act, Run, Told};
use sprite_ids::Mode;

/// A client's dirty block is claimed at the version at which it was written, and another client reads it.
pub static GRANTED: Run = Run {
    kernels: 2,
    first: b"abc",
    acts: &[
        Act::Open(1, 1, Mode::Both),
        Act::Settle,
        Act::Write(1, 1, 0, b"x"),
        Act::Settle,
        Act::Stop,
        Act::Claim(1),
        Act::Claim(2),
        Act::Open(2, 2, Mode::Read),
        Act::Settle,
        Act::Read(2, 2, 0, 3),
        Act::Settle,
    ],
    told: &[
        Told::Granted(1, 2),
        Told::Granted(2, 2),
        Told::Read(2, b"xbc"),
    ],
    version: 2,
    bytes: b"xbc",
};

/// Another client opens the file before that claim, which raises the version: the block is of an old one, and is gone.
pub static REFUSED: Run = Run {
    kernels: 2,
    first: b"abc",
    acts: &[
        Act::Open(1, 1, Mode::Both),
        Act::Settle,
        Act::Write(1, 1, 0, b"x"),
        Act::Settle,
        Act::Stop,
        Act::Claim(2),
        Act::Open(2, 2, Mode::Both),
        Act::Settle,
        Act::Claim(1),
    ],
    told: &[Told::Granted(2, 2), Told::Refused(1, 2, 3)],
    version: 3,
    bytes: b"abc",
};

/// An open for reading before all have told raises the version too.
pub static READER_RAISES: Run = Run {
    kernels: 2,
    first: b"abc",
    acts: &[
        Act::Open(1, 1, Mode::Both),
        Act::Settle,
        Act::Write(1, 1, 0, b"x"),
        Act::Settle,
        Act::Stop,
        Act::Claim(2),
        Act::Open(2, 1, Mode::Read),
        Act::Settle,
        Act::Read(2, 1, 0, 3),
        Act::Settle,
        Act::Claim(1),
        Act::Claim(1),
    ],
    told: &[
        Told::Granted(2, 2),
        Told::Read(2, b"abc"),
        Told::Refused(1, 2, 3),
    ],
    version: 3,
    bytes: b"abc",
};

/// The stop comes between a client's answer to a callback and its coming to the server: the blocks are the client's still.
pub static ANSWERED: Run = Run {
    kernels: 2,
    first: b"abc",
    acts: &[
        Act::Open(1, 1, Mode::Both),
        Act::Settle,
        Act::Write(1, 1, 1, b"y"),
        Act::Settle,
        Act::Open(2, 1, Mode::Read),
        Act::Comes(3),
        Act::Comes(4),
        Act::Stop,
        Act::Claim(1),
        Act::Claim(2),
        Act::Read(1, 1, 0, 3),
        Act::Settle,
    ],
    told: &[
        Told::Granted(1, 2),
        Told::Granted(2, 2),
        Told::Read(1, b"ayc"),
    ],
    version: 2,
    bytes: b"ayc",
};

/// A client that hasn't told yet does nothing, and its stream's name isn't free; once it has told, its stream is open again, and is
/// used without a cache.
pub static APART: Run = Run {
    kernels: 2,
    first: b"abc",
    acts: &[
        Act::Open(1, 1, Mode::Both),
        Act::Settle,
        Act::Stop,
        Act::Read(1, 1, 0, 3),
        Act::Settle,
        Act::Open(1, 1, Mode::Read),
        Act::Settle,
        Act::Claim(1),
        Act::Read(1, 1, 0, 2),
        Act::Settle,
        Act::Write(1, 1, 3, b"d"),
        Act::Settle,
        Act::Claim(2),
    ],
    told: &[
        Told::Granted(1, 2),
        Told::Read(1, b"ab"),
        Told::Granted(2, 2),
    ],
    version: 2,
    bytes: b"abcd",
};

/// A truncation before all have told: the old block is refused, and the file may be cached once nobody has it open.
pub static EMPTIED: Run = Run {
    kernels: 3,
    first: b"abc",
    acts: &[
        Act::Open(1, 1, Mode::Write),
        Act::Settle,
        Act::Write(1, 1, 0, b"xy"),
        Act::Settle,
        Act::Stop,
        Act::Claim(3),
        Act::Empty(3, 1, Mode::Write),
        Act::Settle,
        Act::Close(3, 1),
        Act::Settle,
        Act::Claim(1),
        Act::Claim(2),
        Act::Open(2, 1, Mode::Write),
        Act::Settle,
        Act::Write(2, 1, 0, b"z"),
        Act::Settle,
    ],
    told: &[
        Told::Granted(3, 2),
        Told::Refused(1, 2, 3),
        Told::Granted(2, 3),
    ],
    version: 4,
    bytes: b"",
};
