use crate::bodies::Says::{Again, Block, Done, Granted, Here, Opened, Value};
use crate::bodies::Terms;
use crate::calls::Does::{Open, Read, Seek, Size, Sync, Write};
use crate::calls::Name::{File, Root};
use crate::script::Inside::Arrives;
use crate::script::Step::{Answer, Due, Inside, Issue, Recall, Stop};
use crate::script::{Row, first_other, is_none};
use crate::told::Asked;
use crate::told::Told::{Asks, Fails, Flushes, Gives, Nothing};
use crate::world::Comes;
use sprite_ids::Errno;
use stream_table::Place;

// An append waits for its block while a grant of a larger file comes, and for room while another process writes behind the end:
// it begins at the end that the file has when it goes on.
static APPENDS: [Row; 16] = [
    (
        Issue(2, Open(File, 19)),
        [1, 0, 0, 2, 1, 0],
        Asks(Asked::Prefix, 3),
    ),
    (
        Answer(0, 1, Here(Root)),
        [1, 0, 0, 2, 1, 0],
        Asks(Asked::Echo, 1),
    ),
    (
        Answer(0, 1, Done),
        [1, 0, 0, 1, 1, 0],
        Asks(Asked::Opening(19, 0), 1),
    ),
    (Answer(0, 1, Opened(1)), [0, 0, 1, 1, 0, 0], Gives(0, 0)),
    (
        Issue(2, Write(0, 20)),
        [1, 0, 0, 1, 1, 0],
        Asks(Asked::Fetch(1, 0), 1),
    ),
    (
        Answer(
            0,
            1,
            Again(Terms {
                stamp: 2,
                versions: [0, 0],
                size: 120,
                holder: false,
            }),
        ),
        [1, 0, 0, 2, 1, 0],
        Asks(Asked::Fetch(2, 0), 1),
    ),
    (
        Answer(0, 1, Block(2, 120)),
        [0, 0, 1, 3, 0, 0],
        Gives(20, 0),
    ),
    (Issue(2, Size(0)), [0, 0, 1, 1, 0, 0], Gives(140, 0)),
    (
        Inside(
            1,
            Arrives(Comes {
                number: 7,
                fd: 0,
                stamp: None,
                place: Place::Local(0),
            }),
        ),
        [0, 0, 0, 0, 0, 0],
        Nothing,
    ),
    // Eight blocks are held from then on, all of them dirty.
    (
        Issue(1, Write(0, 16_384)),
        [0, 0, 1, 8, 0, 0],
        Gives(16_384, 0),
    ),
    (
        Issue(1, Write(0, 16_374)),
        [0, 0, 1, 9, 0, 0],
        Gives(16_374, 0),
    ),
    (
        Issue(2, Write(0, 20)),
        [1, 0, 0, 1, 1, 0],
        Asks(Asked::Back(2, 0), 1),
    ),
    (Issue(1, Write(0, 5)), [0, 0, 1, 2, 1, 0], Gives(5, 0)),
    (Answer(0, 1, Done), [0, 0, 1, 6, 0, 0], Gives(20, 0)),
    (Issue(2, Size(0)), [0, 0, 1, 1, 0, 0], Gives(32_783, 0)),
    (Issue(1, Read(0, 100)), [0, 0, 1, 1, 0, 0], Gives(20, 20)),
];

#[test]
fn appends_that_wait(rt: HostRuntime) {
    is_none(&rt, first_other(rt.alloc(), 1, &APPENDS));
}

// A sync waits for its own write-back, and another one for that; a recall comes meanwhile, so that the server has the block
// before the write-back is answered. Then one waits for a write-back that was due, and finds nothing dirty behind it.
static SYNCS: [Row; 15] = [
    (
        Inside(
            1,
            Arrives(Comes {
                number: 7,
                fd: 0,
                stamp: Some(1),
                place: Place::Local(0),
            }),
        ),
        [0, 0, 0, 1, 0, 0],
        Nothing,
    ),
    (
        Inside(
            2,
            Arrives(Comes {
                number: 8,
                fd: 0,
                stamp: None,
                place: Place::Local(0),
            }),
        ),
        [0, 0, 0, 0, 0, 0],
        Nothing,
    ),
    (
        Issue(1, Write(0, 5)),
        [1, 0, 0, 1, 1, 0],
        Asks(Asked::Fetch(1, 0), 1),
    ),
    (Answer(0, 1, Block(1, 100)), [0, 0, 1, 3, 0, 0], Gives(5, 0)),
    (
        Issue(1, Sync(0)),
        [1, 0, 0, 1, 1, 0],
        Asks(Asked::Back(1, 0), 1),
    ),
    (Issue(2, Sync(0)), [0, 0, 0, 0, 2, 0], Nothing),
    (Recall(2), [0, 1, 0, 1, 2, 0], Flushes(100, 1)),
    (
        Answer(
            0,
            1,
            Again(Terms {
                stamp: 2,
                versions: [0, 0],
                size: 100,
                holder: false,
            }),
        ),
        [0, 0, 2, 2, 0, 0],
        Gives(0, 0),
    ),
    (Issue(1, Write(0, 5)), [0, 0, 1, 2, 0, 0], Gives(5, 0)),
    (Due(0), [1, 0, 0, 1, 0, 0], Asks(Asked::Back(2, 0), 1)),
    (Issue(2, Sync(0)), [0, 0, 0, 0, 1, 0], Nothing),
    (Answer(0, 1, Done), [0, 0, 1, 2, 0, 0], Gives(0, 0)),
    (Issue(2, Sync(0)), [0, 0, 1, 1, 0, 0], Gives(0, 0)),
    (Stop(3), [0, 1, 0, 2, 0, 0], Flushes(100, 0)),
    (Issue(1, Sync(0)), [0, 0, 1, 1, 0, 0], Gives(0, 0)),
];

#[test]
fn syncs(rt: HostRuntime) {
    is_none(&rt, first_other(rt.alloc(), 1, &SYNCS));
}

// A grant for the holder, whose version is the file's, leaves its own size and its dirty block; one that isn't for the holder
// brings the size, and so does one of another version.
static HOLDERS: [Row; 17] = [
    (
        Inside(
            1,
            Arrives(Comes {
                number: 7,
                fd: 0,
                stamp: Some(1),
                place: Place::Local(100),
            }),
        ),
        [0, 0, 0, 1, 0, 0],
        Nothing,
    ),
    (
        Issue(1, Write(0, 5)),
        [1, 0, 0, 1, 1, 0],
        Asks(Asked::Fetch(1, 0), 1),
    ),
    (Answer(0, 1, Block(1, 100)), [0, 0, 1, 3, 0, 0], Gives(5, 0)),
    (
        Issue(2, Open(File, 3)),
        [1, 0, 0, 2, 1, 0],
        Asks(Asked::Prefix, 3),
    ),
    (
        Answer(0, 1, Here(Root)),
        [1, 0, 0, 2, 1, 0],
        Asks(Asked::Echo, 1),
    ),
    (
        Answer(0, 1, Done),
        [1, 0, 0, 1, 1, 0],
        Asks(Asked::Opening(3, 0), 1),
    ),
    (
        Answer(
            0,
            1,
            Granted(Terms {
                stamp: 2,
                versions: [0, 0],
                size: 100,
                holder: true,
            }),
        ),
        [0, 0, 1, 1, 0, 0],
        Gives(0, 0),
    ),
    (Issue(2, Size(0)), [0, 0, 1, 1, 0, 0], Gives(105, 0)),
    (Due(0), [1, 0, 0, 1, 0, 0], Asks(Asked::Back(2, 0), 1)),
    (Answer(0, 1, Done), [0, 0, 0, 1, 0, 0], Nothing),
    (Stop(3), [0, 1, 0, 2, 0, 0], Flushes(105, 0)),
    (
        Issue(1, Open(File, 1)),
        [1, 0, 0, 1, 1, 0],
        Asks(Asked::Echo, 1),
    ),
    (
        Answer(0, 1, Done),
        [1, 0, 0, 1, 1, 0],
        Asks(Asked::Opening(1, 1), 1),
    ),
    (
        Answer(
            0,
            1,
            Granted(Terms {
                stamp: 4,
                versions: [0, 0],
                size: 200,
                holder: false,
            }),
        ),
        [0, 0, 1, 1, 0, 0],
        Gives(1, 0),
    ),
    (
        Issue(1, Read(0, 10)),
        [1, 0, 0, 1, 1, 0],
        Asks(Asked::Fetch(4, 0), 1),
    ),
    (
        Answer(
            0,
            1,
            Again(Terms {
                stamp: 5,
                versions: [1, 1],
                size: 50,
                holder: true,
            }),
        ),
        [0, 0, 1, 2, 0, 0],
        Gives(0, 0),
    ),
    (Issue(1, Size(1)), [0, 0, 1, 1, 0, 0], Gives(50, 0)),
];

#[test]
fn grants_for_the_holder(rt: HostRuntime) {
    is_none(&rt, first_other(rt.alloc(), 1, &HOLDERS));
}

// The most bytes that a file may have: 262,144. The grant is the holder's, whose size is that already.
static LIMITS: [Row; 16] = [
    (
        Inside(
            1,
            Arrives(Comes {
                number: 7,
                fd: 0,
                stamp: Some(1),
                place: Place::Local(0),
            }),
        ),
        [0, 0, 0, 1, 0, 0],
        Nothing,
    ),
    (
        Issue(1, Seek(0, 262_145)),
        [0, 0, 1, 1, 0, 0],
        Fails(Errno::Invalid),
    ),
    (
        Issue(1, Seek(0, 262_143)),
        [0, 0, 1, 1, 0, 0],
        Gives(262_143, 0),
    ),
    (
        Issue(1, Write(0, 2)),
        [0, 0, 1, 1, 0, 0],
        Fails(Errno::TooBig),
    ),
    (Issue(1, Write(0, 1)), [0, 0, 1, 3, 0, 0], Gives(1, 0)),
    (Issue(1, Size(0)), [0, 0, 1, 1, 0, 0], Gives(262_144, 0)),
    (
        Issue(1, Seek(0, 262_144)),
        [0, 0, 1, 1, 0, 0],
        Gives(262_144, 0),
    ),
    (
        Issue(1, Write(0, 1)),
        [0, 0, 1, 1, 0, 0],
        Fails(Errno::TooBig),
    ),
    (Issue(1, Write(0, 0)), [0, 0, 1, 1, 0, 0], Gives(0, 0)),
    (
        Issue(2, Open(File, 18)),
        [1, 0, 0, 2, 1, 0],
        Asks(Asked::Prefix, 3),
    ),
    (
        Answer(0, 1, Here(Root)),
        [1, 0, 0, 2, 1, 0],
        Asks(Asked::Echo, 1),
    ),
    (
        Answer(0, 1, Done),
        [1, 0, 0, 1, 1, 0],
        Asks(Asked::Opening(18, 0), 1),
    ),
    (
        Answer(
            0,
            1,
            Granted(Terms {
                stamp: 2,
                versions: [0, 0],
                size: 100,
                holder: true,
            }),
        ),
        [0, 0, 1, 1, 0, 0],
        Gives(0, 0),
    ),
    (
        Issue(2, Write(0, 1)),
        [0, 0, 1, 1, 0, 0],
        Fails(Errno::TooBig),
    ),
    (Issue(2, Write(0, 0)), [0, 0, 1, 1, 0, 0], Gives(0, 0)),
    (
        Issue(2, Read(0, 1)),
        [0, 0, 1, 1, 0, 0],
        Fails(Errno::BadMode),
    ),
];

#[test]
fn the_limit(rt: HostRuntime) {
    is_none(&rt, first_other(rt.alloc(), 1, &LIMITS));
}

// In a cluster of version 2 it is 4,194,304, for what is done at the server too.
static LONG: [Row; 13] = [
    (
        Inside(
            1,
            Arrives(Comes {
                number: 7,
                fd: 0,
                stamp: Some(1),
                place: Place::Local(0),
            }),
        ),
        [0, 0, 0, 1, 0, 0],
        Nothing,
    ),
    (
        Issue(1, Seek(0, 4_194_305)),
        [0, 0, 1, 1, 0, 0],
        Fails(Errno::Invalid),
    ),
    (
        Issue(1, Seek(0, 262_145)),
        [0, 0, 1, 1, 0, 0],
        Gives(262_145, 0),
    ),
    (Issue(1, Write(0, 1)), [0, 0, 1, 3, 0, 0], Gives(1, 0)),
    (
        Issue(1, Seek(0, 4_194_303)),
        [0, 0, 1, 1, 0, 0],
        Gives(4_194_303, 0),
    ),
    (
        Issue(1, Write(0, 2)),
        [0, 0, 1, 1, 0, 0],
        Fails(Errno::TooBig),
    ),
    (Issue(1, Write(0, 1)), [0, 0, 1, 3, 0, 0], Gives(1, 0)),
    (Issue(1, Size(0)), [0, 0, 1, 1, 0, 0], Gives(4_194_304, 0)),
    (
        Issue(1, Write(0, 1)),
        [0, 0, 1, 1, 0, 0],
        Fails(Errno::TooBig),
    ),
    (Stop(2), [0, 1, 0, 3, 0, 0], Flushes(4_194_304, 2)),
    (
        Issue(1, Write(0, 1)),
        [0, 0, 1, 1, 0, 0],
        Fails(Errno::TooBig),
    ),
    (Issue(1, Read(0, 1)), [1, 0, 0, 1, 1, 0], Asks(Asked::Op, 1)),
    (Answer(0, 1, Value(0, 0)), [0, 0, 1, 0, 0, 0], Gives(0, 0)),
];

#[test]
fn the_limit_of_version_2(rt: HostRuntime) {
    is_none(&rt, first_other(rt.alloc(), 2, &LONG));
}
