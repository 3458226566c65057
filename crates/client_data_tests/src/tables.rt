use crate::script::Does::{Read, Seek, Size, Write};
use crate::script::Says::{Again, Block, Done, Refused, Value};
use crate::script::Step::{Answer, Cached, Callback, Due, Newer, Starts, Syncs, Uncached};
use crate::script::{Row, all_say};
use crate::told::Asked::{Back, Fetch, Op};
use crate::told::Told::{Asks, Fails, Flushes, Gives, Nothing};
use packet_bodies::FileOp;
use sprite_ids::{CallKind, Errno};

// A block is fetched; meanwhile one process waits for the stream's lock and another for its turn. Then a stop comes to a
// fetch that is out: what waited goes to the server.
static READINGS: [Row; 12] = [
    (Cached(1, 10_000), [0, 0, 0, 1, 0, 0], Nothing),
    (Starts(1, Read(10)), [1, 0, 0, 1, 1, 0], Asks(Fetch(1, 0))),
    (Starts(3, Read(10)), [0, 0, 0, 0, 2, 0], Nothing),
    (Starts(2, Read(10)), [0, 0, 0, 0, 3, 0], Nothing),
    (Answer(0, Block(1, 4096)), [0, 0, 3, 4, 0, 0], Gives(10, 10)),
    (Starts(1, Seek(4096)), [0, 0, 1, 1, 0, 0], Gives(4096, 0)),
    (Starts(1, Read(10)), [1, 0, 0, 1, 1, 0], Asks(Fetch(1, 1))),
    (Starts(2, Read(5000)), [0, 0, 0, 0, 2, 0], Nothing),
    (
        Callback(2, CallKind::Stop),
        [0, 1, 0, 2, 2, 0],
        Flushes(10_000, 0),
    ),
    (
        Answer(0, Block(1, 4096)),
        [2, 0, 0, 2, 2, 0],
        Asks(Op(FileOp::Read, Some(10))),
    ),
    (
        Answer(1, Value(10, 0, 10)),
        [0, 0, 1, 0, 1, 0],
        Gives(10, 10),
    ),
    (
        Answer(0, Value(5000, 0, 5000)),
        [0, 0, 1, 0, 0, 0],
        Gives(5000, 5000),
    ),
];

// A file that isn't cached: all but a seek goes to the server, and the offset that is kept here moves at the reply. At last
// a grant comes in the place of an answer, and the reading is done here.
static UNCACHED: [Row; 16] = [
    (Uncached(1, 300), [0, 0, 0, 1, 0, 0], Nothing),
    (
        Starts(1, Read(10)),
        [1, 0, 0, 1, 1, 0],
        Asks(Op(FileOp::Read, Some(0))),
    ),
    (
        Answer(0, Value(10, 0, 10)),
        [0, 0, 1, 0, 0, 0],
        Gives(10, 10),
    ),
    (
        Starts(1, Write(5)),
        [1, 0, 0, 1, 1, 0],
        Asks(Op(FileOp::Write, Some(10))),
    ),
    (Answer(0, Value(5, 0, 0)), [0, 0, 1, 0, 0, 0], Gives(5, 0)),
    (
        Starts(1, Size),
        [1, 0, 0, 1, 1, 0],
        Asks(Op(FileOp::Size, None)),
    ),
    (
        Answer(0, Value(300, 0, 0)),
        [0, 0, 1, 0, 0, 0],
        Gives(300, 0),
    ),
    (Starts(1, Seek(7)), [0, 0, 1, 1, 0, 0], Gives(7, 0)),
    (
        Starts(2, Write(5)),
        [1, 0, 0, 1, 1, 0],
        Asks(Op(FileOp::Append, None)),
    ),
    (
        Answer(0, Refused(Errno::TooBig)),
        [0, 0, 1, 0, 0, 0],
        Fails(Errno::TooBig),
    ),
    (
        Starts(2, Write(5)),
        [1, 0, 0, 1, 1, 0],
        Asks(Op(FileOp::Append, None)),
    ),
    (Answer(0, Value(5, 305, 0)), [0, 0, 1, 0, 0, 0], Gives(5, 0)),
    (
        Starts(2, Read(10)),
        [1, 0, 0, 1, 1, 0],
        Asks(Op(FileOp::Read, Some(305))),
    ),
    (Answer(0, Again(2, 305)), [0, 0, 1, 2, 0, 0], Gives(0, 0)),
    (Starts(2, Size), [0, 0, 1, 1, 0, 0], Gives(305, 0)),
    (Starts(3, Read(0)), [0, 0, 1, 1, 0, 0], Gives(0, 0)),
];

// The offset is kept at the server: all four go there, though the file is cached.
static SHARED: [Row; 9] = [
    (Cached(1, 300), [0, 0, 0, 1, 0, 0], Nothing),
    (
        Starts(4, Read(10)),
        [1, 0, 0, 1, 1, 0],
        Asks(Op(FileOp::Read, None)),
    ),
    (
        Answer(0, Value(10, 0, 10)),
        [0, 0, 1, 0, 0, 0],
        Gives(10, 10),
    ),
    (
        Starts(4, Seek(9)),
        [1, 0, 0, 1, 1, 0],
        Asks(Op(FileOp::Seek, Some(9))),
    ),
    (Answer(0, Value(9, 0, 0)), [0, 0, 1, 0, 0, 0], Gives(9, 0)),
    (
        Starts(4, Write(3)),
        [1, 0, 0, 1, 1, 0],
        Asks(Op(FileOp::Write, None)),
    ),
    (Answer(0, Value(3, 0, 0)), [0, 0, 1, 0, 0, 0], Gives(3, 0)),
    (
        Starts(4, Size),
        [1, 0, 0, 1, 1, 0],
        Asks(Op(FileOp::Size, None)),
    ),
    (
        Answer(0, Value(300, 0, 0)),
        [0, 0, 1, 0, 0, 0],
        Gives(300, 0),
    ),
];

// Writes in the cache, a sync, a write-back of a block that is written once more while it is out, a recall, and the limit.
static WRITINGS: [Row; 16] = [
    (Cached(1, 100), [0, 0, 0, 1, 0, 0], Nothing),
    (Starts(1, Write(5)), [1, 0, 0, 1, 1, 0], Asks(Fetch(1, 0))),
    (Answer(0, Block(1, 100)), [0, 0, 1, 3, 0, 1], Gives(5, 0)),
    (Starts(2, Write(5)), [0, 0, 1, 2, 0, 1], Gives(5, 0)),
    (Starts(2, Size), [0, 0, 1, 1, 0, 1], Gives(105, 0)),
    (Syncs(1), [1, 0, 0, 1, 1, 0], Asks(Back(1, 0, 105))),
    (Answer(0, Done), [0, 0, 1, 2, 0, 0], Gives(0, 0)),
    (Starts(1, Seek(8000)), [0, 0, 1, 1, 0, 0], Gives(8000, 0)),
    (Starts(1, Write(5)), [0, 0, 1, 3, 0, 1], Gives(5, 0)),
    (Due(1), [1, 0, 0, 1, 0, 0], Asks(Back(1, 1, 8005))),
    (Starts(1, Write(2)), [0, 0, 1, 2, 0, 0], Gives(2, 0)),
    (Answer(0, Done), [0, 0, 0, 0, 0, 1], Nothing),
    (
        Callback(2, CallKind::Recall),
        [0, 1, 0, 1, 0, 0],
        Flushes(8007, 1),
    ),
    (Due(1), [0, 0, 0, 0, 0, 0], Nothing),
    (
        Starts(1, Seek(262_143)),
        [0, 0, 1, 1, 0, 0],
        Gives(262_143, 0),
    ),
    (
        Starts(1, Write(2)),
        [0, 0, 1, 1, 0, 0],
        Fails(Errno::TooBig),
    ),
];

// A newer grant comes to a write-back and to a fetch that are out; a recall and then a grant in the place of an answer; a
// grant that is older; and one of a newer version.
static CROSSINGS: [Row; 16] = [
    (Cached(1, 10_000), [0, 0, 0, 1, 0, 0], Nothing),
    (Starts(1, Write(5)), [1, 0, 0, 1, 1, 0], Asks(Fetch(1, 0))),
    (Answer(0, Block(1, 4096)), [0, 0, 1, 3, 0, 1], Gives(5, 0)),
    (Due(0), [1, 0, 0, 1, 0, 0], Asks(Back(1, 0, 10_000))),
    (Cached(2, 10_000), [0, 0, 0, 1, 0, 0], Nothing),
    (Answer(0, Done), [0, 0, 0, 0, 0, 1], Nothing),
    (Due(0), [1, 0, 0, 1, 0, 0], Asks(Back(2, 0, 10_000))),
    (
        Callback(3, CallKind::Recall),
        [0, 1, 0, 1, 0, 0],
        Flushes(10_000, 1),
    ),
    (Answer(0, Again(4, 10_000)), [0, 0, 0, 1, 0, 0], Nothing),
    (Starts(2, Read(5000)), [1, 0, 0, 1, 1, 0], Asks(Fetch(4, 1))),
    (
        Callback(5, CallKind::Recall),
        [0, 1, 0, 1, 1, 0],
        Flushes(10_000, 0),
    ),
    (
        Answer(0, Again(6, 10_000)),
        [1, 0, 0, 2, 1, 0],
        Asks(Fetch(6, 1)),
    ),
    (Cached(7, 10_000), [0, 0, 0, 1, 1, 0], Nothing),
    (
        Answer(0, Block(6, 4096)),
        [1, 0, 0, 1, 1, 0],
        Asks(Fetch(7, 1)),
    ),
    (
        Answer(0, Block(7, 4096)),
        [0, 0, 1, 2, 0, 0],
        Gives(5000, 5000),
    ),
    (Cached(3, 10), [0, 0, 0, 0, 0, 0], Nothing),
];

// A stop comes before the first grant, which is older then; a grant of a newer version drops what is held.
static VERSIONS: [Row; 9] = [
    (
        Callback(2, CallKind::Stop),
        [0, 1, 0, 1, 0, 0],
        Flushes(0, 0),
    ),
    (Cached(1, 500), [0, 0, 0, 0, 0, 0], Nothing),
    (
        Starts(1, Read(10)),
        [1, 0, 0, 1, 1, 0],
        Asks(Op(FileOp::Read, Some(0))),
    ),
    (
        Answer(0, Value(10, 0, 10)),
        [0, 0, 1, 0, 0, 0],
        Gives(10, 10),
    ),
    (Cached(3, 0), [0, 0, 0, 1, 0, 0], Nothing),
    (Starts(1, Seek(0)), [0, 0, 1, 1, 0, 0], Gives(0, 0)),
    (Starts(1, Write(5000)), [0, 0, 1, 5, 0, 2], Gives(5000, 0)),
    (Newer(4, 700), [0, 0, 0, 3, 0, 0], Nothing),
    (Starts(2, Size), [0, 0, 1, 1, 0, 0], Gives(700, 0)),
];

// The cache is full of dirty blocks: for each block that is new, the least recently used one is written back and dropped.
static ROOMS: [Row; 9] = [
    (Cached(1, 0), [0, 0, 0, 1, 0, 0], Nothing),
    (
        Starts(1, Write(16_384)),
        [0, 0, 1, 9, 0, 4],
        Gives(16_384, 0),
    ),
    (
        Starts(2, Write(16_384)),
        [0, 0, 1, 9, 0, 8],
        Gives(16_384, 0),
    ),
    (
        Starts(2, Write(16_384)),
        [1, 0, 0, 1, 1, 7],
        Asks(Back(1, 0, 32_768)),
    ),
    (Starts(1, Read(10)), [0, 0, 1, 1, 1, 7], Gives(10, 10)),
    (
        Answer(0, Done),
        [1, 0, 0, 4, 1, 6],
        Asks(Back(1, 1, 32_768)),
    ),
    (
        Answer(0, Done),
        [1, 0, 0, 4, 1, 5],
        Asks(Back(1, 2, 32_768)),
    ),
    (
        Answer(0, Done),
        [1, 0, 0, 4, 1, 4],
        Asks(Back(1, 3, 32_768)),
    ),
    (Answer(0, Done), [0, 0, 1, 8, 0, 8], Gives(16_384, 0)),
];

// A write waits for a write-back that is out already, and a reading for its turn behind it, as a stop comes: both go to the
// server.
static FULL: [Row; 9] = [
    (Cached(1, 0), [0, 0, 0, 1, 0, 0], Nothing),
    (
        Starts(1, Write(16_384)),
        [0, 0, 1, 9, 0, 4],
        Gives(16_384, 0),
    ),
    (
        Starts(2, Write(16_384)),
        [0, 0, 1, 9, 0, 8],
        Gives(16_384, 0),
    ),
    (Due(0), [1, 0, 0, 1, 0, 7], Asks(Back(1, 0, 32_768))),
    (Starts(2, Write(10)), [0, 0, 0, 0, 1, 7], Nothing),
    (Starts(1, Write(16_385)), [0, 0, 0, 0, 2, 7], Nothing),
    (
        Callback(2, CallKind::Stop),
        [0, 1, 0, 9, 2, 0],
        Flushes(32_768, 8),
    ),
    (
        Answer(0, Done),
        [2, 0, 0, 2, 2, 0],
        Asks(Op(FileOp::Write, Some(16_384))),
    ),
    (
        Answer(1, Value(10, 32_778, 0)),
        [0, 0, 1, 0, 1, 0],
        Gives(10, 0),
    ),
];

// Two syncs: the second one waits for the first one's write-back, whose block was written once more meanwhile, and then the
// first one for the second one's.
static SYNCS: [Row; 12] = [
    (Cached(1, 0), [0, 0, 0, 1, 0, 0], Nothing),
    (Starts(1, Write(5000)), [0, 0, 1, 5, 0, 2], Gives(5000, 0)),
    (Syncs(1), [1, 0, 0, 1, 1, 1], Asks(Back(1, 0, 5000))),
    (Syncs(2), [0, 0, 0, 0, 2, 1], Nothing),
    (Starts(3, Seek(0)), [0, 0, 1, 1, 2, 1], Gives(0, 0)),
    (Starts(3, Write(1)), [0, 0, 1, 2, 2, 1], Gives(1, 0)),
    (Answer(0, Done), [2, 0, 0, 2, 2, 0], Asks(Back(1, 1, 5000))),
    (Answer(1, Done), [0, 0, 0, 1, 2, 0], Nothing),
    (
        Answer(0, Again(2, 5000)),
        [1, 0, 0, 2, 2, 0],
        Asks(Back(2, 1, 5000)),
    ),
    (
        Callback(3, CallKind::Stop),
        [0, 1, 0, 3, 2, 0],
        Flushes(5000, 1),
    ),
    (Answer(0, Done), [0, 0, 2, 2, 0, 0], Gives(0, 0)),
    (Syncs(1), [0, 0, 1, 1, 0, 0], Gives(0, 0)),
];

#[test]
fn steps_say_what_the_scripts_say(rt: HostRuntime) {
    let alloc = rt.alloc();
    assert!(rt; all_say(alloc, &READINGS));
    assert!(rt; all_say(alloc, &UNCACHED));
    assert!(rt; all_say(alloc, &SHARED));
    assert!(rt; all_say(alloc, &WRITINGS));
    assert!(rt; all_say(alloc, &CROSSINGS));
    assert!(rt; all_say(alloc, &VERSIONS));
    assert!(rt; all_say(alloc, &ROOMS));
    assert!(rt; all_say(alloc, &FULL));
    assert!(rt; all_say(alloc, &SYNCS));
}
