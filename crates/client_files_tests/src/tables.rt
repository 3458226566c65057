use crate::bodies::Says::{
    Block, Done, Here, Moved, Opened, OpenedDevice, Redirect, Refused, Value,
};
use crate::calls::Does::{
    Chdir, Close, Dup, List, Mkdir, Open, Read, Rename, Rmdir, Seek, Size, Stat, Sync, Unlink,
    Write,
};
use crate::calls::Name::{
    Device, Domain, DomainDevice, DomainFile, Empty, File, Folder, OtherFolder, Relative, Root,
};
use crate::script::Inside::{Arrives, Ends, Fills, Makes, Moves};
use crate::script::Step::{Answer, Due, GiveUp, Inside, Issue, Stop};
use crate::script::{Row, first_other, is_none};
use crate::told::Told::{AllClosed, Asks, Fails, Flushes, Gives, MasterClosed, Nothing};
use crate::told::{Asked, Told};
use crate::world::Comes;
use packet_bodies::NameOp;
use sprite_ids::Errno;
use stream_table::Place;

// Two processes meet one prefix: each asks for itself, and it is learned once. The second one's file comes first, and the
// first one's grant is older then. Then data go through the same steps: a fetch, a write-back, a stop.
static OPENS: [Row; 17] = [
    (
        Issue(1, Open(File, 3)),
        [1, 0, 0, 2, 1, 0],
        Asks(Asked::Prefix, 3),
    ),
    (
        Issue(2, Open(File, 1)),
        [1, 0, 0, 2, 2, 0],
        Asks(Asked::Prefix, 3),
    ),
    (
        Answer(1, 1, Here(Root)),
        [1, 0, 0, 2, 2, 0],
        Asks(Asked::Echo, 1),
    ),
    (
        Answer(1, 1, Here(Root)),
        [1, 0, 0, 1, 2, 0],
        Asks(Asked::Echo, 1),
    ),
    (
        Answer(1, 1, Done),
        [1, 0, 0, 1, 2, 0],
        Asks(Asked::Opening(3, 0), 1),
    ),
    (
        Answer(1, 1, Done),
        [1, 0, 0, 1, 2, 0],
        Asks(Asked::Opening(1, 0), 1),
    ),
    (Answer(0, 1, Opened(2)), [0, 0, 1, 1, 1, 0], Gives(0, 0)),
    (Answer(1, 1, Opened(1)), [0, 0, 1, 0, 0, 0], Gives(0, 0)),
    (
        Issue(1, Write(0, 5)),
        [1, 0, 0, 1, 1, 0],
        Asks(Asked::Fetch(2, 0), 1),
    ),
    (Answer(0, 1, Block(2, 100)), [0, 0, 1, 3, 0, 0], Gives(5, 0)),
    (
        Issue(2, Write(0, 5)),
        [0, 0, 1, 1, 0, 0],
        Fails(Errno::BadMode),
    ),
    (Issue(2, Read(0, 10)), [0, 0, 1, 1, 0, 0], Gives(10, 10)),
    (Due(0), [1, 0, 0, 1, 0, 0], Asks(Asked::Back(2, 0), 1)),
    (Stop(3), [0, 1, 0, 2, 0, 0], Flushes(100, 1)),
    (Answer(0, 1, Done), [0, 0, 0, 0, 0, 0], Nothing),
    (Issue(2, Size(0)), [1, 0, 0, 1, 1, 0], Asks(Asked::Op, 1)),
    (
        Answer(0, 1, Value(100, 0)),
        [0, 0, 1, 0, 0, 0],
        Gives(100, 0),
    ),
];

#[test]
fn opens(rt: HostRuntime) {
    is_none(&rt, first_other(rt.alloc(), 1, &OPENS));
}

// A broadcast and an echo are given up, and a request is refused.
static UNREACHED: [Row; 9] = [
    (
        Issue(1, Stat(File)),
        [1, 0, 0, 2, 1, 0],
        Asks(Asked::Prefix, 3),
    ),
    (GiveUp(0), [0, 0, 1, 1, 0, 0], Fails(Errno::Unreachable)),
    (
        Issue(1, Stat(File)),
        [1, 0, 0, 2, 1, 0],
        Asks(Asked::Prefix, 3),
    ),
    (
        Answer(0, 1, Here(Root)),
        [1, 0, 0, 2, 1, 0],
        Asks(Asked::Echo, 1),
    ),
    (GiveUp(0), [0, 0, 1, 1, 0, 0], Fails(Errno::Unreachable)),
    (
        Issue(1, Stat(File)),
        [1, 0, 0, 1, 1, 0],
        Asks(Asked::Echo, 1),
    ),
    (
        Answer(0, 1, Done),
        [1, 0, 0, 1, 1, 0],
        Asks(Asked::Name(NameOp::Stat), 1),
    ),
    (
        Answer(0, 1, Refused(Errno::NoEntry)),
        [0, 0, 1, 0, 0, 0],
        Fails(Errno::NoEntry),
    ),
    (GiveUp(0), [0, 0, 0, 0, 0, 0], Nothing),
];

#[test]
fn servers_that_are_not_reached(rt: HostRuntime) {
    is_none(&rt, first_other(rt.alloc(), 1, &UNREACHED));
}

// Two paths lead on into one domain: the first call asks who serves it, the second one knows by then. The second process's
// working directory is in that domain from then on.
static DOMAINS: [Row; 15] = [
    (
        Issue(1, Open(DomainFile, 3)),
        [1, 0, 0, 2, 1, 0],
        Asks(Asked::Prefix, 3),
    ),
    (
        Answer(0, 1, Here(Root)),
        [1, 0, 0, 2, 1, 0],
        Asks(Asked::Echo, 1),
    ),
    (
        Answer(0, 1, Done),
        [1, 0, 0, 1, 1, 0],
        Asks(Asked::Opening(3, 0), 1),
    ),
    (
        Issue(2, Chdir(DomainFile)),
        [1, 0, 0, 1, 2, 0],
        Asks(Asked::Echo, 1),
    ),
    (
        Answer(0, 1, Done),
        [1, 0, 0, 1, 2, 0],
        Asks(Asked::Name(NameOp::Chdir), 1),
    ),
    (
        Answer(2, 1, Redirect(Domain)),
        [1, 0, 0, 2, 2, 0],
        Asks(Asked::Prefix, 3),
    ),
    (
        Answer(0, 3, Here(Domain)),
        [1, 0, 0, 2, 2, 0],
        Asks(Asked::Echo, 3),
    ),
    (
        Answer(2, 1, Redirect(Domain)),
        [1, 0, 0, 1, 2, 0],
        Asks(Asked::Echo, 3),
    ),
    (
        Answer(1, 3, Done),
        [1, 0, 0, 1, 2, 0],
        Asks(Asked::Opening(3, 0), 3),
    ),
    (
        Answer(1, 3, Done),
        [1, 0, 0, 1, 2, 0],
        Asks(Asked::Name(NameOp::Chdir), 3),
    ),
    (
        Answer(1, 3, Refused(Errno::IsDir)),
        [0, 0, 1, 0, 1, 0],
        Fails(Errno::IsDir),
    ),
    (Answer(0, 3, Value(0, 0)), [0, 0, 1, 0, 0, 0], Gives(0, 0)),
    (
        Issue(2, Stat(Relative)),
        [1, 0, 0, 1, 1, 0],
        Asks(Asked::Echo, 3),
    ),
    (GiveUp(0), [0, 0, 1, 1, 0, 0], Fails(Errno::Unreachable)),
    (
        Issue(1, Stat(Relative)),
        [1, 0, 0, 1, 1, 0],
        Asks(Asked::Echo, 1),
    ),
];

#[test]
fn domains(rt: HostRuntime) {
    is_none(&rt, first_other(rt.alloc(), 1, &DOMAINS));
}

// The other name calls.
static NAMES: [Row; 16] = [
    (
        Issue(1, Rmdir(Folder)),
        [1, 0, 0, 2, 1, 0],
        Asks(Asked::Prefix, 3),
    ),
    (
        Answer(0, 1, Here(Root)),
        [1, 0, 0, 2, 1, 0],
        Asks(Asked::Echo, 1),
    ),
    (
        Answer(0, 1, Done),
        [1, 0, 0, 1, 1, 0],
        Asks(Asked::Name(NameOp::Rmdir), 1),
    ),
    (
        Answer(0, 1, Refused(Errno::NotEmpty)),
        [0, 0, 1, 0, 0, 0],
        Fails(Errno::NotEmpty),
    ),
    (
        Issue(1, Unlink(Folder)),
        [1, 0, 0, 1, 1, 0],
        Asks(Asked::Echo, 1),
    ),
    (
        Answer(0, 1, Done),
        [1, 0, 0, 1, 1, 0],
        Asks(Asked::Name(NameOp::Unlink), 1),
    ),
    (Answer(0, 1, Value(0, 0)), [0, 0, 1, 0, 0, 0], Gives(0, 0)),
    (
        Issue(1, Rename(Folder, OtherFolder)),
        [1, 0, 0, 1, 1, 0],
        Asks(Asked::Echo, 1),
    ),
    (
        Answer(0, 1, Done),
        [1, 0, 0, 1, 1, 0],
        Asks(Asked::Name(NameOp::Rename), 1),
    ),
    (Answer(0, 1, Value(0, 0)), [0, 0, 1, 0, 0, 0], Gives(0, 0)),
    (
        Issue(1, List(Folder, 100)),
        [1, 0, 0, 1, 1, 0],
        Asks(Asked::Echo, 1),
    ),
    (
        Answer(0, 1, Done),
        [1, 0, 0, 1, 1, 0],
        Asks(Asked::Name(NameOp::List), 1),
    ),
    (Answer(0, 1, Value(4, 4)), [0, 0, 1, 0, 0, 0], Gives(4, 4)),
    (
        Issue(1, Mkdir(Folder)),
        [1, 0, 0, 1, 1, 0],
        Asks(Asked::Echo, 1),
    ),
    (
        Answer(0, 1, Done),
        [1, 0, 0, 1, 1, 0],
        Asks(Asked::Name(NameOp::Mkdir), 1),
    ),
    (Answer(0, 1, Value(0, 0)), [0, 0, 1, 0, 0, 0], Gives(0, 0)),
];

#[test]
fn names(rt: HostRuntime) {
    is_none(&rt, first_other(rt.alloc(), 1, &NAMES));
}

// What is refused here: no lawful flags, no name, no descriptor, too much.
static REFUSALS: [Row; 16] = [
    (
        Issue(1, Open(File, 0)),
        [0, 0, 1, 1, 0, 0],
        Fails(Errno::Invalid),
    ),
    (
        Issue(1, Open(File, 9)),
        [0, 0, 1, 1, 0, 0],
        Fails(Errno::Invalid),
    ),
    (
        Issue(1, Open(File, 17)),
        [0, 0, 1, 1, 0, 0],
        Fails(Errno::Invalid),
    ),
    (
        Issue(1, Open(File, 32)),
        [0, 0, 1, 1, 0, 0],
        Fails(Errno::Invalid),
    ),
    (
        Issue(1, Open(Empty, 1)),
        [0, 0, 1, 1, 0, 0],
        Fails(Errno::BadName),
    ),
    (
        Issue(1, Stat(Empty)),
        [0, 0, 1, 1, 0, 0],
        Fails(Errno::BadName),
    ),
    (
        Issue(1, Rename(Empty, OtherFolder)),
        [0, 0, 1, 1, 0, 0],
        Fails(Errno::BadName),
    ),
    (
        Issue(1, Rename(Folder, Empty)),
        [0, 0, 1, 1, 0, 0],
        Fails(Errno::BadName),
    ),
    (
        Inside(1, Makes(Empty)),
        [0, 0, 1, 1, 0, 0],
        Fails(Errno::BadName),
    ),
    (Issue(1, Close(0)), [0, 0, 1, 1, 0, 0], Fails(Errno::BadFd)),
    (Issue(1, Dup(16)), [0, 0, 1, 1, 0, 0], Fails(Errno::BadFd)),
    (
        Issue(1, Read(0, 1)),
        [0, 0, 1, 1, 0, 0],
        Fails(Errno::BadFd),
    ),
    (
        Issue(1, Write(0, 1)),
        [0, 0, 1, 1, 0, 0],
        Fails(Errno::BadFd),
    ),
    (
        Issue(1, Seek(0, 0)),
        [0, 0, 1, 1, 0, 0],
        Fails(Errno::BadFd),
    ),
    (Issue(1, Size(0)), [0, 0, 1, 1, 0, 0], Fails(Errno::BadFd)),
    (Issue(1, Sync(0)), [0, 0, 1, 1, 0, 0], Fails(Errno::BadFd)),
];

#[test]
fn refusals(rt: HostRuntime) {
    is_none(&rt, first_other(rt.alloc(), 1, &REFUSALS));
}

// All 16 descriptors are in use; a seek past the limit.
static FULL: [Row; 7] = [
    (
        Inside(
            1,
            Arrives(Comes {
                number: 7,
                fd: 0,
                stamp: Some(1),
                place: Place::Local(0),
            }),
        ),
        [0, 0, 0, 1, 0, 0],
        Nothing,
    ),
    (
        Issue(1, Seek(0, 262_145)),
        [0, 0, 1, 1, 0, 0],
        Fails(Errno::Invalid),
    ),
    (Inside(1, Fills), [0, 0, 0, 0, 0, 0], Nothing),
    (Issue(1, Dup(0)), [0, 0, 1, 1, 0, 0], Fails(Errno::TooMany)),
    (
        Issue(1, Open(Empty, 1)),
        [0, 0, 1, 1, 0, 0],
        Fails(Errno::TooMany),
    ),
    (
        Inside(1, Makes(Empty)),
        [0, 0, 1, 1, 0, 0],
        Fails(Errno::TooMany),
    ),
    (
        Inside(1, Ends),
        [1, 0, 0, 1, 1, 0],
        Asks(Asked::Close(1), 1),
    ),
];

#[test]
fn descriptors_in_use(rt: HostRuntime) {
    is_none(&rt, first_other(rt.alloc(), 1, &FULL));
}

// A pseudo-device is made and opened; its ends are closed, and a client's end moves at once.
static DEVICES: [Row; 16] = [
    (
        Inside(1, Makes(Device)),
        [1, 0, 0, 2, 1, 0],
        Asks(Asked::Prefix, 3),
    ),
    (
        Answer(0, 1, Here(Root)),
        [1, 0, 0, 2, 1, 0],
        Asks(Asked::Echo, 1),
    ),
    (
        Answer(0, 1, Done),
        [1, 0, 0, 1, 1, 0],
        Asks(Asked::Make(0), 1),
    ),
    (Answer(0, 1, Value(0, 0)), [0, 0, 1, 0, 0, 0], Gives(0, 0)),
    (
        Issue(1, Read(0, 10)),
        [0, 0, 1, 1, 0, 0],
        Fails(Errno::BadMode),
    ),
    (
        Issue(1, Write(0, 1)),
        [0, 0, 1, 1, 0, 0],
        Fails(Errno::BadMode),
    ),
    (Issue(1, Sync(0)), [0, 0, 1, 1, 0, 0], Fails(Errno::Invalid)),
    (
        Issue(2, Open(Device, 3)),
        [1, 0, 0, 1, 1, 0],
        Asks(Asked::Echo, 1),
    ),
    (
        Answer(0, 1, Done),
        [1, 0, 0, 1, 1, 0],
        Asks(Asked::Opening(3, 0), 1),
    ),
    (Answer(0, 1, OpenedDevice), [0, 0, 1, 0, 0, 0], Gives(0, 0)),
    (Issue(2, Dup(0)), [0, 0, 1, 1, 0, 0], Gives(1, 0)),
    (Issue(2, Close(0)), [0, 0, 1, 1, 0, 0], Gives(0, 0)),
    (
        Inside(2, Moves(2)),
        [0, 0, 0, 0, 0, 1],
        Told::Moved(Place::Local(0), None, 1),
    ),
    (Issue(1, Dup(0)), [0, 0, 1, 1, 0, 0], Gives(1, 0)),
    (Issue(1, Close(0)), [0, 0, 1, 1, 0, 0], Gives(0, 0)),
    (Issue(1, Close(1)), [0, 0, 1, 1, 0, 1], MasterClosed),
];

#[test]
fn devices(rt: HostRuntime) {
    is_none(&rt, first_other(rt.alloc(), 1, &DEVICES));
}

// The making of a pseudo-device is refused, and leads on.
static MAKES: [Row; 8] = [
    (
        Inside(1, Makes(Device)),
        [1, 0, 0, 2, 1, 0],
        Asks(Asked::Prefix, 3),
    ),
    (
        Answer(0, 1, Here(Root)),
        [1, 0, 0, 2, 1, 0],
        Asks(Asked::Echo, 1),
    ),
    (
        Answer(0, 1, Done),
        [1, 0, 0, 1, 1, 0],
        Asks(Asked::Make(0), 1),
    ),
    (
        Answer(0, 1, Refused(Errno::Exists)),
        [0, 0, 1, 0, 0, 0],
        Fails(Errno::Exists),
    ),
    (
        Inside(1, Makes(DomainDevice)),
        [1, 0, 0, 1, 1, 0],
        Asks(Asked::Echo, 1),
    ),
    (
        Answer(0, 1, Done),
        [1, 0, 0, 1, 1, 0],
        Asks(Asked::Make(0), 1),
    ),
    (
        Answer(0, 1, Redirect(Domain)),
        [1, 0, 0, 2, 1, 0],
        Asks(Asked::Prefix, 3),
    ),
    (GiveUp(0), [0, 0, 1, 1, 0, 0], Fails(Errno::Unreachable)),
];

#[test]
fn devices_that_are_not_made(rt: HostRuntime) {
    is_none(&rt, first_other(rt.alloc(), 1, &MAKES));
}

// A close waits for the lock that a reading has; at the end of a process its last reference is closed at the server, and the
// same stream arrives again meanwhile: a reading of it waits for the answer.
static CLOSES: [Row; 15] = [
    (
        Inside(
            1,
            Arrives(Comes {
                number: 7,
                fd: 0,
                stamp: Some(1),
                place: Place::Local(0),
            }),
        ),
        [0, 0, 0, 1, 0, 0],
        Nothing,
    ),
    (Issue(1, Dup(0)), [0, 0, 1, 1, 0, 0], Gives(1, 0)),
    (Issue(1, Dup(1)), [0, 0, 1, 1, 0, 0], Gives(2, 0)),
    (Issue(1, Close(0)), [0, 0, 1, 1, 0, 0], Gives(0, 0)),
    (
        Issue(1, Read(2, 10)),
        [1, 0, 0, 1, 1, 0],
        Asks(Asked::Fetch(1, 0), 1),
    ),
    (
        Inside(
            2,
            Arrives(Comes {
                number: 7,
                fd: 0,
                stamp: None,
                place: Place::Local(0),
            }),
        ),
        [0, 0, 0, 0, 1, 0],
        Nothing,
    ),
    (Issue(2, Close(0)), [0, 0, 0, 0, 2, 0], Nothing),
    (Answer(0, 1, Block(1, 100)), [0, 0, 2, 3, 0, 0], Gives(0, 0)),
    (
        Inside(1, Ends),
        [1, 0, 0, 1, 1, 0],
        Asks(Asked::Close(2), 1),
    ),
    (
        Inside(
            2,
            Arrives(Comes {
                number: 7,
                fd: 0,
                stamp: Some(2),
                place: Place::Local(0),
            }),
        ),
        [0, 0, 0, 1, 1, 0],
        Nothing,
    ),
    (Issue(2, Read(0, 10)), [0, 0, 0, 0, 2, 0], Nothing),
    (Answer(0, 1, Done), [0, 0, 1, 1, 0, 1], AllClosed),
    (
        Issue(2, Close(0)),
        [1, 0, 0, 2, 1, 0],
        Asks(Asked::Close(1), 1),
    ),
    (Answer(0, 1, Done), [0, 0, 1, 0, 0, 0], Gives(0, 0)),
    (Issue(2, Close(0)), [0, 0, 1, 1, 0, 0], Fails(Errno::BadFd)),
];

#[test]
fn closes(rt: HostRuntime) {
    is_none(&rt, first_other(rt.alloc(), 1, &CLOSES));
}

// A stream of two processes moves with the first one: the close of the second one waits, and is the last reference here. A
// stop comes before the grant of a stream that arrives.
static MOVES: [Row; 10] = [
    (
        Inside(
            1,
            Arrives(Comes {
                number: 7,
                fd: 0,
                stamp: Some(1),
                place: Place::Local(5),
            }),
        ),
        [0, 0, 0, 1, 0, 0],
        Nothing,
    ),
    (
        Inside(
            2,
            Arrives(Comes {
                number: 7,
                fd: 0,
                stamp: None,
                place: Place::Local(5),
            }),
        ),
        [0, 0, 0, 0, 0, 0],
        Nothing,
    ),
    (
        Inside(1, Moves(7)),
        [1, 0, 0, 1, 1, 0],
        Asks(Asked::Move(true, Some(5), 0), 1),
    ),
    (Issue(2, Close(0)), [0, 0, 0, 0, 2, 0], Nothing),
    (
        Answer(0, 1, Moved(Some(2))),
        [1, 0, 0, 2, 1, 1],
        Told::Moved(Place::Shared, Some(2), 1),
    ),
    (Answer(0, 1, Done), [0, 0, 1, 0, 0, 0], Gives(0, 0)),
    (Stop(4), [0, 1, 0, 1, 0, 0], Flushes(100, 0)),
    (
        Inside(
            1,
            Arrives(Comes {
                number: 9,
                fd: 0,
                stamp: Some(3),
                place: Place::Local(0),
            }),
        ),
        [0, 0, 0, 0, 0, 0],
        Nothing,
    ),
    (
        Issue(1, Read(0, 10)),
        [1, 0, 0, 1, 1, 0],
        Asks(Asked::Op, 1),
    ),
    (
        Answer(0, 1, Value(10, 10)),
        [0, 0, 1, 0, 0, 0],
        Gives(10, 10),
    ),
];

#[test]
fn moves(rt: HostRuntime) {
    is_none(&rt, first_other(rt.alloc(), 1, &MOVES));
}

// A move waits for the lock that a reading has; the first process's makes the stream shared, the second one's moves a shared
// one. The same stream arrives again while its move has no answer: a seek of it waits.
static SHARED: [Row; 16] = [
    (
        Inside(
            1,
            Arrives(Comes {
                number: 8,
                fd: 3,
                stamp: Some(1),
                place: Place::Local(0),
            }),
        ),
        [0, 0, 0, 1, 0, 0],
        Nothing,
    ),
    (
        Inside(
            2,
            Arrives(Comes {
                number: 8,
                fd: 0,
                stamp: None,
                place: Place::Local(0),
            }),
        ),
        [0, 0, 0, 0, 0, 0],
        Nothing,
    ),
    (
        Issue(2, Read(0, 10)),
        [1, 0, 0, 1, 1, 0],
        Asks(Asked::Fetch(1, 0), 1),
    ),
    (Inside(1, Moves(8)), [0, 0, 0, 0, 2, 0], Nothing),
    (
        Answer(0, 1, Block(1, 100)),
        [1, 0, 1, 3, 1, 0],
        Asks(Asked::Move(true, Some(10), 0), 1),
    ),
    (
        Answer(0, 1, Moved(None)),
        [0, 0, 0, 0, 0, 1],
        Told::Moved(Place::Shared, None, 1),
    ),
    (
        Issue(2, Read(0, 10)),
        [1, 0, 0, 1, 1, 0],
        Asks(Asked::Op, 1),
    ),
    (
        Answer(0, 1, Value(10, 10)),
        [0, 0, 1, 0, 0, 0],
        Gives(10, 10),
    ),
    (
        Inside(2, Moves(8)),
        [1, 0, 0, 1, 1, 0],
        Asks(Asked::Move(false, None, 2), 1),
    ),
    (
        Answer(0, 1, Moved(Some(2))),
        [0, 0, 0, 0, 0, 1],
        Told::Moved(Place::Shared, Some(2), 1),
    ),
    (
        Inside(
            1,
            Arrives(Comes {
                number: 9,
                fd: 0,
                stamp: Some(2),
                place: Place::Local(4),
            }),
        ),
        [0, 0, 0, 1, 0, 0],
        Nothing,
    ),
    (
        Inside(1, Moves(9)),
        [1, 0, 0, 1, 1, 0],
        Asks(Asked::Move(false, None, 1), 1),
    ),
    (
        Inside(
            2,
            Arrives(Comes {
                number: 9,
                fd: 0,
                stamp: Some(3),
                place: Place::Local(4),
            }),
        ),
        [0, 0, 0, 1, 1, 0],
        Nothing,
    ),
    (Issue(2, Seek(0, 6)), [0, 0, 0, 0, 2, 0], Nothing),
    (
        Answer(0, 1, Moved(Some(4))),
        [0, 0, 1, 1, 0, 1],
        Told::Moved(Place::Local(4), Some(4), 1),
    ),
    (Inside(1, Moves(77)), [0, 0, 0, 0, 0, 0], Nothing),
];

#[test]
fn shared_streams(rt: HostRuntime) {
    is_none(&rt, first_other(rt.alloc(), 1, &SHARED));
}
