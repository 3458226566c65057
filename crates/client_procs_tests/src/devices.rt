use crate::bodies::Says::{Done, Here, OpenedDevice, Refused, Value};
use crate::bodies::Wants;
use crate::bodies::Wants::Comes;
use crate::script::Step::{Answer, Asked, GiveUp, Issue};
use crate::script::{Row, first_other, is_none};
use crate::told::Said::{One, Silence, Three, Two};
use crate::told::Told::{Answers, Calls, Dies, Fails, Gives, Thaws};
use crate::told::{Asked as Ask, Given};
use crate::words::Does::{Close, Get, Home, Ioctl, Make, Open, Put, Read, Write};
use crate::words::Name::{Device, OtherDevice, Root};
use crate::words::Word::{Exit, Fork, Kill};
use sprite_ids::{AskKind, Errno};

// A pseudo-device's asks come from another kernel, the first one before its making is answered: they are taken, answered and
// refused; and those that are left end when the master's end is closed.
static ASKED: [Row; 19] = [
    (
        Issue(2001, Make(Device)),
        [2, 2, 0, 0],
        One(Calls(Ask::Prefix, 1, true)),
    ),
    (
        Answer(1, 1, Here(Root)),
        [2, 2, 0, 0],
        One(Calls(Ask::Echo, 1, true)),
    ),
    (
        Answer(2, 1, Done),
        [1, 2, 0, 0],
        One(Calls(Ask::Make(0), 1, true)),
    ),
    (
        Asked(1, Wants::Ask(3001, 4, AskKind::Read, 10)),
        [1, 2, 0, 0],
        Silence,
    ),
    (
        Answer(3, 1, Value(0, 0)),
        [1, 2, 0, 0],
        One(Gives(2001, 0, 0)),
    ),
    (
        Issue(2001, Get(0, 100)),
        [3, 2, 0, 0],
        One(Gives(2001, 1, 8)),
    ),
    (
        Issue(2001, Get(0, 100)),
        [3, 2, 0, 0],
        One(Fails(2001, Errno::Busy)),
    ),
    (
        Issue(2001, Put(0, 11, 0)),
        [3, 2, 0, 0],
        One(Fails(2001, Errno::Invalid)),
    ),
    (
        Issue(2001, Put(0, 10, 0)),
        [4, 2, 0, 0],
        Two(Gives(2001, 0, 0), Answers(1, Given::Value(10, 0))),
    ),
    (
        Issue(2001, Put(0, 0, 0)),
        [3, 2, 0, 0],
        One(Fails(2001, Errno::Invalid)),
    ),
    (Issue(2001, Get(0, 4)), [1, 2, 0, 0], Silence),
    (
        Asked(2, Wants::Ask(3001, 5, AskKind::Write, 0)),
        [3, 2, 0, 0],
        One(Fails(2001, Errno::Invalid)),
    ),
    (
        Issue(2001, Get(0, 100)),
        [3, 2, 0, 0],
        One(Gives(2001, 2, 8)),
    ),
    (
        Issue(2001, Put(0, 0, 13)),
        [4, 2, 0, 0],
        Two(
            Gives(2001, 0, 0),
            Answers(2, Given::Refused(Errno::NoChild)),
        ),
    ),
    (
        Asked(3, Wants::Ask(3001, 6, AskKind::Ioctl, 10)),
        [1, 2, 0, 0],
        Silence,
    ),
    (
        Asked(4, Wants::Ask(3002, 1, AskKind::Read, 10)),
        [1, 2, 0, 0],
        Silence,
    ),
    (
        Issue(2001, Get(0, 100)),
        [3, 2, 0, 0],
        One(Gives(2001, 3, 8)),
    ),
    (
        Issue(2001, Close(0)),
        [5, 2, 0, 0],
        Three(
            Gives(2001, 0, 0),
            Answers(3, Given::Refused(Errno::NoServer)),
            Answers(4, Given::Refused(Errno::NoServer)),
        ),
    ),
    (
        Asked(5, Wants::Ask(3001, 7, AskKind::Read, 10)),
        [2, 2, 0, 0],
        One(Answers(5, Given::Refused(Errno::NoServer))),
    ),
];

#[test]
fn asks_from_elsewhere(rt: HostRuntime) {
    is_none(&rt, first_other(rt.alloc(), 0, &ASKED));
}

// Two masters wait for one ask: the first takes it, and the other is refused. A kill breaks off the wait for an ask, and one of a
// process that asks meets it when the master has answered.
static MASTERS: [Row; 22] = [
    (
        Issue(2001, Make(Device)),
        [2, 2, 0, 0],
        One(Calls(Ask::Prefix, 1, true)),
    ),
    (
        Answer(1, 1, Here(Root)),
        [2, 2, 0, 0],
        One(Calls(Ask::Echo, 1, true)),
    ),
    (
        Answer(2, 1, Done),
        [1, 2, 0, 0],
        One(Calls(Ask::Make(0), 1, true)),
    ),
    (
        Answer(3, 1, Value(0, 0)),
        [1, 2, 0, 0],
        One(Gives(2001, 0, 0)),
    ),
    (
        Issue(2001, Home(Fork)),
        [3, 3, 0, 0],
        One(Gives(2001, 2003, 0)),
    ),
    (Issue(2001, Get(0, 100)), [1, 3, 0, 0], Silence),
    (Issue(2003, Get(0, 100)), [1, 3, 0, 0], Silence),
    (
        Asked(1, Wants::Ask(3001, 1, AskKind::Read, 10)),
        [5, 3, 0, 0],
        Two(Gives(2001, 1, 8), Fails(2003, Errno::Busy)),
    ),
    (
        Issue(2001, Put(0, 3, 0)),
        [4, 3, 0, 0],
        Two(Gives(2001, 0, 0), Answers(1, Given::Value(3, 0))),
    ),
    (Issue(2003, Get(0, 100)), [1, 3, 0, 0], Silence),
    (
        Issue(2002, Home(Kill(2003))),
        [6, 2, 0, 0],
        Three(
            Fails(2003, Errno::Interrupted),
            Dies(2003),
            Gives(2002, 0, 0),
        ),
    ),
    (
        Asked(2, Wants::Ask(3001, 2, AskKind::Read, 10)),
        [1, 2, 0, 0],
        Silence,
    ),
    (
        Issue(2002, Open(Device)),
        [2, 2, 0, 0],
        One(Calls(Ask::Echo, 1, true)),
    ),
    (
        Answer(4, 1, Done),
        [1, 2, 0, 0],
        One(Calls(Ask::Opening(0), 1, true)),
    ),
    (
        Answer(5, 1, OpenedDevice(2)),
        [1, 2, 0, 0],
        One(Gives(2002, 0, 0)),
    ),
    (Issue(2002, Write(0, 5)), [2, 2, 0, 0], Silence),
    (
        Issue(2001, Home(Kill(2002))),
        [3, 2, 0, 0],
        One(Gives(2001, 0, 0)),
    ),
    (
        Issue(2001, Get(0, 100)),
        [3, 2, 0, 0],
        One(Gives(2001, 1, 8)),
    ),
    (
        Issue(2001, Put(0, 10, 0)),
        [4, 2, 0, 0],
        Two(Gives(2001, 0, 0), Answers(2, Given::Value(10, 0))),
    ),
    (
        Issue(2001, Get(0, 100)),
        [3, 2, 0, 0],
        One(Gives(2001, 2, 5)),
    ),
    (
        Issue(2001, Put(0, 0, 0)),
        [6, 1, 0, 0],
        Three(Gives(2002, 5, 0), Dies(2002), Gives(2001, 0, 0)),
    ),
    (Issue(2001, Home(Exit(0))), [2, 0, 0, 0], Silence),
];

#[test]
fn masters_that_wait(rt: HostRuntime) {
    is_none(&rt, first_other(rt.alloc(), 0, &MASTERS));
}

// A process asks a pseudo-device of another kernel: it is answered, refused, and killed before its ask is answered. The making of
// a device is given up, and no ask of that device is taken.
static ASKS: [Row; 18] = [
    (
        Issue(2001, Open(Device)),
        [2, 2, 0, 0],
        One(Calls(Ask::Prefix, 1, true)),
    ),
    (
        Answer(1, 1, Here(Root)),
        [2, 2, 0, 0],
        One(Calls(Ask::Echo, 1, true)),
    ),
    (
        Answer(2, 1, Done),
        [1, 2, 0, 0],
        One(Calls(Ask::Opening(0), 1, true)),
    ),
    (
        Answer(3, 1, OpenedDevice(3)),
        [1, 2, 0, 0],
        One(Gives(2001, 0, 0)),
    ),
    (
        Issue(2001, Read(0, 20)),
        [2, 2, 0, 1],
        One(Calls(Ask::Ask(2001, 2, AskKind::Read, 20), 3, true)),
    ),
    (
        Answer(4, 3, Value(20, 0)),
        [1, 2, 0, 0],
        One(Gives(2001, 20, 0)),
    ),
    (
        Issue(2001, Ioctl(0, 9, 3)),
        [2, 2, 0, 1],
        One(Calls(Ask::Ask(2001, 3, AskKind::Ioctl, 3), 3, true)),
    ),
    (
        Answer(5, 3, Refused(Errno::NoServer)),
        [1, 2, 0, 0],
        One(Fails(2001, Errno::NoServer)),
    ),
    (
        Issue(2001, Ioctl(1, 9, 3)),
        [3, 2, 0, 0],
        One(Fails(2001, Errno::BadFd)),
    ),
    (
        Issue(2001, Get(0, 10)),
        [3, 2, 0, 0],
        One(Fails(2001, Errno::BadMode)),
    ),
    (
        Issue(2001, Put(3, 0, 0)),
        [3, 2, 0, 0],
        One(Fails(2001, Errno::BadFd)),
    ),
    (
        Issue(2001, Write(0, 5)),
        [2, 2, 0, 1],
        One(Calls(Ask::Ask(2001, 7, AskKind::Write, 0), 3, true)),
    ),
    (
        Issue(2002, Home(Kill(2001))),
        [3, 2, 0, 1],
        One(Gives(2002, 0, 0)),
    ),
    (
        Answer(6, 3, Value(5, 0)),
        [2, 1, 0, 0],
        Two(Gives(2001, 5, 0), Dies(2001)),
    ),
    (
        Issue(2002, Make(OtherDevice)),
        [2, 1, 0, 0],
        One(Calls(Ask::Echo, 1, true)),
    ),
    (
        GiveUp(7),
        [2, 1, 0, 0],
        One(Fails(2002, Errno::Unreachable)),
    ),
    (
        Asked(1, Wants::Ask(3001, 1, AskKind::Read, 10)),
        [2, 1, 0, 0],
        One(Answers(1, Given::Refused(Errno::NoServer))),
    ),
    (
        Issue(2002, Get(0, 10)),
        [3, 1, 0, 0],
        One(Fails(2002, Errno::BadFd)),
    ),
];

#[test]
fn asks_to_elsewhere(rt: HostRuntime) {
    is_none(&rt, first_other(rt.alloc(), 0, &ASKS));
}

// At the third call the foreign processes leave, but one that holds a master's end stays, and is not asked again; asks that come
// behind its exit end when its descriptors are closed.
static FOREIGN: [Row; 11] = [
    (
        Asked(1, Comes(3001, 1)),
        [1, 2, 0, 1],
        Two(
            Calls(Ask::Place(3001, 2), 3, false),
            Answers(1, Given::Done),
        ),
    ),
    (Answer(1, 3, Done), [1, 3, 0, 0], One(Thaws(3001))),
    (
        Issue(3001, Make(Device)),
        [2, 3, 0, 0],
        One(Calls(Ask::Prefix, 1, true)),
    ),
    (
        Answer(2, 1, Here(Root)),
        [2, 3, 0, 0],
        One(Calls(Ask::Echo, 1, true)),
    ),
    (
        Answer(3, 1, Done),
        [1, 3, 0, 0],
        One(Calls(Ask::Make(0), 1, true)),
    ),
    (
        Answer(4, 1, Value(0, 0)),
        [1, 3, 0, 0],
        One(Gives(3001, 0, 0)),
    ),
    (
        Issue(2001, Ioctl(0, 1, 0)),
        [3, 3, 0, 0],
        One(Fails(2001, Errno::BadFd)),
    ),
    (
        Issue(2001, Put(0, 0, 0)),
        [3, 3, 0, 0],
        One(Fails(2001, Errno::BadFd)),
    ),
    (
        Issue(3001, Home(Exit(0))),
        [2, 3, 0, 1],
        One(Calls(Ask::Home(3001, 3, Exit(0)), 3, true)),
    ),
    (
        Asked(2, Wants::Ask(3002, 1, AskKind::Read, 10)),
        [1, 3, 0, 1],
        Silence,
    ),
    (
        Answer(5, 3, Value(0, 0)),
        [1, 2, 0, 0],
        One(Answers(2, Given::Refused(Errno::NoServer))),
    ),
];

#[test]
fn a_foreign_master(rt: HostRuntime) {
    is_none(&rt, first_other(rt.alloc(), 3, &FOREIGN));
}

// The making of a device is refused, and no ask of that device is taken.
static UNMADE: [Row; 6] = [
    (
        Issue(2001, Make(Device)),
        [2, 2, 0, 0],
        One(Calls(Ask::Prefix, 1, true)),
    ),
    (
        Answer(1, 1, Here(Root)),
        [2, 2, 0, 0],
        One(Calls(Ask::Echo, 1, true)),
    ),
    (
        Answer(2, 1, Done),
        [1, 2, 0, 0],
        One(Calls(Ask::Make(0), 1, true)),
    ),
    (
        Answer(3, 1, Refused(Errno::Exists)),
        [1, 2, 0, 0],
        One(Fails(2001, Errno::Exists)),
    ),
    (
        Asked(1, Wants::Ask(3001, 1, AskKind::Read, 10)),
        [2, 2, 0, 0],
        One(Answers(1, Given::Refused(Errno::NoServer))),
    ),
    (
        Issue(2001, Get(0, 10)),
        [3, 2, 0, 0],
        One(Fails(2001, Errno::BadFd)),
    ),
];

#[test]
fn a_device_that_is_not_made(rt: HostRuntime) {
    is_none(&rt, first_other(rt.alloc(), 0, &UNMADE));
}
