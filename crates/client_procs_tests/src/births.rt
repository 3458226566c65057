use crate::bodies::Says::{Done, Here, Opened, Page, Refused, Value};
use crate::bodies::Wants;
use crate::bodies::Wants::{Comes, Migrates};
use crate::script::Step::{Answer, Asked, Issue};
use crate::script::{Row, first_other, is_none};
use crate::told::Said::{One, Silence, Three, Two};
use crate::told::Told::{Answers, Calls, Dies, Fails, Freezes, Gives, Thaws};
use crate::told::{Asked as Ask, Given};
use crate::words::Does::{Home, Migrate, Open};
use crate::words::Name::{File, Root, SecondClient};
use crate::words::Word::{BadStep, Death, Exit, Fork, Getppid, Host, Kill, Print, Tick, Wait};
use sprite_ids::Errno;

// Forks: of a process at its home; of a foreign one, whose page is fetched first, and whose child is born at its home and begins
// here; and one that its home refuses.
static FORKS: [Row; 11] = [
    (
        Issue(2001, Home(Fork)),
        [3, 3, 0, 0],
        One(Gives(2001, 2003, 0)),
    ),
    (
        Issue(2003, Home(Getppid)),
        [3, 3, 0, 0],
        One(Gives(2003, 2001, 0)),
    ),
    (
        Asked(1, Migrates(3001, 4, false)),
        [1, 3, 0, 1],
        Two(
            Calls(Ask::Place(3001, 2), 3, false),
            Answers(1, Given::Done),
        ),
    ),
    (
        Answer(1, 3, Done),
        [2, 4, 0, 0],
        Two(Thaws(3001), Gives(3001, 0, 0)),
    ),
    (
        Issue(3001, Home(Fork)),
        [2, 4, 0, 1],
        One(Calls(Ask::PageIn(3001, 0), 1, false)),
    ),
    (
        Answer(2, 1, Page),
        [1, 4, 0, 1],
        One(Calls(Ask::Home(3001, 5, Fork), 3, true)),
    ),
    (
        Answer(3, 3, Value(3002, 0)),
        [1, 5, 0, 0],
        One(Gives(3001, 3002, 0)),
    ),
    (
        Issue(3002, Home(Getppid)),
        [2, 5, 0, 1],
        One(Calls(Ask::Home(3002, 1, Getppid), 3, true)),
    ),
    (
        Answer(4, 3, Value(3001, 0)),
        [1, 5, 0, 0],
        One(Gives(3002, 3001, 0)),
    ),
    (
        Issue(3001, Home(Fork)),
        [2, 5, 0, 1],
        One(Calls(Ask::Home(3001, 6, Fork), 3, true)),
    ),
    (
        Answer(5, 3, Refused(Errno::TooMany)),
        [1, 5, 0, 0],
        One(Fails(3001, Errno::TooMany)),
    ),
];

#[test]
fn forks(rt: HostRuntime) {
    is_none(&rt, first_other(rt.alloc(), 0, &FORKS));
}

// Waits: of a process that has no child, before its child's end and behind it.
static WAITS: [Row; 8] = [
    (
        Issue(2001, Home(Wait)),
        [3, 2, 0, 0],
        One(Fails(2001, Errno::NoChild)),
    ),
    (
        Issue(2001, Home(Fork)),
        [3, 3, 0, 0],
        One(Gives(2001, 2003, 0)),
    ),
    (Issue(2001, Home(Wait)), [1, 3, 0, 0], Silence),
    (
        Issue(2003, Home(Exit(7))),
        [4, 2, 0, 0],
        One(Gives(2001, 2003, 7)),
    ),
    (
        Issue(2001, Home(Fork)),
        [3, 3, 0, 0],
        One(Gives(2001, 2004, 0)),
    ),
    (Issue(2004, Home(BadStep)), [2, 2, 0, 0], Silence),
    (
        Issue(2001, Home(Wait)),
        [3, 2, 0, 0],
        One(Gives(2001, 2004, 256)),
    ),
    (
        Issue(2001, Home(Wait)),
        [3, 2, 0, 0],
        One(Fails(2001, Errno::NoChild)),
    ),
];

#[test]
fn waits(rt: HostRuntime) {
    is_none(&rt, first_other(rt.alloc(), 0, &WAITS));
}

// Calls that are done at the home, of a process that is there and of one that has gone to another kernel, and of that one's child.
static HOMES: [Row; 16] = [
    (
        Issue(2001, Home(Print(3))),
        [3, 2, 0, 0],
        One(Gives(2001, 0, 0)),
    ),
    (
        Issue(2001, Home(Host(1))),
        [3, 2, 0, 0],
        One(Gives(2001, 1, 0)),
    ),
    (
        Issue(2001, Home(Host(0))),
        [3, 2, 0, 0],
        One(Fails(2001, Errno::Invalid)),
    ),
    (
        Issue(2001, Home(Tick)),
        [3, 2, 0, 0],
        One(Gives(2001, 1, 0)),
    ),
    (
        Issue(2002, Migrate(SecondClient)),
        [4, 1, 1, 1],
        Two(Calls(Ask::PageOut(2002, 4096), 1, false), Freezes(2002)),
    ),
    (
        Answer(1, 1, Done),
        [1, 1, 0, 1],
        One(Calls(Ask::Transfer(2002, 1, 0, true), 3, true)),
    ),
    (Answer(2, 3, Done), [0, 1, 0, 0], Silence),
    (
        Asked(1, Wants::Place(2002, 3)),
        [0, 1, 0, 0],
        One(Answers(1, Given::Done)),
    ),
    (
        Asked(2, Wants::Home(2002, 2, Tick)),
        [1, 1, 0, 0],
        One(Answers(2, Given::Value(2, 0))),
    ),
    (
        Asked(3, Wants::Home(2002, 3, Host(0))),
        [1, 1, 0, 0],
        One(Answers(3, Given::Refused(Errno::Invalid))),
    ),
    (
        Asked(4, Wants::Home(2002, 4, Fork)),
        [1, 1, 0, 0],
        One(Answers(4, Given::Value(2003, 0))),
    ),
    (Asked(5, Wants::Home(2002, 5, Wait)), [0, 1, 0, 0], Silence),
    (
        Asked(6, Wants::Home(2003, 1, Exit(9))),
        [2, 1, 0, 0],
        Two(
            Answers(5, Given::Value(2003, 9)),
            Answers(6, Given::Value(0, 0)),
        ),
    ),
    (
        Asked(7, Wants::Home(2002, 6, Print(4))),
        [1, 1, 0, 0],
        One(Answers(7, Given::Value(0, 0))),
    ),
    (
        Asked(8, Wants::Home(2002, 7, BadStep)),
        [1, 1, 0, 0],
        One(Answers(8, Given::Value(0, 0))),
    ),
    (
        Issue(2001, Home(Kill(2002))),
        [3, 1, 0, 0],
        One(Fails(2001, Errno::NoProcess)),
    ),
];

#[test]
fn calls_of_a_home(rt: HostRuntime) {
    is_none(&rt, first_other(rt.alloc(), 0, &HOMES));
}

// A foreign process's calls go to its home, and a kill to the home of the one that is killed, which is this one once; it is killed
// inside a wait, which its home breaks off. Another foreign one ends by a bad step.
static ABROAD: [Row; 17] = [
    (
        Asked(1, Comes(3001, 4)),
        [1, 2, 0, 1],
        Two(
            Calls(Ask::Place(3001, 2), 3, false),
            Answers(1, Given::Done),
        ),
    ),
    (Answer(1, 3, Done), [1, 3, 0, 0], One(Thaws(3001))),
    (
        Issue(3001, Home(Print(3))),
        [2, 3, 0, 1],
        One(Calls(Ask::Home(3001, 5, Print(3)), 3, true)),
    ),
    (
        Answer(2, 3, Value(0, 0)),
        [1, 3, 0, 0],
        One(Gives(3001, 0, 0)),
    ),
    (
        Issue(3001, Home(Host(9))),
        [2, 3, 0, 1],
        One(Calls(Ask::Home(3001, 6, Host(9)), 3, true)),
    ),
    (
        Answer(3, 3, Value(1, 0)),
        [1, 3, 0, 0],
        One(Gives(3001, 1, 0)),
    ),
    (
        Issue(3001, Home(Kill(4001))),
        [2, 3, 0, 1],
        One(Calls(Ask::Home(3001, 7, Kill(4001)), 4, true)),
    ),
    (
        Answer(4, 4, Refused(Errno::NoProcess)),
        [1, 3, 0, 0],
        One(Fails(3001, Errno::NoProcess)),
    ),
    (
        Issue(3001, Home(Kill(2002))),
        [4, 2, 0, 0],
        Two(Dies(2002), Gives(3001, 0, 0)),
    ),
    (
        Issue(3001, Home(Wait)),
        [2, 2, 0, 1],
        One(Calls(Ask::Home(3001, 9, Wait), 3, true)),
    ),
    (
        Asked(2, Wants::Killed(3001)),
        [0, 2, 0, 1],
        One(Answers(2, Given::Done)),
    ),
    (
        Answer(5, 3, Refused(Errno::Interrupted)),
        [2, 1, 0, 1],
        Two(
            Calls(Ask::Home(3001, 10, Death), 3, false),
            Fails(3001, Errno::Interrupted),
        ),
    ),
    (Answer(6, 3, Value(0, 0)), [0, 1, 0, 0], Silence),
    (
        Asked(3, Comes(3002, 1)),
        [1, 1, 0, 1],
        Two(
            Calls(Ask::Place(3002, 2), 3, false),
            Answers(3, Given::Done),
        ),
    ),
    (Answer(7, 3, Done), [1, 2, 0, 0], One(Thaws(3002))),
    (
        Issue(3002, Home(BadStep)),
        [2, 2, 0, 1],
        One(Calls(Ask::Home(3002, 2, BadStep), 3, true)),
    ),
    (Answer(8, 3, Value(0, 0)), [0, 1, 0, 0], Silence),
];

#[test]
fn calls_of_a_foreign_process(rt: HostRuntime) {
    is_none(&rt, first_other(rt.alloc(), 0, &ABROAD));
}

// Ends with a file open: an exit that leaves the stream to the child, one with the last reference, which is closed for its sake; and
// a kill inside an open, whose stream is closed for no call's sake.
static ENDS: [Row; 13] = [
    (
        Issue(2001, Open(File)),
        [2, 2, 0, 0],
        One(Calls(Ask::Prefix, 1, true)),
    ),
    (
        Answer(1, 1, Here(Root)),
        [2, 2, 0, 0],
        One(Calls(Ask::Echo, 1, true)),
    ),
    (
        Answer(2, 1, Done),
        [1, 2, 0, 0],
        One(Calls(Ask::Opening(0), 1, true)),
    ),
    (
        Answer(3, 1, Opened(1)),
        [2, 2, 0, 0],
        One(Gives(2001, 0, 0)),
    ),
    (
        Issue(2001, Home(Fork)),
        [3, 3, 0, 0],
        One(Gives(2001, 2003, 0)),
    ),
    (Issue(2001, Home(Exit(3))), [2, 2, 0, 0], Silence),
    (
        Issue(2003, Home(Exit(0))),
        [3, 1, 0, 0],
        One(Calls(Ask::Close(1), 1, true)),
    ),
    (Answer(4, 1, Done), [0, 1, 0, 0], Silence),
    (
        Issue(2002, Open(File)),
        [2, 1, 0, 0],
        One(Calls(Ask::Echo, 1, true)),
    ),
    (
        Asked(1, Wants::Home(3001, 4, Kill(2002))),
        [1, 1, 0, 0],
        One(Answers(1, Given::Value(0, 0))),
    ),
    (
        Answer(5, 1, Done),
        [1, 1, 0, 0],
        One(Calls(Ask::Opening(0), 1, true)),
    ),
    (
        Answer(6, 1, Opened(2)),
        [4, 0, 0, 0],
        Three(
            Calls(Ask::Close(1), 1, false),
            Gives(2002, 0, 0),
            Dies(2002),
        ),
    ),
    (Answer(7, 1, Done), [0, 0, 0, 0], Silence),
];

#[test]
fn ends_with_a_file_open(rt: HostRuntime) {
    is_none(&rt, first_other(rt.alloc(), 0, &ENDS));
}
