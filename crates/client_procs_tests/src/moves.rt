use crate::bodies::Says::{Done, Here, Moved, Opened, Page, Value};
use crate::bodies::Wants::{Brings, Comes, Killed, Launches, Migrates};
use crate::script::Step::{Answer, Asked, Issue, Needs};
use crate::script::{Row, first_other, is_none};
use crate::told::Said::{One, Silence, Three, Two};
use crate::told::Told::{Answers, Calls, Fails, Freezes, Gives, Thaws};
use crate::told::{Asked as Ask, Given};
use crate::words::Does::{Close, Exec, Getpid, Home, Make, Migrate, Open, Read, Rexec};
use crate::words::Name::{
    AlsoUnknown, Client, Device, File, Program, Root, SecondClient, Server, ThirdClient, Unknown,
};
use crate::words::Word::{Death, Fork, Tick};
use sprite_ids::Errno;

// Moves that are refused, and those to the kernel where the process is.
static STAYS: [Row; 15] = [
    (
        Issue(2001, Migrate(Unknown)),
        [3, 2, 0, 0],
        One(Fails(2001, Errno::BadHost)),
    ),
    (
        Issue(2001, Migrate(Server)),
        [3, 2, 0, 0],
        One(Fails(2001, Errno::BadHost)),
    ),
    (
        Issue(2001, Migrate(Client)),
        [3, 2, 0, 0],
        One(Gives(2001, 0, 0)),
    ),
    (
        Issue(2001, Rexec(Unknown, AlsoUnknown)),
        [3, 2, 0, 0],
        One(Fails(2001, Errno::NoEntry)),
    ),
    (
        Issue(2001, Rexec(Program, Server)),
        [3, 2, 0, 0],
        One(Fails(2001, Errno::BadHost)),
    ),
    (
        Issue(2001, Rexec(Program, Client)),
        [3, 2, 0, 0],
        One(Gives(2001, 0, 0)),
    ),
    (
        Issue(2001, Exec(Unknown)),
        [3, 2, 0, 0],
        One(Fails(2001, Errno::NoEntry)),
    ),
    (
        Issue(2001, Exec(Program)),
        [3, 2, 0, 0],
        One(Gives(2001, 0, 0)),
    ),
    (
        Issue(2001, Make(Device)),
        [2, 2, 0, 0],
        One(Calls(Ask::Prefix, 1, true)),
    ),
    (
        Answer(1, 1, Here(Root)),
        [2, 2, 0, 0],
        One(Calls(Ask::Echo, 1, true)),
    ),
    (
        Answer(2, 1, Done),
        [1, 2, 0, 0],
        One(Calls(Ask::Make(0), 1, true)),
    ),
    (
        Answer(3, 1, Value(0, 0)),
        [1, 2, 0, 0],
        One(Gives(2001, 0, 0)),
    ),
    (
        Issue(2001, Migrate(SecondClient)),
        [3, 2, 0, 0],
        One(Fails(2001, Errno::Busy)),
    ),
    (
        Issue(2001, Rexec(Program, SecondClient)),
        [3, 2, 0, 0],
        One(Fails(2001, Errno::Busy)),
    ),
    (
        Issue(2001, Migrate(Client)),
        [3, 2, 0, 0],
        One(Fails(2001, Errno::Busy)),
    ),
];

#[test]
fn moves_that_are_refused(rt: HostRuntime) {
    is_none(&rt, first_other(rt.alloc(), 0, &STAYS));
}

// Two processes move, each with a stream: the page of the first is put before its stream has moved, and the second one's behind
// that. The second one's stream stays with its child too, whose reading is then done at the server, and which starts its next
// program elsewhere, with no page.
static MOVES: [Row; 19] = [
    (
        Issue(2001, Open(File)),
        [2, 2, 0, 0],
        One(Calls(Ask::Prefix, 1, true)),
    ),
    (
        Answer(1, 1, Here(Root)),
        [2, 2, 0, 0],
        One(Calls(Ask::Echo, 1, true)),
    ),
    (
        Answer(2, 1, Done),
        [1, 2, 0, 0],
        One(Calls(Ask::Opening(0), 1, true)),
    ),
    (
        Answer(3, 1, Opened(1)),
        [2, 2, 0, 0],
        One(Gives(2001, 0, 0)),
    ),
    (
        Issue(2001, Migrate(SecondClient)),
        [5, 1, 1, 1],
        Three(
            Calls(Ask::PageOut(2001, 4096), 1, false),
            Calls(Ask::Move(false, None, 1), 1, true),
            Freezes(2001),
        ),
    ),
    (Answer(4, 1, Done), [0, 1, 1, 0], Silence),
    (
        Answer(5, 1, Moved(Some(2))),
        [1, 1, 0, 1],
        One(Calls(Ask::Transfer(2001, 2, 1, true), 3, true)),
    ),
    (Answer(6, 3, Done), [0, 1, 0, 0], Silence),
    (
        Issue(2002, Open(File)),
        [2, 1, 0, 0],
        One(Calls(Ask::Echo, 1, true)),
    ),
    (
        Answer(7, 1, Done),
        [1, 1, 0, 0],
        One(Calls(Ask::Opening(0), 1, true)),
    ),
    (
        Answer(8, 1, Opened(3)),
        [2, 1, 0, 0],
        One(Gives(2002, 0, 0)),
    ),
    (
        Issue(2002, Home(Fork)),
        [3, 2, 0, 0],
        One(Gives(2002, 2003, 0)),
    ),
    (
        Issue(2002, Migrate(SecondClient)),
        [5, 1, 1, 1],
        Three(
            Calls(Ask::PageOut(2002, 4096), 1, false),
            Calls(Ask::Move(true, Some(0), 0), 1, true),
            Freezes(2002),
        ),
    ),
    (Answer(10, 1, Moved(Some(4))), [0, 1, 1, 1], Silence),
    (
        Answer(9, 1, Done),
        [1, 1, 0, 1],
        One(Calls(Ask::Transfer(2002, 3, 1, true), 3, true)),
    ),
    (
        Issue(2003, Read(0, 10)),
        [2, 1, 0, 1],
        One(Calls(Ask::Op, 1, true)),
    ),
    (
        Answer(12, 1, Value(10, 0)),
        [1, 1, 0, 1],
        One(Gives(2003, 10, 0)),
    ),
    (
        Issue(2003, Rexec(Program, SecondClient)),
        [4, 0, 1, 1],
        Two(Calls(Ask::Move(false, None, 1), 1, true), Freezes(2003)),
    ),
    (
        Answer(13, 1, Moved(Some(5))),
        [1, 0, 0, 2],
        One(Calls(Ask::Launch(2003, 2, 1), 3, true)),
    ),
];

#[test]
fn moves_with_streams(rt: HostRuntime) {
    is_none(&rt, first_other(rt.alloc(), 0, &MOVES));
}

// Processes come: one with a stream, which it closes; one in its own move, whose call names a page that is away; one that starts
// its next program; and one that comes home.
static ARRIVALS: [Row; 13] = [
    (
        Asked(1, Brings(3001, 4)),
        [2, 2, 0, 1],
        Two(
            Calls(Ask::Place(3001, 2), 3, false),
            Answers(1, Given::Done),
        ),
    ),
    (Answer(1, 3, Done), [1, 3, 0, 0], One(Thaws(3001))),
    (
        Issue(3001, Close(0)),
        [3, 3, 0, 0],
        One(Calls(Ask::Close(1), 1, true)),
    ),
    (Answer(2, 1, Done), [1, 3, 0, 0], One(Gives(3001, 0, 0))),
    (
        Asked(2, Migrates(3002, 7, true)),
        [1, 3, 0, 1],
        Two(
            Calls(Ask::Place(3002, 2), 3, false),
            Answers(2, Given::Done),
        ),
    ),
    (
        Answer(3, 3, Done),
        [2, 4, 0, 1],
        Two(Calls(Ask::PageIn(3002, 0), 1, false), Thaws(3002)),
    ),
    (Answer(4, 1, Page), [1, 4, 0, 0], One(Gives(3002, 0, 0))),
    (
        Asked(3, Launches(3003, 2, 1)),
        [1, 4, 0, 1],
        Two(
            Calls(Ask::Place(3003, 2), 3, false),
            Answers(3, Given::Done),
        ),
    ),
    (
        Answer(5, 3, Done),
        [2, 5, 0, 0],
        Two(Thaws(3003), Gives(3003, 0, 0)),
    ),
    (
        Issue(2001, Rexec(Program, ThirdClient)),
        [4, 4, 0, 1],
        Two(Calls(Ask::Launch(2001, 1, 1), 4, true), Freezes(2001)),
    ),
    (Answer(6, 4, Done), [0, 4, 0, 0], Silence),
    (
        Asked(4, Migrates(2001, 2, false)),
        [2, 5, 0, 0],
        Three(Thaws(2001), Gives(2001, 0, 0), Answers(4, Given::Done)),
    ),
    (Issue(2001, Getpid), [3, 5, 0, 0], One(Gives(2001, 2001, 0))),
];

#[test]
fn arrivals(rt: HostRuntime) {
    is_none(&rt, first_other(rt.alloc(), 0, &ARRIVALS));
}

// At the second call the foreign processes leave: one that is between two calls at once, and one that is inside a call behind it;
// one that isn't thawed stays.
static EVICTED: [Row; 11] = [
    (
        Asked(1, Comes(3001, 4)),
        [1, 2, 0, 1],
        Two(
            Calls(Ask::Place(3001, 2), 3, false),
            Answers(1, Given::Done),
        ),
    ),
    (Answer(1, 3, Done), [1, 3, 0, 0], One(Thaws(3001))),
    (
        Asked(2, Comes(3002, 1)),
        [1, 3, 0, 1],
        Two(
            Calls(Ask::Place(3002, 2), 3, false),
            Answers(2, Given::Done),
        ),
    ),
    (Answer(2, 3, Done), [1, 4, 0, 0], One(Thaws(3002))),
    (
        Issue(3002, Home(Tick)),
        [2, 4, 0, 1],
        One(Calls(Ask::Home(3002, 2, Tick), 3, true)),
    ),
    (
        Asked(3, Comes(3003, 1)),
        [1, 4, 0, 2],
        Two(
            Calls(Ask::Place(3003, 2), 3, false),
            Answers(3, Given::Done),
        ),
    ),
    (
        Issue(2001, Home(Tick)),
        [5, 3, 0, 3],
        Three(
            Calls(Ask::Transfer(3001, 4, 0, false), 3, false),
            Freezes(3001),
            Gives(2001, 1, 0),
        ),
    ),
    (
        Answer(3, 3, Value(1, 0)),
        [3, 2, 0, 3],
        Three(
            Calls(Ask::Transfer(3002, 2, 0, false), 3, false),
            Gives(3002, 1, 0),
            Freezes(3002),
        ),
    ),
    (Answer(4, 3, Done), [1, 3, 0, 2], One(Thaws(3003))),
    (Answer(6, 3, Done), [0, 3, 0, 1], Silence),
    (Answer(5, 3, Done), [0, 3, 0, 0], Silence),
];

#[test]
fn evictions(rt: HostRuntime) {
    is_none(&rt, first_other(rt.alloc(), 2, &EVICTED));
}

// At the first call a process is inside its own move and has a page to wait for: it leaves when that call has returned.
static TURNED: [Row; 5] = [
    (
        Asked(1, Migrates(3001, 7, true)),
        [1, 2, 0, 1],
        Two(
            Calls(Ask::Place(3001, 2), 3, false),
            Answers(1, Given::Done),
        ),
    ),
    (
        Answer(1, 3, Done),
        [2, 3, 0, 1],
        Two(Calls(Ask::PageIn(3001, 0), 1, false), Thaws(3001)),
    ),
    (Issue(2001, Getpid), [3, 3, 0, 1], One(Gives(2001, 2001, 0))),
    (
        Answer(2, 1, Page),
        [3, 2, 1, 1],
        Three(
            Calls(Ask::PageOut(3001, 4096), 1, false),
            Gives(3001, 0, 0),
            Freezes(3001),
        ),
    ),
    (
        Answer(3, 1, Done),
        [1, 2, 0, 1],
        One(Calls(Ask::Transfer(3001, 7, 0, false), 3, false)),
    ),
];

#[test]
fn an_eviction_inside_a_migrate(rt: HostRuntime) {
    is_none(&rt, first_other(rt.alloc(), 1, &TURNED));
}

// At the second call a process is on its way already, whose page isn't put: it doesn't leave once more, and a kill doesn't find it.
static FROZEN: [Row; 9] = [
    (
        Asked(1, Migrates(3001, 7, false)),
        [1, 2, 0, 1],
        Two(
            Calls(Ask::Place(3001, 2), 3, false),
            Answers(1, Given::Done),
        ),
    ),
    (
        Answer(1, 3, Done),
        [2, 3, 0, 0],
        Two(Thaws(3001), Gives(3001, 0, 0)),
    ),
    (
        Needs(3001),
        [1, 3, 0, 1],
        One(Calls(Ask::PageIn(3001, 0), 1, false)),
    ),
    (Answer(2, 1, Page), [0, 3, 0, 0], Silence),
    (
        Issue(3001, Migrate(ThirdClient)),
        [4, 2, 1, 1],
        Two(Calls(Ask::PageOut(3001, 4096), 1, false), Freezes(3001)),
    ),
    (Issue(2001, Getpid), [3, 2, 1, 1], One(Gives(2001, 2001, 0))),
    (
        Asked(2, Killed(3001)),
        [0, 2, 1, 1],
        One(Answers(2, Given::Gone)),
    ),
    (
        Answer(3, 1, Done),
        [1, 2, 0, 1],
        One(Calls(Ask::Transfer(3001, 8, 0, true), 4, true)),
    ),
    (Answer(4, 4, Done), [0, 2, 0, 0], Silence),
];

#[test]
fn an_eviction_behind_a_freeze(rt: HostRuntime) {
    is_none(&rt, first_other(rt.alloc(), 2, &FROZEN));
}

// At the first call a process waits for a page: it leaves, with that page, when it has come.
static PAGED: [Row; 7] = [
    (
        Asked(1, Comes(3001, 4)),
        [1, 2, 0, 1],
        Two(
            Calls(Ask::Place(3001, 2), 3, false),
            Answers(1, Given::Done),
        ),
    ),
    (Answer(1, 3, Done), [1, 3, 0, 0], One(Thaws(3001))),
    (
        Needs(3001),
        [1, 3, 0, 1],
        One(Calls(Ask::PageIn(3001, 0), 1, false)),
    ),
    (Issue(2001, Getpid), [3, 3, 0, 1], One(Gives(2001, 2001, 0))),
    (
        Answer(2, 1, Page),
        [2, 2, 1, 1],
        Two(Calls(Ask::PageOut(3001, 4096), 1, false), Freezes(3001)),
    ),
    (
        Answer(3, 1, Done),
        [1, 2, 0, 1],
        One(Calls(Ask::Transfer(3001, 4, 0, false), 3, false)),
    ),
    (Answer(4, 3, Done), [0, 2, 0, 0], Silence),
];

#[test]
fn an_eviction_inside_a_page_wait(rt: HostRuntime) {
    is_none(&rt, first_other(rt.alloc(), 1, &PAGED));
}

// At the second call a process is inside a call, and it is killed there too: it dies behind that call, and doesn't leave.
static KILLED: [Row; 7] = [
    (
        Asked(1, Comes(3001, 4)),
        [1, 2, 0, 1],
        Two(
            Calls(Ask::Place(3001, 2), 3, false),
            Answers(1, Given::Done),
        ),
    ),
    (Answer(1, 3, Done), [1, 3, 0, 0], One(Thaws(3001))),
    (
        Issue(3001, Home(Tick)),
        [2, 3, 0, 1],
        One(Calls(Ask::Home(3001, 5, Tick), 3, true)),
    ),
    (Issue(2001, Getpid), [3, 3, 0, 1], One(Gives(2001, 2001, 0))),
    (
        Asked(2, Killed(3001)),
        [0, 3, 0, 1],
        One(Answers(2, Given::Done)),
    ),
    (
        Answer(2, 3, Value(1, 0)),
        [2, 2, 0, 1],
        Two(
            Calls(Ask::Home(3001, 6, Death), 3, false),
            Gives(3001, 1, 0),
        ),
    ),
    (Answer(3, 3, Value(0, 0)), [0, 2, 0, 0], Silence),
];

#[test]
fn an_eviction_of_a_killed_process(rt: HostRuntime) {
    is_none(&rt, first_other(rt.alloc(), 2, &KILLED));
}
