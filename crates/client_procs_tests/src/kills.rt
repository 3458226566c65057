use crate::bodies::Says::{Done, Gone, Page, Value};
use crate::bodies::Wants::{Comes, Home as AtHome, Killed, Place};
use crate::script::Step::{Answer, Asked, Issue, Needs};
use crate::script::{Row, first_other, is_none};
use crate::told::Said::{One, Silence, Three, Two};
use crate::told::Told::{Answers, Calls, Dies, Fails, Freezes, Gives, Thaws};
use crate::told::{Asked as Ask, Given};
use crate::words::Does::{Home, Migrate};
use crate::words::Name::SecondClient;
use crate::words::Word::{Death, Fork, Getppid, Kill, Wait};
use sprite_ids::Errno;

// A kill meets a process between two calls; none meets one that has ended, was never born, or is no client's. A process that is
// inside its own kill, at another home, is killed twice, and dies when that is answered.
static KILLS: [Row; 10] = [
    (
        Issue(2001, Home(Kill(2002))),
        [4, 1, 0, 0],
        Two(Dies(2002), Gives(2001, 0, 0)),
    ),
    (
        Issue(2001, Home(Kill(2002))),
        [3, 1, 0, 0],
        One(Fails(2001, Errno::NoProcess)),
    ),
    (
        Issue(2001, Home(Kill(2009))),
        [3, 1, 0, 0],
        One(Fails(2001, Errno::NoProcess)),
    ),
    (
        Issue(2001, Home(Kill(1001))),
        [3, 1, 0, 0],
        One(Fails(2001, Errno::NoProcess)),
    ),
    (
        Issue(2001, Home(Kill(7))),
        [3, 1, 0, 0],
        One(Fails(2001, Errno::NoProcess)),
    ),
    (
        Issue(2001, Home(Kill(5001))),
        [3, 1, 0, 0],
        One(Fails(2001, Errno::NoProcess)),
    ),
    (
        Issue(2001, Home(Kill(3001))),
        [2, 1, 0, 1],
        One(Calls(Ask::Home(2001, 7, Kill(3001)), 3, true)),
    ),
    (
        Asked(1, AtHome(3001, 4, Kill(2001))),
        [1, 1, 0, 1],
        One(Answers(1, Given::Value(0, 0))),
    ),
    (
        Asked(2, AtHome(3001, 5, Kill(2001))),
        [1, 1, 0, 1],
        One(Answers(2, Given::Value(0, 0))),
    ),
    (
        Answer(1, 3, Value(0, 0)),
        [2, 0, 0, 0],
        Two(Gives(2001, 0, 0), Dies(2001)),
    ),
];

#[test]
fn kills(rt: HostRuntime) {
    is_none(&rt, first_other(rt.alloc(), 0, &KILLS));
}

// A kill and a parked wait cross: at the home of a process that is there, and of one that is elsewhere, whose next wait is broken
// off at once.
static CROSSED: [Row; 15] = [
    (
        Issue(2001, Home(Fork)),
        [3, 3, 0, 0],
        One(Gives(2001, 2003, 0)),
    ),
    (Issue(2001, Home(Wait)), [1, 3, 0, 0], Silence),
    (
        Issue(2002, Home(Kill(2001))),
        [6, 2, 0, 0],
        Three(
            Fails(2001, Errno::Interrupted),
            Dies(2001),
            Gives(2002, 0, 0),
        ),
    ),
    (
        Issue(2003, Migrate(SecondClient)),
        [4, 1, 1, 1],
        Two(Calls(Ask::PageOut(2003, 4096), 1, false), Freezes(2003)),
    ),
    (
        Answer(1, 1, Done),
        [1, 1, 0, 1],
        One(Calls(Ask::Transfer(2003, 1, 0, true), 3, true)),
    ),
    (
        Asked(1, Place(2003, 3)),
        [0, 1, 0, 1],
        One(Answers(1, Given::Done)),
    ),
    (Answer(2, 3, Done), [0, 1, 0, 0], Silence),
    (
        Asked(2, AtHome(2003, 2, Fork)),
        [1, 1, 0, 0],
        One(Answers(2, Given::Value(2004, 0))),
    ),
    (Asked(3, AtHome(2003, 3, Wait)), [0, 1, 0, 0], Silence),
    (
        Issue(2002, Home(Kill(2003))),
        [5, 1, 0, 1],
        Three(
            Calls(Ask::Killed(2003), 3, true),
            Gives(2002, 0, 0),
            Answers(3, Given::Refused(Errno::Interrupted)),
        ),
    ),
    (
        Asked(4, AtHome(2003, 4, Wait)),
        [1, 1, 0, 1],
        One(Answers(4, Given::Refused(Errno::Interrupted))),
    ),
    (Answer(3, 3, Done), [0, 1, 0, 0], Silence),
    (
        Asked(5, AtHome(2003, 5, Death)),
        [1, 1, 0, 0],
        Two(Dies(2003), Answers(5, Given::Value(0, 0))),
    ),
    (
        Asked(6, AtHome(2004, 1, Getppid)),
        [1, 1, 0, 0],
        One(Answers(6, Given::Value(0, 0))),
    ),
    (
        Issue(2002, Home(Kill(2003))),
        [3, 1, 0, 0],
        One(Fails(2002, Errno::NoProcess)),
    ),
];

#[test]
fn kills_that_cross_waits(rt: HostRuntime) {
    is_none(&rt, first_other(rt.alloc(), 0, &CROSSED));
}

// Kills come to the kernel at which foreign processes are: one of a process that a fork brings later; one of a process that has
// left and comes back, which that fork doesn't bring; one before a process is thawed; and one between two calls.
static EARLY: [Row; 16] = [
    (
        Asked(1, Comes(3001, 4)),
        [1, 2, 0, 1],
        Two(
            Calls(Ask::Place(3001, 2), 3, false),
            Answers(1, Given::Done),
        ),
    ),
    (Answer(1, 3, Done), [1, 3, 0, 0], One(Thaws(3001))),
    (
        Asked(2, Killed(3009)),
        [0, 3, 0, 0],
        One(Answers(2, Given::Gone)),
    ),
    (
        Issue(3001, Home(Fork)),
        [2, 3, 0, 1],
        One(Calls(Ask::PageIn(3001, 0), 1, false)),
    ),
    (
        Answer(2, 1, Page),
        [1, 3, 0, 1],
        One(Calls(Ask::Home(3001, 5, Fork), 3, true)),
    ),
    (
        Asked(3, Killed(3002)),
        [0, 3, 0, 1],
        One(Answers(3, Given::Gone)),
    ),
    (
        Asked(4, Killed(3005)),
        [0, 3, 0, 1],
        One(Answers(4, Given::Gone)),
    ),
    (
        Answer(3, 3, Value(3002, 0)),
        [2, 3, 0, 1],
        Two(
            Calls(Ask::Home(3002, 1, Death), 3, false),
            Gives(3001, 3002, 0),
        ),
    ),
    (
        Issue(3001, Home(Fork)),
        [2, 3, 0, 2],
        One(Calls(Ask::Home(3001, 6, Fork), 3, true)),
    ),
    (
        Answer(5, 3, Value(3003, 0)),
        [1, 4, 0, 1],
        One(Gives(3001, 3003, 0)),
    ),
    (Answer(4, 3, Value(0, 0)), [0, 4, 0, 0], Silence),
    (
        Asked(5, Comes(3005, 2)),
        [1, 4, 0, 1],
        Two(
            Calls(Ask::Place(3005, 2), 3, false),
            Answers(5, Given::Done),
        ),
    ),
    (
        Asked(6, Killed(3005)),
        [0, 4, 0, 1],
        One(Answers(6, Given::Done)),
    ),
    (
        Answer(6, 3, Done),
        [2, 4, 0, 1],
        Two(Calls(Ask::Home(3005, 3, Death), 3, false), Thaws(3005)),
    ),
    (Answer(7, 3, Value(0, 0)), [0, 4, 0, 0], Silence),
    (
        Asked(7, Killed(3001)),
        [1, 3, 0, 1],
        Two(
            Calls(Ask::Home(3001, 7, Death), 3, false),
            Answers(7, Given::Done),
        ),
    ),
];

#[test]
fn kills_of_foreign_processes(rt: HostRuntime) {
    is_none(&rt, first_other(rt.alloc(), 0, &EARLY));
}

// A home follows its process with a kill: the process is on its way; has left the kernel that is told; comes to another one before
// that kernel has answered; and comes home, where it dies.
static CHASED: [Row; 13] = [
    (
        Issue(2001, Migrate(SecondClient)),
        [4, 1, 1, 1],
        Two(Calls(Ask::PageOut(2001, 4096), 1, false), Freezes(2001)),
    ),
    (
        Issue(2002, Home(Kill(2001))),
        [3, 1, 1, 1],
        One(Gives(2002, 0, 0)),
    ),
    (
        Issue(2002, Home(Kill(2001))),
        [3, 1, 1, 1],
        One(Gives(2002, 0, 0)),
    ),
    (
        Answer(1, 1, Done),
        [1, 1, 0, 1],
        One(Calls(Ask::Transfer(2001, 1, 0, true), 3, true)),
    ),
    (
        Asked(1, Place(2001, 3)),
        [1, 1, 0, 2],
        Two(Calls(Ask::Killed(2001), 3, false), Answers(1, Given::Done)),
    ),
    (Answer(2, 3, Done), [0, 1, 0, 1], Silence),
    (Answer(3, 3, Gone), [0, 1, 0, 0], Silence),
    (
        Asked(2, Place(2001, 4)),
        [1, 1, 0, 1],
        Two(Calls(Ask::Killed(2001), 4, false), Answers(2, Given::Done)),
    ),
    (
        Asked(3, Place(2001, 3)),
        [0, 1, 0, 1],
        One(Answers(3, Given::Done)),
    ),
    (
        Answer(4, 4, Gone),
        [1, 1, 0, 1],
        One(Calls(Ask::Killed(2001), 3, false)),
    ),
    (
        Asked(4, Comes(2001, 5)),
        [2, 1, 0, 1],
        Three(Thaws(2001), Dies(2001), Answers(4, Given::Done)),
    ),
    (Answer(5, 3, Gone), [0, 1, 0, 0], Silence),
    (
        Issue(2002, Home(Kill(2001))),
        [3, 1, 0, 0],
        One(Fails(2002, Errno::NoProcess)),
    ),
];

#[test]
fn kills_that_follow_a_process(rt: HostRuntime) {
    is_none(&rt, first_other(rt.alloc(), 0, &CHASED));
}

// A process waits for a page and goes on with it; another one is killed, twice, while its page is on its way, and dies when that
// has come.
static PAGES: [Row; 6] = [
    (
        Needs(2002),
        [1, 2, 0, 1],
        One(Calls(Ask::PageIn(2002, 0), 1, false)),
    ),
    (
        Needs(2001),
        [1, 2, 0, 2],
        One(Calls(Ask::PageIn(2001, 0), 1, false)),
    ),
    (Answer(1, 1, Page), [0, 2, 0, 1], Silence),
    (
        Issue(2002, Home(Kill(2001))),
        [3, 2, 0, 1],
        One(Gives(2002, 0, 0)),
    ),
    (
        Issue(2002, Home(Kill(2001))),
        [3, 2, 0, 1],
        One(Gives(2002, 0, 0)),
    ),
    (Answer(2, 1, Page), [1, 1, 0, 0], One(Dies(2001))),
];

#[test]
fn pages(rt: HostRuntime) {
    is_none(&rt, first_other(rt.alloc(), 0, &PAGES));
}

// A process of another home is killed while its page is on its way: its home is told of its death when that has come.
static FOREIGN_PAGE: [Row; 6] = [
    (
        Asked(1, Comes(3001, 4)),
        [1, 2, 0, 1],
        Two(
            Calls(Ask::Place(3001, 2), 3, false),
            Answers(1, Given::Done),
        ),
    ),
    (Answer(1, 3, Done), [1, 3, 0, 0], One(Thaws(3001))),
    (
        Needs(3001),
        [1, 3, 0, 1],
        One(Calls(Ask::PageIn(3001, 0), 1, false)),
    ),
    (
        Asked(2, Killed(3001)),
        [0, 3, 0, 1],
        One(Answers(2, Given::Done)),
    ),
    (
        Answer(2, 1, Page),
        [1, 2, 0, 1],
        One(Calls(Ask::Home(3001, 5, Death), 3, false)),
    ),
    (Answer(3, 3, Value(0, 0)), [0, 2, 0, 0], Silence),
];

#[test]
fn a_kill_of_a_foreign_process_that_waits_for_a_page(rt: HostRuntime) {
    is_none(&rt, first_other(rt.alloc(), 0, &FOREIGN_PAGE));
}

// The kernel that is told of the kill knows the process no more, and it comes home next, where it dies.
static CAUGHT: [Row; 8] = [
    (
        Issue(2001, Migrate(SecondClient)),
        [4, 1, 1, 1],
        Two(Calls(Ask::PageOut(2001, 4096), 1, false), Freezes(2001)),
    ),
    (
        Answer(1, 1, Done),
        [1, 1, 0, 1],
        One(Calls(Ask::Transfer(2001, 1, 0, true), 3, true)),
    ),
    (Answer(2, 3, Done), [0, 1, 0, 0], Silence),
    (
        Asked(1, Place(2001, 3)),
        [0, 1, 0, 0],
        One(Answers(1, Given::Done)),
    ),
    (
        Issue(2002, Home(Kill(2001))),
        [4, 1, 0, 1],
        Two(Calls(Ask::Killed(2001), 3, true), Gives(2002, 0, 0)),
    ),
    (Answer(3, 3, Gone), [0, 1, 0, 0], Silence),
    (
        Asked(2, Comes(2001, 5)),
        [2, 1, 0, 0],
        Three(Thaws(2001), Dies(2001), Answers(2, Given::Done)),
    ),
    (
        Issue(2002, Home(Kill(2001))),
        [3, 1, 0, 0],
        One(Fails(2002, Errno::NoProcess)),
    ),
];

#[test]
fn a_kill_that_waits_at_home(rt: HostRuntime) {
    is_none(&rt, first_other(rt.alloc(), 0, &CAUGHT));
}
