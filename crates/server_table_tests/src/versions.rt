use sprite_ids::{CallKind, FileId, Grant, Kernel, Mode, StreamNo};
use std::alloc::Global;
use version_table::{Action, Decision, Versions};

// What is done to one file. Kernels and streams go by their numbers; a stream is named by the kernel that opened it first.
#[derive(Clone, Copy)]
enum Act {
    // The kernel, the stream, what it is opened for, and whether the file is emptied.
    Open(u8, (u8, u32), Mode, bool),
    // The stream, its source and its target, and whether references stay at the source.
    Move((u8, u32), u8, u8, bool),
    // The kernel's answer comes.
    Answer(u8),
    // The last kernel's answer comes, and what waited is granted.
    Settle(u8),
    Close(u8, (u8, u32)),
    Current(u8),
    IsOpen,
    // The stream, and the kernel whose grants are counted.
    Count((u8, u32), u8),
    ModeOf((u8, u32)),
    // The file is forgotten, and looked for.
    Forget,
}

// What is then seen.
#[derive(Clone, Copy, PartialEq, Eq)]
enum Seen {
    // The stamp, the old and the new version, whether the kernel may cache, and whether it had dirty blocks.
    Grant(u32, u32, u32, bool, bool),
    // One callback: to whom, its stamp and its kind; and how many there are.
    Calls(u8, u32, CallKind, usize),
    Last(bool),
    Open(bool),
    Grants(u32),
    Mode(Option<Mode>),
}

static STEPS: [(Act, Seen); 24] = [
    // The first writer raises the version, and holds dirty blocks from now on.
    (
        Act::Open(1, (1, 1), Mode::Write, false),
        Seen::Grant(1, 1, 2, true, false),
    ),
    (Act::Close(1, (1, 1)), Seen::Last(true)),
    // They are recalled for a reader elsewhere.
    (
        Act::Open(2, (2, 1), Mode::Read, false),
        Seen::Calls(1, 2, CallKind::Recall, 1),
    ),
    (Act::Settle(1), Seen::Grant(3, 2, 2, true, false)),
    // A writer beside a reader: both stop, also the one that had closed the file.
    (
        Act::Open(1, (1, 2), Mode::Both, false),
        Seen::Calls(1, 4, CallKind::Stop, 2),
    ),
    (Act::Answer(2), Seen::Last(false)),
    (Act::Settle(1), Seen::Grant(6, 2, 3, false, false)),
    (Act::Current(2), Seen::Grant(5, 3, 3, false, false)),
    (Act::Current(1), Seen::Grant(6, 2, 3, false, false)),
    (Act::Close(2, (2, 1)), Seen::Last(false)),
    (Act::Close(1, (1, 2)), Seen::Last(true)),
    // A truncation for writing raises the version once; its grant has the new version as its old one.
    (
        Act::Open(1, (1, 3), Mode::Both, true),
        Seen::Grant(7, 4, 4, true, false),
    ),
    // The same kernel truncates the file while it is open.
    (
        Act::Open(1, (1, 4), Mode::Both, true),
        Seen::Calls(1, 8, CallKind::Stop, 1),
    ),
    (Act::Settle(1), Seen::Grant(9, 5, 5, false, false)),
    // A stream of a file that nobody caches moves, and stays at its source.
    (
        Act::Move((1, 4), 1, 2, true),
        Seen::Grant(10, 5, 6, false, false),
    ),
    (Act::Close(1, (1, 3)), Seen::Last(false)),
    (Act::Close(1, (1, 4)), Seen::Last(false)),
    // It moves again, away from its source.
    (
        Act::Move((1, 4), 2, 1, false),
        Seen::Grant(11, 6, 7, false, false),
    ),
    (Act::Close(1, (1, 4)), Seen::Last(true)),
    // Nobody has it open any more: it may be cached again.
    (
        Act::Open(2, (2, 2), Mode::Read, false),
        Seen::Grant(12, 7, 7, true, false),
    ),
    (Act::IsOpen, Seen::Open(true)),
    (Act::Count((2, 2), 2), Seen::Grants(1)),
    (Act::ModeOf((2, 2)), Seen::Mode(Some(Mode::Read))),
    (Act::Forget, Seen::Open(false)),
];

// Where clients have no cache.
static WITHOUT: [(Act, Seen); 1] = [(
    Act::Open(1, (1, 1), Mode::Both, false),
    Seen::Grant(1, 1, 2, false, false),
)];

fn stream(name: (u8, u32)) -> Option<StreamNo> {
    Some(StreamNo {
        kernel: Kernel::new(name.0)?,
        number: name.1,
    })
}

fn granted(grant: &Grant) -> Seen {
    Seen::Grant(grant.stamp, grant.old, grant.new, grant.on, grant.holder)
}

// Decides; None where the file is busy, there is no room or no memory, or a callback is wanted and none is sent.
fn decide(versions: &mut Versions, file: &FileId, action: &Action) -> Option<Seen> {
    if !versions.room(*file) || versions.busy(*file) {
        return None;
    }
    let Ok(decision) = versions.decide(*file, *action) else {
        return None;
    };
    let seen = decided(&decision);
    std::mem::drop(decision);
    seen
}

fn decided(decision: &Decision) -> Option<Seen> {
    match decision {
        Decision::Grant(grant) => Some(granted(grant)),
        Decision::CallFirst(calls) => {
            let call = calls.as_slice().first()?;
            Some(Seen::Calls(call.to.number(), call.stamp, call.kind, calls.len()))
        }
    }
}

fn open(
    versions: &mut Versions,
    file: &FileId,
    number: u8,
    name: (u8, u32),
    mode: Mode,
    truncate: bool,
) -> Option<Seen> {
    let action = Action::Opening {
        kernel: Kernel::new(number)?,
        stream: stream(name)?,
        mode,
        truncate,
    };
    decide(versions, file, &action)
}

fn migrate(
    versions: &mut Versions,
    file: &FileId,
    name: (u8, u32),
    from: u8,
    to: u8,
    kept: bool,
) -> Option<Seen> {
    let action = Action::Moving {
        stream: stream(name)?,
        from: Kernel::new(from)?,
        to: Kernel::new(to)?,
        kept,
        grants: 1,
    };
    decide(versions, file, &action)
}

fn answer(versions: &mut Versions, file: &FileId, number: u8) -> Option<Seen> {
    let from = Kernel::new(number)?;
    if !versions.busy(*file) {
        return None;
    }
    Some(Seen::Last(versions.answered(*file, from)))
}

fn settle(versions: &mut Versions, file: &FileId, number: u8) -> Option<Seen> {
    let from = Kernel::new(number)?;
    if !versions.busy(*file) || !versions.answered(*file, from) || !versions.is_ready(*file) {
        return None;
    }
    Some(granted(&versions.settle(*file)))
}

fn close(versions: &mut Versions, file: &FileId, number: u8, name: (u8, u32)) -> Option<Seen> {
    let kernel = Kernel::new(number)?;
    let stream = stream(name)?;
    if versions.busy(*file) {
        return None;
    }
    Some(Seen::Last(versions.close(*file, kernel, stream, 1)))
}

fn current(versions: &Versions, file: &FileId, number: u8) -> Option<Seen> {
    let kernel = Kernel::new(number)?;
    Some(granted(&versions.current(*file, kernel)))
}

fn count(versions: &Versions, file: &FileId, name: (u8, u32), number: u8) -> Option<Seen> {
    let stream = stream(name)?;
    let kernel = Kernel::new(number)?;
    Some(Seen::Grants(versions.count(*file, stream, kernel)))
}

fn mode_of(versions: &Versions, file: &FileId, name: (u8, u32)) -> Option<Seen> {
    let stream = stream(name)?;
    Some(Seen::Mode(versions.mode(*file, stream)))
}

// Does one thing; None where a condition of it doesn't hold.
fn perform(versions: &mut Versions, file: &FileId, act: &Act) -> Option<Seen> {
    match *act {
        Act::Open(number, name, mode, truncate) => {
            open(versions, file, number, name, mode, truncate)
        }
        Act::Move(name, from, to, kept) => migrate(versions, file, name, from, to, kept),
        Act::Answer(number) => answer(versions, file, number),
        Act::Settle(number) => settle(versions, file, number),
        Act::Close(number, name) => close(versions, file, number, name),
        Act::Current(number) => current(versions, file, number),
        Act::IsOpen => Some(Seen::Open(versions.is_open(*file))),
        Act::Count(name, number) => count(versions, file, name, number),
        Act::ModeOf(name) => mode_of(versions, file, name),
        Act::Forget => {
            versions.forget(*file);
            Some(Seen::Open(versions.is_open(*file)))
        }
    }
}

// Whether after each act that is seen which it tells.
fn shows_all(versions: &mut Versions, file: &FileId, steps: &[(Act, Seen)]) -> bool {
    for step in steps {
        let Some(seen) = perform(versions, file, &step.0) else {
            return false;
        };
        if seen != step.1 {
            return false;
        }
    }
    true
}

// The same of new versions, where clients have a cache or not.
fn versions_show(alloc: Global, cached: bool, steps: &[(Act, Seen)]) -> bool {
    let Some(server) = Kernel::new(3) else {
        return false;
    };
    let file = FileId { server, number: 1 };
    let mut versions = Versions::new(alloc, cached);
    let right = shows_all(&mut versions, &file, steps);
    std::mem::drop(versions);
    right
}

#[test]
fn opens_and_moves_are_decided(rt: HostRuntime) {
    assert!(rt; versions_show(rt.alloc(), true, &STEPS));
}

#[test]
fn clients_without_a_cache_are_granted_off(rt: HostRuntime) {
    assert!(rt; versions_show(rt.alloc(), false, &WITHOUT));
}
