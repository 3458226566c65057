ghost use Rattle.std.specs.Prelude.{◌<◌, ◌↔◌, IsTrue};

use sprite_ids::{Bytes, Copying, Errno, Items, Kernel, NoMemory, Pid};
use std::alloc::Global;

// Kernels are ordered by number.
fn is_before(a: Kernel, b: Kernel) -> bool
    ensures { IsTrue result ↔ (a < b) }
{
    a < b
}

// Processes are ordered by number.
fn is_older(a: Pid, b: Pid) -> bool
    ensures { IsTrue result ↔ (a < b) }
{
    a < b
}

// A number, and whether it is a kernel's.
static KERNELS: [(u8, bool); 5] = [(0, false), (1, true), (16, true), (17, false), (255, false)];

fn kernels_have_their_range() -> bool {
    for (number, named) in KERNELS.iter() {
        if Kernel::new(*number).is_some() != *named {
            return false;
        }
    }
    true
}

// A birth, and whether it is one of a kernel's processes.
static BIRTHS: [(u32, bool); 4] = [(0, false), (1, true), (200, true), (201, false)];

fn births_have_their_range(home: Kernel) -> bool {
    for (birth, named) in BIRTHS.iter() {
        if Pid::new(home, *birth).is_some() != *named {
            return false;
        }
    }
    true
}

fn are_ordered(first: Kernel, last: Kernel) -> bool {
    let Some(oldest) = Pid::new(first, 1) else {
        return false;
    };
    let Some(youngest) = Pid::new(last, 200) else {
        return false;
    };
    oldest.number() == 1001
        && youngest.number() == 16200
        && youngest.home() == last
        && youngest.birth() == 200
        && is_older(oldest, youngest)
        && !is_older(youngest, oldest)
        && is_before(first, last)
        && !is_before(first, first)
}

fn pids_have_their_range() -> bool {
    let Some(first) = Kernel::new(1) else {
        return false;
    };
    let Some(last) = Kernel::new(16) else {
        return false;
    };
    births_have_their_range(last) && are_ordered(first, last)
}

#[test]
fn names_have_their_ranges(rt: HostRuntime) {
    assert!(rt; kernels_have_their_range());
    assert!(rt; pids_have_their_range());
}

// A number, and the error that has it.
static ERRORS: [(u8, Errno); 8] = [
    (1, Errno::NoEntry),
    (6, Errno::BadFd),
    (8, Errno::TooBig),
    (10, Errno::Invalid),
    (12, Errno::Busy),
    (17, Errno::Unreachable),
    (19, Errno::BadName),
    (20, Errno::BadAddress),
];

fn errors_are_numbered() -> bool {
    for (number, errno) in ERRORS.iter() {
        if Errno::new(*number) != Some(*errno) || errno.number() != *number {
            return false;
        }
    }
    Errno::new(0).is_none() && Errno::new(21).is_none()
}

#[test]
fn errors_have_their_numbers(rt: HostRuntime) {
    assert!(rt; errors_are_numbered());
}

// The bytes `abcde`, put together of pieces.
fn text(alloc: Global) -> Result<Bytes, NoMemory> {
    let mut text = Bytes::of_slice(alloc, b"ab")?;
    text.push(b'c')?;
    text.append(b"de")?;
    Ok(text)
}

fn text_is_copied(alloc: Global, text: &Bytes) -> bool {
    match text.copy(alloc) {
        Ok(copy) => copy == *text,
        Err(_) => false,
    }
}

// A list of that text and an empty one.
fn list(alloc: Global, text: &Bytes) -> Result<Items<Bytes>, NoMemory> {
    let mut list = Items::new(alloc);
    list.push(text.copy(alloc)?)?;
    list.push(Bytes::new(alloc))?;
    Ok(list)
}

fn is_the_list(list: &Items<Bytes>) -> bool {
    list.len() == 2 && list.at(0).as_slice() == b"abcde".as_slice() && list.at(1).is_empty()
}

fn list_is_copied(alloc: Global, list: &Items<Bytes>) -> bool {
    match list.copy(alloc) {
        Ok(copies) => copies == *list && is_the_list(&copies),
        Err(_) => false,
    }
}

fn list_of_text_is_copied(alloc: Global, text: &Bytes) -> bool {
    match list(alloc, text) {
        Ok(list) => list_is_copied(alloc, &list),
        Err(_) => false,
    }
}

fn copies_are_the_same(alloc: Global) -> bool {
    match text(alloc) {
        Ok(text) => text_is_copied(alloc, &text) && list_of_text_is_copied(alloc, &text),
        Err(_) => false,
    }
}

#[test]
fn lists_are_copied(rt: HostRuntime) {
    assert!(rt; copies_are_the_same(rt.alloc()));
}
