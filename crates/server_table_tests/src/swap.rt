use sprite_ids::{Kernel, Pid};
use std::alloc::Global;
use swap_pages::Swap;

// A call: the birth of the process at kernel 2, the page, and the one byte that is put, or that is found.
#[derive(Clone, Copy)]
enum Act {
    Put(u8, u8, u8),
    Take(u8, u8, Option<u8>),
}

static ACTS: [Act; 11] = [
    Act::Put(1, 0, 1),
    Act::Put(1, 7, 2),
    Act::Put(2, 0, 3),
    Act::Put(1, 0, 4),
    Act::Take(1, 0, Some(4)),
    Act::Take(1, 0, None),
    Act::Take(1, 1, None),
    Act::Take(2, 0, Some(3)),
    Act::Take(2, 7, None),
    Act::Take(1, 7, Some(2)),
    Act::Take(1, 7, None),
];

#[test]
fn a_page_is_taken_once(rt: HostRuntime) {
    assert!(rt; swap_shows(rt.alloc(), &ACTS));
}

// Whether a swap shows after all calls what they tell.
fn swap_shows(alloc: Global, acts: &[Act]) -> bool {
    let mut swap = Swap::new(alloc);
    let right = shows_all(alloc, &mut swap, acts);
    std::mem::drop(swap);
    right
}

fn shows_all(alloc: Global, swap: &mut Swap, acts: &[Act]) -> bool {
    for act in acts {
        if !shows(alloc, swap, act) {
            return false;
        }
    }
    true
}

// Makes the call; false where it shows something else.
fn shows(alloc: Global, swap: &mut Swap, act: &Act) -> bool {
    match *act {
        Act::Put(birth, page, byte) => put(alloc, swap, birth, page, byte),
        Act::Take(birth, page, wanted) => takes(swap, birth, page, wanted),
    }
}

// The process of that birth.
fn process(birth: u8) -> Option<Pid> {
    Pid::new(Kernel::new(2)?, u32::from(birth))
}

fn put(alloc: Global, swap: &mut Swap, birth: u8, page: u8, byte: u8) -> bool {
    let Some(pid) = process(birth) else {
        return false;
    };
    let Ok(bytes) = Vec::from_slice(alloc, &[byte]) else {
        return false;
    };
    swap.put(pid, page, bytes).is_ok()
}

fn takes(swap: &mut Swap, birth: u8, page: u8, wanted: Option<u8>) -> bool {
    let Some(pid) = process(birth) else {
        return false;
    };
    swap.has(pid, page) == wanted.is_some() && take(swap, pid, page) == wanted
}

// The one byte of the page, where it is kept.
fn take(swap: &mut Swap, pid: Pid, page: u8) -> Option<u8> {
    let bytes = swap.take(pid, page)?;
    bytes.first().copied()
}
