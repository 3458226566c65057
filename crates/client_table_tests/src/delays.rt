use sprite_ids::{BlockNo, FileId, Kernel};
use std::alloc::Global;
use write_delay::Delays;

// A call on the list of dirty blocks. Files go by their numbers at one server.
#[derive(Clone, Copy)]
enum Act {
    // The file, the block, and the step.
    Dirtied(u32, u16, u64),
    Cleaned(u32, u16),
    // The step, and the file and the block that are due in it.
    Due(u64, Option<(u32, u16)>),
    // The file, the block, and whether it is listed.
    Listed(u32, u16, bool),
    Len(usize),
}

static ACTS: [Act; 22] = [
    // Nothing is listed.
    Act::Due(1000, None),
    Act::Dirtied(1, 0, 10),
    Act::Dirtied(2, 0, 12),
    Act::Dirtied(1, 1, 12),
    Act::Due(39, None),
    Act::Due(40, Some((1, 0))),
    Act::Due(1000, Some((1, 0))),
    // It is made dirty again.
    Act::Dirtied(1, 0, 20),
    Act::Due(41, None),
    Act::Due(42, Some((2, 0))),
    Act::Cleaned(2, 0),
    Act::Cleaned(2, 7),
    Act::Listed(1, 0, true),
    Act::Listed(1, 1, true),
    Act::Listed(2, 0, false),
    Act::Due(42, Some((1, 1))),
    Act::Len(2),
    // A step that falls.
    Act::Dirtied(2, 3, 5),
    Act::Due(35, Some((2, 3))),
    // Of two that are due, the one that was made dirty first.
    Act::Due(42, Some((1, 1))),
    Act::Listed(2, 3, true),
    Act::Len(3),
];

#[test]
fn the_oldest_block_is_due_after_30_steps(rt: HostRuntime) {
    assert!(rt; list_shows(rt.alloc(), &ACTS));
}

// Whether a list shows after all calls what they tell.
fn list_shows(alloc: Global, acts: &[Act]) -> bool {
    let Some(server) = Kernel::new(3) else {
        return false;
    };
    let Ok(mut delays) = Delays::new(alloc) else {
        return false;
    };
    let right = shows_all(&mut delays, &server, acts);
    std::mem::drop(delays);
    right
}

fn shows_all(delays: &mut Delays, server: &Kernel, acts: &[Act]) -> bool {
    for act in acts {
        if !shows(delays, server, act) {
            return false;
        }
    }
    true
}

// Makes the call; false where it shows something else.
fn shows(delays: &mut Delays, server: &Kernel, act: &Act) -> bool {
    match *act {
        Act::Dirtied(number, block, step) => {
            delays
                .dirtied(file(server, number), BlockNo(block), step)
                .is_ok()
        }
        Act::Cleaned(number, block) => {
            delays.cleaned(file(server, number), BlockNo(block));
            true
        }
        Act::Due(step, wanted) => is_due(delays, server, step, wanted),
        Act::Listed(number, block, wanted) => {
            delays.listed(file(server, number), BlockNo(block)) == wanted
        }
        Act::Len(wanted) => delays.len() == wanted,
    }
}

fn file(server: &Kernel, number: u32) -> FileId {
    FileId {
        server: *server,
        number,
    }
}

fn is_due(delays: &Delays, server: &Kernel, step: u64, wanted: Option<(u32, u16)>) -> bool {
    match (delays.due(step), wanted) {
        (Some((due, block)), Some((number, place))) => {
            due == file(server, number) && block.0 == place
        }
        (None, None) => true,
        _ => false,
    }
}
