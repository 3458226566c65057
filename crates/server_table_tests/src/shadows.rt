use shadow_streams::Shadows;
use sprite_ids::{Kernel, StreamNo};
use std::alloc::Global;

// A call on the shadows. Streams are all of number 5, and go by the kernel that opened them first.
#[derive(Clone, Copy)]
enum Act {
    // The stream, its offset, and a kernel for each grant.
    Share(u8, u32, &'static [u8]),
    // Whether there is room for more grants.
    Room(bool),
    // The stream, and its offset, where it is shared.
    Offset(u8, Option<u32>),
    SetOffset(u8, u32),
    // The stream, the kernel, and how many grants it then has.
    Grant(u8, u8, u32),
    // The stream, the kernel, how many grants, and whether they were the last ones.
    Close(u8, u8, u32, bool),
}

static ACTS: [Act; 20] = [
    Act::Offset(1, None),
    Act::Share(16, 7, &[16]),
    Act::Share(1, 4096, &[16, 1, 1]),
    Act::Room(true),
    Act::Offset(1, Some(4096)),
    Act::SetOffset(1, 12),
    Act::Offset(1, Some(12)),
    Act::Offset(16, Some(7)),
    Act::Grant(1, 1, 3),
    Act::Grant(16, 1, 1),
    Act::Close(1, 16, 1, false),
    Act::Offset(1, Some(12)),
    Act::Close(1, 1, 2, false),
    Act::Offset(1, Some(12)),
    Act::Close(1, 1, 1, true),
    Act::Offset(1, None),
    Act::Close(16, 16, 1, false),
    Act::Offset(16, Some(7)),
    Act::Close(16, 1, 1, true),
    Act::Offset(16, None),
];

#[test]
fn a_stream_is_shared_until_its_last_grant(rt: HostRuntime) {
    assert!(rt; shadows_show(rt.alloc(), &ACTS));
}

// Whether shadows show after all calls what they tell.
fn shadows_show(alloc: Global, acts: &[Act]) -> bool {
    let mut shadows = Shadows::new(alloc);
    let right = shows_all(alloc, &mut shadows, acts);
    std::mem::drop(shadows);
    right
}

fn shows_all(alloc: Global, shadows: &mut Shadows, acts: &[Act]) -> bool {
    for act in acts {
        if !shows(alloc, shadows, act) {
            return false;
        }
    }
    true
}

// Makes the call; false where it shows something else.
fn shows(alloc: Global, shadows: &mut Shadows, act: &Act) -> bool {
    match *act {
        Act::Share(owner, offset, holders) => share(alloc, shadows, owner, offset, holders),
        Act::Room(wanted) => shadows.room() == wanted,
        Act::Offset(owner, wanted) => is_at(shadows, owner, wanted),
        Act::SetOffset(owner, offset) => set_offset(shadows, owner, offset),
        Act::Grant(owner, holder, count) => grant(shadows, owner, holder, count),
        Act::Close(owner, holder, grants, wanted) => close(shadows, owner, holder, grants, wanted),
    }
}

fn stream(owner: u8) -> Option<StreamNo> {
    Some(StreamNo {
        kernel: Kernel::new(owner)?,
        number: 5,
    })
}

fn kernels(alloc: Global, numbers: &[u8]) -> Option<Vec<Kernel>> {
    let mut kernels = Vec::new(alloc);
    for number in numbers {
        let kernel = Kernel::new(*number)?;
        kernels.push(kernel).ok()?;
    }
    Some(kernels)
}

fn share(alloc: Global, shadows: &mut Shadows, owner: u8, offset: u32, holders: &[u8]) -> bool {
    let Some(kernels) = kernels(alloc, holders) else {
        return false;
    };
    share_among(shadows, owner, offset, kernels.as_slice())
}

fn share_among(shadows: &mut Shadows, owner: u8, offset: u32, holders: &[Kernel]) -> bool {
    let Some(stream) = stream(owner) else {
        return false;
    };
    holders.len() <= 16 && shadows.share(stream, offset, holders).is_ok()
}

fn is_at(shadows: &Shadows, owner: u8, wanted: Option<u32>) -> bool {
    let Some(stream) = stream(owner) else {
        return false;
    };
    shadows.offset(stream) == wanted
}

fn set_offset(shadows: &mut Shadows, owner: u8, offset: u32) -> bool {
    let Some(stream) = stream(owner) else {
        return false;
    };
    shadows.set_offset(stream, offset);
    true
}

fn grant(shadows: &mut Shadows, owner: u8, holder: u8, count: u32) -> bool {
    let (Some(stream), Some(holder)) = (stream(owner), Kernel::new(holder)) else {
        return false;
    };
    shadows.room() && shadows.grant(stream, holder) == count
}

fn close(shadows: &mut Shadows, owner: u8, holder: u8, grants: u32, wanted: bool) -> bool {
    let (Some(stream), Some(holder)) = (stream(owner), Kernel::new(holder)) else {
        return false;
    };
    shadows.close(stream, holder, grants) == wanted
}
