use crate::frames::{Kind, is_none, takes};
use sprite_ids::NoMemory;
use std::alloc::Global;
use wire_fragments::Gather;

/// The head of a frame, how many zeros stand behind it, and what is answered where nothing came before.
struct Row {
    head: [u8; 12],
    bytes: usize,
    kind: Kind,
}

fn spelled(alloc: Global, row: &Row) -> Result<Vec<u8>, NoMemory> {
    let mut frame = Vec::from_slice(alloc, &row.head)?;
    for _done in 0..row.bytes {
        frame.push(0)?;
    }
    Ok(frame)
}

fn is_read(alloc: Global, row: &Row) -> bool {
    let mut gather = Gather::new(alloc, 1);
    match spelled(alloc, row) {
        Ok(frame) => takes(alloc, &mut gather, frame.as_slice(), row.kind),
        Err(NoMemory) => false,
    }
}

fn first_other(alloc: Global, rows: &[Row]) -> Option<usize> {
    for (place, row) in rows.iter().enumerate() {
        if !is_read(alloc, row) {
            return Some(place);
        }
    }
    None
}

static HEADS: [Row; 12] = [
    // One frame without bytes is whole.
    Row {
        head: [1, 2, 1, 0, 0, 0, 0, 0, 1, 0, 0, 0],
        bytes: 0,
        kind: Kind::Whole,
    },
    // A kernel that is none, at either place.
    Row {
        head: [0, 2, 1, 0, 0, 0, 0, 0, 1, 0, 0, 0],
        bytes: 0,
        kind: Kind::Bad,
    },
    Row {
        head: [1, 17, 1, 0, 0, 0, 0, 0, 1, 0, 0, 0],
        bytes: 0,
        kind: Kind::Bad,
    },
    // No frames, and an index that isn't under the count.
    Row {
        head: [1, 2, 1, 0, 0, 0, 0, 0, 0, 0, 0, 0],
        bytes: 0,
        kind: Kind::Bad,
    },
    Row {
        head: [1, 2, 1, 0, 0, 0, 2, 0, 2, 0, 1, 0],
        bytes: 1,
        kind: Kind::Bad,
    },
    // Another length than is told, and one over 1,488.
    Row {
        head: [1, 2, 1, 0, 0, 0, 0, 0, 1, 0, 2, 0],
        bytes: 1,
        kind: Kind::Bad,
    },
    Row {
        head: [1, 2, 1, 0, 0, 0, 0, 0, 1, 0, 2, 0],
        bytes: 3,
        kind: Kind::Bad,
    },
    Row {
        head: [1, 2, 1, 0, 0, 0, 0, 0, 1, 0, 209, 5],
        bytes: 1489,
        kind: Kind::Bad,
    },
    // A frame before the last that isn't full, and an empty last one of two.
    Row {
        head: [1, 2, 1, 0, 0, 0, 0, 0, 2, 0, 207, 5],
        bytes: 1487,
        kind: Kind::Bad,
    },
    Row {
        head: [1, 2, 1, 0, 0, 0, 1, 0, 2, 0, 0, 0],
        bytes: 0,
        kind: Kind::Bad,
    },
    // The first and the last of two.
    Row {
        head: [1, 2, 1, 0, 0, 0, 0, 0, 2, 0, 208, 5],
        bytes: 1488,
        kind: Kind::Kept,
    },
    Row {
        head: [1, 2, 1, 0, 0, 0, 1, 0, 2, 0, 1, 0],
        bytes: 1,
        kind: Kind::Kept,
    },
];

#[test]
fn heads_are_read(rt: HostRuntime) {
    is_none(&rt, first_other(rt.alloc(), &HEADS));
}
