use crate::frames::{frames, is_none};
use sprite_ids::{Bytes, NoMemory};
use std::alloc::Global;

/// A message of so many bytes, and the lengths of its frames.
struct Row {
    bytes: usize,
    frames: &'static [usize],
}

fn have_lengths(frames: &[Bytes], lengths: &[usize]) -> bool {
    if frames.len() != lengths.len() {
        return false;
    }
    for (place, frame) in frames.iter().enumerate() {
        if place < lengths.len() && frame.len() != lengths[place] {
            return false;
        }
    }
    true
}

fn is_cut(alloc: Global, row: &Row) -> bool {
    match frames(alloc, 1, row.bytes) {
        Ok(frames) => have_lengths(frames.as_slice(), row.frames),
        Err(NoMemory) => false,
    }
}

fn first_other(alloc: Global, rows: &[Row]) -> Option<usize> {
    for (place, row) in rows.iter().enumerate() {
        if !is_cut(alloc, row) {
            return Some(place);
        }
    }
    None
}

static CUT: [Row; 5] = [
    Row {
        bytes: 0,
        frames: &[12],
    },
    Row {
        bytes: 1488,
        frames: &[1500],
    },
    Row {
        bytes: 1489,
        frames: &[1500, 13],
    },
    Row {
        bytes: 2976,
        frames: &[1500, 1500],
    },
    // A block of 4,096 bytes that is written back, as a packet.
    Row {
        bytes: 4123,
        frames: &[1500, 1500, 1159],
    },
];

#[test]
fn messages_are_cut(rt: HostRuntime) {
    is_none(&rt, first_other(rt.alloc(), &CUT));
}
