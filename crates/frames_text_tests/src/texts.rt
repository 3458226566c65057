use frames_text::{FramesAnswer, send_text};
use link_plan::{Link, PlanLink};
use sprite_ids::{Bytes, Kernel, NoMemory};
use std::alloc::Global;
use std::process::Abort;

/// A cluster of a client and a file server.
const CLUSTER: &[u8] =
    b"version = 1\n[[kernel]]\nname = \"c1\"\n[[kernel]]\nname = \"s1\"\nserves = [\"/\"]\n";

/// The second packet of the client to the server is lost.
const SECOND_LOST: &[u8] = b"[[link]]\nfrom = \"c1\"\nto = \"s1\"\nfirst = 2\ncount = 1\n";

/// Of the client's packets to the server those with odd numbers come twice, the others late.
const TWICE_AND_LATE: &[u8] =
    b"[[link]]\nfrom = \"c1\"\nto = \"s1\"\nfirst = 1\nevery = 2\nfate = \"twice\"\n[[link]]\nfrom = \"c1\"\nto = \"s1\"\nfirst = 2\nevery = 2\nfate = \"late\"\n";

/// A write-back of a block of 4,096 bytes up to the bytes themselves. It has 4,123 bytes, which are three frames.
const WRITE_BACK: &[u8] = b"010102010000000902010000000100000000000010000000100000";

/// What is read, and what is due. In a body `z` and `x` stand for a write-back of bytes 122 and 120.
struct Row {
    links: &'static [u8],
    body: &'static [u8],
    is_refused: bool,
    due: &'static [u8],
}

static ROWS: [Row; 9] = [
    // Of three packets of one frame the second is lost.
    Row {
        links: SECOND_LOST,
        body: b"=====\n0101020100000001\n0101020100000001\n0101020100000001\n",
        is_refused: false,
        due: b"packet 1 whole\npacket 2 lost\npacket 3 whole\n",
    },
    // The second of a packet's three frames is lost.
    Row {
        links: SECOND_LOST,
        body: b"=====\nz\n0101020100000001\nx\n",
        is_refused: false,
        due: b"packet 1 lost\npacket 2 whole\npacket 3 whole\n",
    },
    // What comes twice or late comes.
    Row {
        links: TWICE_AND_LATE,
        body: b"=====\nz\n0101020100000001\nx",
        is_refused: false,
        due: b"packet 1 whole\npacket 2 whole\npacket 3 whole\n",
    },
    // No packets.
    Row {
        links: b"",
        body: b"=====",
        is_refused: false,
        due: b"",
    },
    // No packet's spelling.
    Row {
        links: b"",
        body: b"=====\n01\n",
        is_refused: true,
        due: b"refused: 15 line 1\n",
    },
    // A byte behind the packet, in upper case.
    Row {
        links: b"",
        body: b"=====\n0101020100000001\n01010201000000010A\n",
        is_refused: true,
        due: b"refused: 15 line 2\n",
    },
    // From a kernel to itself, and to one that the file doesn't have.
    Row {
        links: b"",
        body: b"=====\n0101010100000001\n",
        is_refused: true,
        due: b"refused: 15 line 1\n",
    },
    Row {
        links: b"",
        body: b"=====\n0101020100000001\n0101030100000001\n",
        is_refused: true,
        due: b"refused: 15 line 2\n",
    },
    // No line between the file and the packets.
    Row {
        links: b"",
        body: b"0101020100000001\n",
        is_refused: true,
        due: b"refused: 14\n",
    },
];

// Puts the line of a write-back of a block of that byte, which is told by its two digits.
fn put_block(line: &mut Bytes, digits: &[u8]) -> Result<(), NoMemory> {
    line.append(WRITE_BACK)?;
    for _ in 0..4096 {
        line.append(digits)?;
    }
    Ok(())
}

// The text of a row.
fn text_of(alloc: Global, row: &Row) -> Result<Bytes, NoMemory> {
    let mut text = Bytes::of_slice(alloc, CLUSTER)?;
    text.append(row.links)?;
    for byte in row.body {
        match *byte {
            b'z' => put_block(&mut text, b"7a")?,
            b'x' => put_block(&mut text, b"78")?,
            other => text.push(other)?,
        }
    }
    Ok(text)
}

// What is due for a row, over that link.
fn answer_of(alloc: Global, link: &mut PlanLink, row: &Row) -> Result<FramesAnswer, NoMemory> {
    let text = text_of(alloc, row)?;
    if text.len() > 67_108_864 {
        return Err(NoMemory);
    }
    send_text(alloc, link, text.as_slice())
}

// Whether that is due for the row.
fn is_answered(alloc: Global, row: &Row) -> bool {
    let mut link = PlanLink::new(alloc);
    match answer_of(alloc, &mut link, row) {
        Ok(FramesAnswer::Lines(lines)) => !row.is_refused && lines.as_slice() == row.due,
        Ok(FramesAnswer::Refused(line)) => row.is_refused && line.as_slice() == row.due,
        Err(NoMemory) => false,
    }
}

// The place of the first row for which something else is due.
fn first_other(alloc: Global, rows: &[Row]) -> Option<usize> {
    for (place, row) in rows.iter().enumerate() {
        if !is_answered(alloc, row) {
            return Some(place);
        }
    }
    None
}

// Asserts that no row is another, and tells the place of the one that is.
fn is_none(rt: &impl Abort, other: Option<usize>) {
    assert_eq!(rt; other, None);
}

// How often the link of a row was asked about the two kernels, and how many faults it made between them.
fn counts_of(alloc: Global, row: &Row) -> Option<(u64, u64)> {
    let mut link = PlanLink::new(alloc);
    let client = Kernel::new(1)?;
    let server = Kernel::new(2)?;
    match answer_of(alloc, &mut link, row) {
        Ok(_) => Some((link.asked(client, server), link.faults(server, client))),
        Err(NoMemory) => None,
    }
}

#[test]
fn texts_are_answered(rt: HostRuntime) {
    is_none(&rt, first_other(rt.alloc(), &ROWS));
}

#[test]
fn each_frame_is_asked_about(rt: HostRuntime) {
    assert_eq!(rt; counts_of(rt.alloc(), &ROWS[1]), Some((7, 1)));
}

#[test]
fn a_refused_text_asks_nothing(rt: HostRuntime) {
    assert_eq!(rt; counts_of(rt.alloc(), &ROWS[5]), Some((0, 0)));
}
