use lend_text::lend_text;
use std::alloc::Global;
use std::process::Abort;
use text_rows::LineError;

/// A text of events, and what answers it.
struct Row {
    text: &'static [u8],
    answer: &'static [u8],
}

// Asserts that no row is another, and tells the place of the one that is.
fn is_none(rt: &impl Abort, other: Option<usize>) {
    assert_eq!(rt; other, None);
}

// Whether the text is answered so.
fn is_answered(alloc: Global, row: &Row) -> bool {
    match lend_text(alloc, row.text) {
        Ok(answer) => answer.as_slice() == row.answer,
        Err(_) => false,
    }
}

// The place of the first text that isn't answered so.
fn first_other(alloc: Global, rows: &[Row]) -> Option<usize> {
    for (place, row) in rows.iter().enumerate() {
        if !is_answered(alloc, row) {
            return Some(place);
        }
    }
    None
}

/// A text of events, and the first line of it that isn't of its form.
struct BadRow {
    text: &'static [u8],
    line: usize,
}

fn is_bad(alloc: Global, row: &BadRow) -> bool {
    match lend_text(alloc, row.text) {
        Err(LineError::Line(line)) => line == row.line,
        _ => false,
    }
}

fn first_not_bad(alloc: Global, rows: &[BadRow]) -> Option<usize> {
    for (place, row) in rows.iter().enumerate() {
        if !is_bad(alloc, row) {
            return Some(place);
        }
    }
    None
}

static ANSWERED: [Row; 7] = [
    // Hosts are lent, the least first; the third asker takes the greatest of the one that holds two more; an owner is back.
    Row {
        text: b"hosts 4\nidle 2\nidle 3\nborrow 1\nborrow 1\nborrow 4\nowner 2\nreturn 1 3\n",
        answer: b"noted\nnoted\nlent 2\nlent 3\nmoved 3 1\nrevoked 1\nnot held\n",
    },
    // Nobody borrows its own host; one host more isn't enough for a move.
    Row {
        text: b"hosts 2\nidle 1\nborrow 1\nborrow 2\nborrow 2\nleave 2\n",
        answer: b"noted\nno host\nlent 1\nno host\nleft 1\n",
    },
    // At a tie of two that hold two each, the host is taken from the lesser of them, and is its greatest.
    Row {
        text: b"hosts 6\nidle 1\nidle 2\nidle 5\nidle 6\nborrow 4\nborrow 4\nborrow 3\nborrow 3\nborrow 6\nleave 3\n",
        answer: b"noted\nnoted\nnoted\nnoted\nlent 1\nlent 2\nlent 5\nlent 6\nmoved 5 3\nleft 1\n",
    },
    // A host that is returned is free again, and busy after its owner came.
    Row {
        text: b"hosts 3\nidle 3\nborrow 1\nreturn 1 3\nborrow 2\nreturn 1 3\nowner 3\nborrow 1\nowner 3\n",
        answer: b"noted\nlent 3\nreturned\nlent 3\nnot held\nrevoked 2\nno host\nnoted\n",
    },
    // A host that is told idle while it is lent stays lent.
    Row {
        text: b"hosts 2\nidle 2\nborrow 1\nidle 2\nborrow 1\nleave 1\nleave 1\n",
        answer: b"noted\nlent 2\nnoted\nno host\nleft 1\nleft 0\n",
    },
    // No events; and a last line without its end.
    Row {
        text: b"hosts 16",
        answer: b"",
    },
    Row {
        text: b"hosts 1\nidle 1\nborrow 1",
        answer: b"noted\nno host\n",
    },
];

static BAD: [BadRow; 8] = [
    BadRow { text: b"", line: 1 },
    BadRow {
        text: b"hosts 17\n",
        line: 1,
    },
    BadRow {
        text: b"hosts 0\n",
        line: 1,
    },
    BadRow {
        text: b"idle 1\n",
        line: 1,
    },
    BadRow {
        text: b"hosts 4\nidle 4\nidle 5\nidle 0\n",
        line: 3,
    },
    BadRow {
        text: b"hosts 4\nreturn 1\n",
        line: 2,
    },
    BadRow {
        text: b"hosts 4\nborrow 1\n\nleave 1\n",
        line: 3,
    },
    BadRow {
        text: b"hosts 4\nborrow  1\n",
        line: 2,
    },
];

#[test]
fn events_are_answered(rt: HostRuntime) {
    is_none(&rt, first_other(rt.alloc(), &ANSWERED));
}

#[test]
fn bad_lines_are_told(rt: HostRuntime) {
    is_none(&rt, first_not_bad(rt.alloc(), &BAD));
}
