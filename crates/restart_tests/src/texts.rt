use restart_text::file_text;
use std::alloc::Global;
use text_rows::LineError;

// What is to come of a text: another text, or its first bad line.
enum Told {
    Text(&'static [u8]),
    Bad(usize),
}

static ROWS: [(&[u8], Told); 19] = [
    // A dirty block is claimed at its version.
    (
        b"file 2 \"abc\"\nopen 1 1 both\nsettle\nwrite 1 1 0 \"x\"\nsettle\nstop\nclaim 1\nclaim 2\nopen 2 2 read\nsettle\nread 2 2 0 3\nsettle\n",
        Told::Text(
            b"claim 1 granted 2\nclaim 2 granted 2\nread 2 \"xbc\"\nend version 2 size 3 \"xbc\"\n",
        ),
    ),
    // Another kernel opens the file first, which raises the version.
    (
        b"file 2 \"abc\"\nopen 1 1 both\nsettle\nwrite 1 1 0 \"x\"\nsettle\nstop\nclaim 2\nopen 2 2 both\nsettle\nclaim 1\n",
        Told::Text(b"claim 2 granted 2\nclaim 1 refused 2 3\nend version 3 size 3 \"abc\"\n"),
    ),
    // A truncation comes only with writing.
    (
        b"file 2 \"abc\"\nopen 1 1 read trunc\nsettle\n",
        Told::Bad(2),
    ),
    (
        b"file 1 \"abc\"\nopen 1 1 both trunc\nsettle\n",
        Told::Text(b"end version 2 size 0 \"\"\n"),
    ),
    // Escapes, and a last line without its end.
    (
        b"file 1 \"\\00\\22\"",
        Told::Text(b"end version 1 size 2 \"\\00\\22\"\n"),
    ),
    // Each other form: a block is sent back, a stream closed, a call sent again and brought to its receiver.
    (
        b"file 1 \"ab\"\nopen 1 1 write\ndeliver 1\ndeliver 1\nappend 1 1 \"c\"\nsettle\nback 1 0\nexpire 2\nsettle\nclose 1 1\nsettle\n",
        Told::Text(b"end version 2 size 3 \"abc\"\n"),
    ),
    // A step that isn't possible does nothing.
    (
        b"file 1 \"ab\"\nread 1 1 0 2\nclaim 1\ndeliver 9\n",
        Told::Text(b"end version 1 size 2 \"ab\"\n"),
    ),
    // Bad lines.
    (b"", Told::Bad(1)),
    (b"\n", Told::Bad(1)),
    (b"file 16 \"abc\"\n", Told::Bad(1)),
    (b"file 0 \"abc\"\n", Told::Bad(1)),
    (b"file 2 \"abc\" \n", Told::Bad(1)),
    (b"file 2 \"\"\nsettle\nclaim 3\n", Told::Bad(3)),
    (b"file 2 \"\"\nsettle \n", Told::Bad(2)),
    (b"file 2 \"\"\nread 1 1 0 16385\n", Told::Bad(2)),
    (b"file 2 \"\"\nwrite 1 1 262144 \"a\"\n", Told::Bad(2)),
    (b"file 2 \"\"\nback 1 64\n", Told::Bad(2)),
    (b"file 2 \"\"\nopen 1 2000000001 read\n", Told::Bad(2)),
    (b"file 2 \"\"\n\nsettle\n", Told::Bad(2)),
];

fn is(alloc: Global, text: &[u8], told: &Told) -> bool {
    match file_text(alloc, text) {
        Ok(came) => match told {
            Told::Text(wanted) => came.as_slice() == *wanted,
            Told::Bad(_) => false,
        },
        Err(LineError::Line(number)) => match told {
            Told::Bad(line) => number == *line,
            Told::Text(_) => false,
        },
        Err(LineError::NoMemory) => false,
    }
}

/// The place of the first row of which another text or line comes.
pub fn first_other(alloc: Global) -> Option<usize> {
    for (place, (text, told)) in ROWS.iter().enumerate() {
        if !is(alloc, text, told) {
            return Some(place);
        }
    }
    None
}
