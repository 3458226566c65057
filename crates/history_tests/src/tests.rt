use history_text::{HistoryError, print_history, read_history};
use process_machine::{Call, Reply};
use sprite_ids::{Bytes, Errno, Kernel, NoMemory, Pid};
use std::alloc::Global;
use std::test::*;
use unix_calls::{Entry, Part};

// A line of each call; the process is 1,001 and the number 5.
const LINES: [&str; 36] = [
    "1001 5 whole print \"hello\\0a\" -> ok 0 0 \"\"\n",
    "1001 5 whole exit 3 -> ok 0 0 \"\"\n",
    "1001 5 whole getpid -> ok 1001 0 \"\"\n",
    "1001 5 whole getppid -> ok 0 0 \"\"\n",
    "1001 5 whole host 8 -> ok 2 0 \"c1\"\n",
    "1001 5 whole tick -> ok 1 0 \"\"\n",
    "1001 5 whole fork -> ok 1002 0 \"\"\n",
    "1001 5 whole exec \"prog\" 7 -> err 1\n",
    "1001 5 whole wait -> ok 1002 257 \"\"\n",
    "1001 5 whole kill 1002 -> ok 0 0 \"\"\n",
    "1001 5 whole open \"/f\" 7 -> ok 3 0 \"\"\n",
    "1001 5 whole close 3 -> ok 0 0 \"\"\n",
    "1001 5 whole dup 3 -> ok 4 0 \"\"\n",
    "1001 5 whole read 3 4096 -> ok 4 0 \"a\\00\\ff \"\n",
    "1001 5 whole write 3 \"\\22\\5c~\\7f\" -> ok 4 0 \"\"\n",
    "1001 5 whole seek 3 18446744073709551615 -> err 10\n",
    "1001 5 whole size 3 -> ok 4 0 \"\"\n",
    "1001 5 whole sync 3 -> ok 0 0 \"\"\n",
    "1001 5 whole stat \"/f\" -> ok 2 1 \"\"\n",
    "1001 5 whole mkdir \"d\" -> ok 0 0 \"\"\n",
    "1001 5 whole rmdir \"d\" -> ok 0 0 \"\"\n",
    "1001 5 whole unlink \"f\" -> ok 0 0 \"\"\n",
    "1001 5 whole rename \"f\" \"g\" -> ok 0 0 \"\"\n",
    "1001 5 whole list \"/\" 64 -> ok 2 0 \"g\\0a\"\n",
    "1001 5 whole chdir \"/d\" -> err 17\n",
    "1001 5 whole migrate \"c2\" -> ok 0 0 \"\"\n",
    "1001 5 whole pd_make \"/p\" -> ok 0 0 \"\"\n",
    "1001 5 whole pd_get 0 64 -> ok 1 8 \"\\08\\00\\00\\00\\00\\00\\00\\00\"\n",
    "1001 5 whole pd_put 0 \"ab\" 0 -> ok 0 0 \"\"\n",
    "1001 5 ask ioctl 1 9 \"x\" -> -\n",
    "1001 5 done ioctl 1 9 \"x\" -> ok 1 0 \"y\"\n",
    "1001 5 whole rexec \"prog\" \"c2\" -> ok 0 0 \"\"\n",
    "1001 5 whole refused 20 -> err 20\n",
    "1001 5 whole bad -> ok 0 0 \"\"\n",
    "1001 5 death\n",
    "1001 5 done read 3 2 -> err 16\n",
];

// Texts, and the first line that is no entry's; 0 where there is none.
const TEXTS: [(&str, usize); 62] = [
    ("", 0),
    ("budget\n", 0),
    ("stalled\n", 0),
    ("1001 5 death\n", 0),
    ("1001 5 death\nbudget\n", 0),
    ("1001 5 death\nstalled\n", 0),
    ("1001 0 death\n", 0),
    ("16200 4294967295 death\n", 0),
    // no byte 10 at the end
    ("1001 5 death", 1),
    ("1001 5 death\n1001 6 death", 2),
    ("budget", 1),
    ("1001 5 death\nbudget", 2),
    // not the last line
    ("budget\nbudget\n", 1),
    ("budget\n1001 5 death\n", 1),
    ("1001 5 death\nstalled\n1001 6 death\n", 2),
    ("1001 5 death\nbudgets\n", 2),
    // blank lines
    ("\n", 1),
    ("1001 5 death\n\n", 2),
    ("1001 5 death\n\n1001 6 death\n", 2),
    // spaces
    (" 1001 5 death\n", 1),
    ("1001  5 death\n", 1),
    ("1001 5 death \n", 1),
    ("1001\t5 death\n", 1),
    ("1001 5 death\r\n", 1),
    // numbers
    ("01001 5 death\n", 1),
    ("1001 05 death\n", 1),
    ("1001 00 death\n", 1),
    ("1001 +5 death\n", 1),
    ("1001  death\n", 1),
    ("1001 4294967296 death\n", 1),
    ("1000 5 death\n", 1),
    ("1201 5 death\n", 1),
    ("17001 5 death\n", 1),
    ("4295968297 5 death\n", 1),
    ("1001 5 whole dup 18446744073709551616 -> err 6\n", 1),
    ("1001 5 whole dup 99999999999999999999999 -> err 6\n", 1),
    ("1001 5 whole dup 3 -> err 06\n", 1),
    ("1001 5 whole dup 3 -> err 0\n", 1),
    ("1001 5 whole dup 3 -> err 21\n", 1),
    ("1001 5 whole dup 3 -> err 257\n", 1),
    ("1001 5 whole refused 0 -> err 10\n", 1),
    // escapes
    ("1001 5 whole stat \"\\2F\" -> err 1\n", 1),
    ("1001 5 whole stat \"\\2f\" -> err 1\n", 1),
    ("1001 5 whole stat \"\\0A\" -> err 1\n", 1),
    ("1001 5 whole stat \"\\0\" -> err 1\n", 1),
    ("1001 5 whole stat \"\\\\\" -> err 1\n", 1),
    ("1001 5 whole stat \"\x7f\" -> err 1\n", 1),
    ("1001 5 whole stat \"a\nb\" -> err 1\n", 1),
    ("1001 5 whole stat \"a -> err 1\n", 1),
    ("1001 5 whole stat a -> err 1\n", 1),
    ("1001 5 whole stat \"a\"-> err 1\n", 1),
    // parts that don't belong together
    ("1001 5 death tick -> ok 1 0 \"\"\n", 1),
    ("1001 5 whole tick\n", 1),
    ("1001 5 whole tick -> -\n", 1),
    ("1001 5 ask read 3 2 -> ok 0 0 \"\"\n", 1),
    ("1001 5 done read 3 2 -> -\n", 1),
    ("1001 5 part tick -> ok 1 0 \"\"\n", 1),
    // calls
    ("1001 5 whole nothing -> ok 0 0 \"\"\n", 1),
    ("1001 5 whole tick 1 -> ok 1 0 \"\"\n", 1),
    ("1001 5 whole read 3 -> ok 0 0 \"\"\n", 1),
    ("1001 5 whole pd_put 0 \"ab\" -> ok 0 0 \"\"\n", 1),
    ("1001 5 whole tick -> ok 1 0\n", 1),
];

// A part, whether an entry of it has a call and a reply, and whether it has a line.
const SHAPES: [(Part, bool, bool, bool); 12] = [
    (Part::Whole, true, true, true),
    (Part::Whole, true, false, false),
    (Part::Whole, false, true, false),
    (Part::Whole, false, false, false),
    (Part::Ask, true, true, false),
    (Part::Ask, true, false, true),
    (Part::Ask, false, true, false),
    (Part::Ask, false, false, false),
    (Part::Done, true, true, true),
    (Part::Done, true, false, false),
    (Part::Death, true, false, false),
    (Part::Death, false, true, false),
];

// The first line that is no entry's; 0 where there is none.
fn bad_line(alloc: Global, text: &str) -> Result<usize, NoMemory> {
    match read_history(alloc, text.as_bytes()) {
        Ok(_) => Ok(0),
        Err(HistoryError::Line(number)) => Ok(number),
        Err(HistoryError::NoMemory) => Err(NoMemory),
    }
}

// Whether the entries print as that text.
fn print_as(alloc: Global, entries: &[Entry], text: &[u8]) -> Result<bool, NoMemory> {
    match print_history(alloc, entries) {
        Ok(printed) => Ok(printed.as_slice() == text),
        Err(HistoryError::Line(_)) => Ok(false),
        Err(HistoryError::NoMemory) => Err(NoMemory),
    }
}

// Whether the line is read as the one entry of that row, and printed so again.
fn is_read(alloc: Global, row: usize, line: &str) -> Result<bool, NoMemory> {
    match read_history(alloc, line.as_bytes()) {
        Ok(entries) => Ok(
            are_row(row, entries.as_slice())
                && print_as(alloc, entries.as_slice(), line.as_bytes())?,
        ),
        Err(HistoryError::Line(_)) => Ok(false),
        Err(HistoryError::NoMemory) => Err(NoMemory),
    }
}

fn are_row(row: usize, entries: &[Entry]) -> bool {
    entries.len() == 1 && is_row(row, &entries[0])
}

// Whether it is the entry of that row.
fn is_row(row: usize, entry: &Entry) -> bool {
    entry.pid.number() == 1001
        && entry.number == 5
        && entry.part == part_of(row)
        && is_call(row, &entry.call)
        && is_reply(row, &entry.reply)
}

fn part_of(row: usize) -> Part {
    match row {
        29 => Part::Ask,
        30 => Part::Done,
        34 => Part::Death,
        35 => Part::Done,
        _ => Part::Whole,
    }
}

fn is_call(row: usize, call: &Option<Call>) -> bool {
    match call {
        None => row == 34,
        Some(call) => is_process_call(row, call),
    }
}

fn is_text(bytes: &Bytes, wanted: &[u8]) -> bool {
    bytes.as_slice() == wanted
}

fn is_process_call(row: usize, call: &Call) -> bool {
    match call {
        Call::Print { bytes } => row == 0 && is_text(bytes, b"hello\n"),
        Call::Exit { code } => row == 1 && *code == 3,
        Call::Getpid => row == 2,
        Call::Getppid => row == 3,
        Call::Host { max } => row == 4 && *max == 8,
        Call::Tick => row == 5,
        Call::Fork => row == 6,
        Call::Exec { name, arg } => row == 7 && is_text(name, b"prog") && *arg == 7,
        Call::Wait => row == 8,
        Call::Kill { pid } => row == 9 && *pid == 1002,
        _ => is_stream_call(row, call),
    }
}

fn is_stream_call(row: usize, call: &Call) -> bool {
    match call {
        Call::OpenFile { path, flags } => row == 10 && is_text(path, b"/f") && *flags == 7,
        Call::Close { fd } => row == 11 && *fd == 3,
        Call::Dup { fd } => row == 12 && *fd == 3,
        Call::Read { fd, length } => is_reading(row, *fd, *length),
        Call::Write { fd, bytes } => row == 14 && *fd == 3 && is_text(bytes, b"\"\\~\x7f"),
        Call::Seek { fd, offset } => row == 15 && *fd == 3 && *offset == u64::MAX,
        Call::Size { fd } => row == 16 && *fd == 3,
        Call::Sync { fd } => row == 17 && *fd == 3,
        _ => is_path_call(row, call),
    }
}

fn is_reading(row: usize, fd: u64, length: u64) -> bool {
    fd == 3 && (row == 13 && length == 4096 || row == 35 && length == 2)
}

fn is_path_call(row: usize, call: &Call) -> bool {
    match call {
        Call::Stat { path } => row == 18 && is_text(path, b"/f"),
        Call::Mkdir { path } => row == 19 && is_text(path, b"d"),
        Call::Rmdir { path } => row == 20 && is_text(path, b"d"),
        Call::Unlink { path } => row == 21 && is_text(path, b"f"),
        Call::Rename { old, new } => row == 22 && is_text(old, b"f") && is_text(new, b"g"),
        Call::List { path, max } => row == 23 && is_text(path, b"/") && *max == 64,
        Call::Chdir { path } => row == 24 && is_text(path, b"/d"),
        _ => is_other_call(row, call),
    }
}

fn is_other_call(row: usize, call: &Call) -> bool {
    match call {
        Call::Migrate { name } => row == 25 && is_text(name, b"c2"),
        Call::PdMake { path } => row == 26 && is_text(path, b"/p"),
        Call::PdGet { fd, max } => row == 27 && *fd == 0 && *max == 64,
        Call::PdPut { fd, bytes, errno } => {
            row == 28 && *fd == 0 && is_text(bytes, b"ab") && *errno == 0
        }
        Call::Ioctl { fd, command, bytes } => {
            (row == 29 || row == 30) && *fd == 1 && *command == 9 && is_text(bytes, b"x")
        }
        Call::Rexec { name, host } => row == 31 && is_text(name, b"prog") && is_text(host, b"c2"),
        Call::Refused { errno } => row == 32 && *errno == Errno::BadAddress,
        Call::BadStep => row == 33,
        _ => false,
    }
}

fn is_reply(row: usize, reply: &Option<Reply>) -> bool {
    match reply {
        None => row == 29 || row == 34,
        Some(Reply::Error(errno)) => Some(*errno) == error_of(row),
        Some(
            Reply::Value {
                first,
                second,
                bytes,
            },
        ) => { (*first, *second) == values_of(row) && is_text(bytes, bytes_of(row)) }
    }
}

fn error_of(row: usize) -> Option<Errno> {
    match row {
        7 => Some(Errno::NoEntry),
        15 => Some(Errno::Invalid),
        24 => Some(Errno::Unreachable),
        32 => Some(Errno::BadAddress),
        35 => Some(Errno::NoServer),
        _ => None,
    }
}

fn values_of(row: usize) -> (u64, u64) {
    match row {
        2 => (1001, 0),
        4 | 23 => (2, 0),
        5 | 30 => (1, 0),
        6 => (1002, 0),
        8 => (1002, 257),
        10 => (3, 0),
        12 | 13 | 14 | 16 => (4, 0),
        18 => (2, 1),
        27 => (1, 8),
        _ => (0, 0),
    }
}

fn bytes_of(row: usize) -> &'static [u8] {
    match row {
        4 => b"c1",
        13 => b"a\0\xff ",
        23 => b"g\n",
        27 => b"\x08\0\0\0\0\0\0\0",
        30 => b"y",
        _ => b"",
    }
}

// The first row that isn't read as it should be.
fn first_other(alloc: Global, lines: &[&str]) -> Result<Option<usize>, NoMemory> {
    for (row, line) in lines.iter().enumerate() {
        if !is_read(alloc, row, line)? {
            return Ok(Some(row));
        }
    }
    Ok(None)
}

// The first text whose bad line is another.
fn first_misread(alloc: Global, texts: &[(&str, usize)]) -> Result<Option<usize>, NoMemory> {
    for (row, text) in texts.iter().enumerate() {
        if bad_line(alloc, text.0)? != text.1 {
            return Ok(Some(row));
        }
    }
    Ok(None)
}

// An entry of that part, of process 1,001.
fn entry_of(part: Part, has_call: bool, has_reply: bool) -> Option<Entry> {
    let home = Kernel::new(1)?;
    let pid = Pid::new(home, 1)?;
    let call = if has_call { Some(Call::Tick) } else { None };
    let reply = if has_reply {
        Some(Reply::Error(Errno::BadFd))
    } else {
        None
    };
    Some(Entry {
        pid,
        number: 5,
        part,
        call,
        reply,
    })
}

// A death, and an entry of that shape behind it.
fn entries_of(alloc: Global, shape: &(Part, bool, bool, bool)) -> Result<Vec<Entry>, NoMemory> {
    let mut entries = Vec::new(alloc);
    if let Some(death) = entry_of(Part::Death, false, false) {
        entries.push(death)?;
    }
    if let Some(entry) = entry_of(shape.0, shape.1, shape.2) {
        entries.push(entry)?;
    }
    Ok(entries)
}

// Whether the second entry is told, of that shape, exactly where it has no line.
fn is_told(alloc: Global, shape: &(Part, bool, bool, bool)) -> Result<bool, NoMemory> {
    let entries = entries_of(alloc, shape)?;
    match print_history(alloc, entries.as_slice()) {
        Ok(_) => Ok(entries.len() == 2 && shape.3),
        Err(HistoryError::Line(number)) => Ok(number == 2 && !shape.3),
        Err(HistoryError::NoMemory) => Err(NoMemory),
    }
}

// The first shape that isn't told so.
fn first_untold(
    alloc: Global,
    shapes: &[(Part, bool, bool, bool)],
) -> Result<Option<usize>, NoMemory> {
    for (row, shape) in shapes.iter().enumerate() {
        if !is_told(alloc, shape)? {
            return Ok(Some(row));
        }
    }
    Ok(None)
}

#[test]
fn entries_without_lines_are_told(rt: HostRuntime) -> Result<(), NoMemory> {
    assert_eq!(rt; first_untold(rt.alloc(), &SHAPES)?, None);
    Ok(())
}

#[test]
fn lines_are_read(rt: HostRuntime) -> Result<(), NoMemory> {
    assert_eq!(rt; first_other(rt.alloc(), &LINES)?, None);
    Ok(())
}

#[test]
fn bad_lines_are_told(rt: HostRuntime) -> Result<(), NoMemory> {
    assert_eq!(rt; first_misread(rt.alloc(), &TEXTS)?, None);
    Ok(())
}
