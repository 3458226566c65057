use link_plan::Fate;
use process_machine::{Call, Reply};
use sprite_ids::{
    BlockNo, Bytes, CacheMode, CallKind, Errno, FileId, Kernel, Mode, NoMemory, Pid, StreamNo, TxNo,
};
use sprite_paths::Path;
use std::alloc::Global;
use std::test::*;
use trace_text::{TraceError, print_trace, read_trace};
use unix_calls::{About, DropCause, Entry, Event, Part, Rec, SendKind};

// The kernel of a record, and its line: of each event, in the order in which a run's counts name them.
static EVENTS: [(u8, &str); 21] = [
    (1, "1 Burst 1001 10000\n"),
    (1, "1 Issue 1001 2 seek 3 18446744073709551615\n"),
    (1, "1 Enter 1001 2 whole seek 3 9 -> ok 9 0 \"\"\n"),
    (1, "1 Return 1001 2 ok 9 0 \"\"\n"),
    (1, "1 Send 7 2 1001/2 op 2:3\n"),
    (1, "1 Fault 1 2 lost\n"),
    (2, "2 Deliver 7 1 0 1001/2\n"),
    (1, "1 Expire 7 1\n"),
    (2, "2 Grant 2:3 1 4 on\n"),
    (2, "2 Callback 2:3 1 5 recall\n"),
    (1, "1 Mode 2:3 5 off\n"),
    (1, "1 Filled 2:3 65535\n"),
    (1, "1 Dropped 2:3 65535 full\n"),
    (1, "1 Dirtied 2:3 65535\n"),
    (1, "1 WroteBack 2:3 65535\n"),
    (2, "2 Opened 2:3 1:9 1 read\n"),
    (2, "2 Closed 2:3 1:9 1 write\n"),
    (2, "2 Shared 2:3 1:9\n"),
    (1, "1 Learned \"/a/\\22b\" 2\n"),
    (1, "1 Freeze 1001\n"),
    (16, "16 Thaw 1001\n"),
];

// The same of the choices that the lines above leave out.
static CHOICES: [(u8, &str); 18] = [
    (1, "1 Enter 1001 2 death\n"),
    (1, "1 Enter 1001 2 ask seek 3 9 -> -\n"),
    (1, "1 Return 1001 2 err 10\n"),
    (1, "1 Send 7 2 - fetch 2:3 65535\n"),
    (1, "1 Send 7 2 - writeback 2:3 65535\n"),
    (1, "1 Send 7 2 - other\n"),
    (1, "1 Send 7 2 - broadcast \"/\"\n"),
    (1, "1 Fault 1 2 twice\n"),
    (1, "1 Fault 1 2 late\n"),
    (1, "1 Fault 1 2 once\n"),
    (1, "1 Deliver 7 2 1 -\n"),
    (1, "1 Expire 7 0\n"),
    (2, "2 Callback 2:3 1 5 stop\n"),
    (1, "1 Mode 2:3 5 none\n"),
    (1, "1 Dropped 2:3 65535 stop\n"),
    (1, "1 Dropped 2:3 65535 version\n"),
    (2, "2 Closed 2:3 1:9 1 both\n"),
    (1, "1 Enter 1001 2 \n"),
];

// Rows of CHOICES whose records have no line of their own, and are not read: a fault that is none, and an entry whose parts
// don't belong together.
static UNREAD: [usize; 2] = [9, 17];

// Texts, and the first line that is no record's; 0 where there is none.
const TEXTS: [(&str, usize); 112] = [
    ("", 0),
    ("budget\n", 0),
    ("stalled\n", 0),
    ("1 Freeze 1001\n", 0),
    ("1 Freeze 1001\nbudget\n", 0),
    ("1 Freeze 1001\n16 Thaw 16200\nstalled\n", 0),
    ("1 Burst 1001 0\n", 0),
    ("1 Burst 1001 4294967295\n", 0),
    ("1 Learned \"/\" 2\n", 0),
    // no byte 10 at the end
    ("1 Freeze 1001", 1),
    ("1 Freeze 1001\n1 Thaw 1001", 2),
    ("budget", 1),
    ("1 Freeze 1001\nbudget", 2),
    // not the last line
    ("budget\nbudget\n", 1),
    ("budget\n1 Freeze 1001\n", 1),
    ("1 Freeze 1001\nstalled\n1 Thaw 1001\n", 2),
    ("1 Freeze 1001\nbudgets\n", 2),
    ("1 Freeze 1001\n1 Thaw 1001\n1 Thaw 0\n1 Thaw 0\n", 3),
    // blank lines
    ("\n", 1),
    ("1 Freeze 1001\n\n", 2),
    ("1 Freeze 1001\n\n1 Thaw 1001\n", 2),
    // spaces
    (" 1 Freeze 1001\n", 1),
    ("1  Freeze 1001\n", 1),
    ("1 Freeze  1001\n", 1),
    ("1 Freeze 1001 \n", 1),
    ("1\tFreeze 1001\n", 1),
    ("1 Freeze 1001\r\n", 1),
    // kernels
    ("0 Freeze 1001\n", 1),
    ("17 Freeze 1001\n", 1),
    ("257 Freeze 1001\n", 1),
    ("01 Freeze 1001\n", 1),
    ("Freeze 1001\n", 1),
    ("-1 Freeze 1001\n", 1),
    // names
    ("1 freeze 1001\n", 1),
    ("1 Freezes 1001\n", 1),
    ("1 Nothing 1001\n", 1),
    ("1 1001\n", 1),
    ("1 \n", 1),
    ("1\n", 1),
    // numbers, and how many fields there are
    ("1 Freeze 1000\n", 1),
    ("1 Freeze 17001\n", 1),
    ("1 Freeze\n", 1),
    ("1 Freeze 1001 1\n", 1),
    ("1 Burst 1001\n", 1),
    ("1 Burst 1001 1 2\n", 1),
    ("1 Burst 1001 4294967296\n", 1),
    ("1 Burst 1001 010\n", 1),
    ("1 Burst 1001 -1\n", 1),
    ("1 Filled 2:3 65536\n", 1),
    ("1 Filled 2:3\n", 1),
    // files and streams
    ("1 Filled 0:3 1\n", 1),
    ("1 Filled 17:3 1\n", 1),
    ("1 Filled 2:03 1\n", 1),
    ("1 Filled 2:4294967296 1\n", 1),
    ("1 Filled 2 3 1\n", 1),
    ("1 Filled 2.3 1\n", 1),
    ("1 Filled 2: 3 1\n", 1),
    ("1 Filled 3 1\n", 1),
    ("2 Shared 2:3 9\n", 1),
    ("2 Shared 2:3 17:9\n", 1),
    // for whose sake a packet goes
    ("1 Send 7 2 1001 other\n", 1),
    ("1 Send 7 2 1001/ other\n", 1),
    ("1 Send 7 2 1001/02 other\n", 1),
    ("1 Send 7 2 1000/2 other\n", 1),
    ("1 Send 7 2 -/2 other\n", 1),
    ("1 Send 7 2 -- other\n", 1),
    ("1 Send 7 2 other\n", 1),
    ("1 Send 7 2  other\n", 1),
    ("2 Deliver 7 1 0\n", 1),
    // what is or is not
    ("1 Expire 7 2\n", 1),
    ("1 Expire 7 true\n", 1),
    ("1 Expire 7 01\n", 1),
    ("1 Expire 7\n", 1),
    // prefixes
    ("1 Learned \"\" 2\n", 1),
    ("1 Learned \"a\" 2\n", 1),
    ("1 Learned \"/a/\" 2\n", 1),
    ("1 Learned \"//a\" 2\n", 1),
    ("1 Learned \"/./a\" 2\n", 1),
    ("1 Learned \"/a/..\" 2\n", 1),
    ("1 Learned \"/a b\" 2\n", 1),
    ("1 Learned \"/\\61\" 2\n", 1),
    ("1 Learned /a 2\n", 1),
    // kinds
    ("1 Send 7 2 - op\n", 1),
    ("1 Send 7 2 - fetch 2:3\n", 1),
    ("1 Send 7 2 - write_back 2:3 1\n", 1),
    ("1 Send 7 2 - broadcast /\n", 1),
    ("1 Send 7 2 - Other\n", 1),
    ("1 Send 7 2 - others\n", 1),
    ("1 Send 7 2 - other 2:3\n", 1),
    // words
    ("1 Mode 2:3 5 read\n", 1),
    ("2 Grant 2:3 1 4 On\n", 1),
    ("2 Opened 2:3 1:9 1 on\n", 1),
    ("2 Closed 2:3 1:9 1 readwrite\n", 1),
    ("2 Callback 2:3 1 5 version\n", 1),
    ("1 Dropped 2:3 1 recall\n", 1),
    ("1 Fault 1 2 once\n", 1),
    ("1 Fault 1 2 dropped\n", 1),
    ("1 Fault 1 17 lost\n", 1),
    // entries, calls and replies
    ("1 Enter 1001 2 \n", 1),
    ("1 Enter 1001 2\n", 1),
    ("1 Enter 1001 2 whole tick\n", 1),
    ("1 Enter 1001 2 ask tick -> ok 1 0 \"\"\n", 1),
    ("1 Enter 1001 2 done tick -> -\n", 1),
    ("1 Enter 1001 2 death tick\n", 1),
    ("1001 2 death\n", 1),
    ("1 Issue 1001 2\n", 1),
    ("1 Issue 1001 2 nothing\n", 1),
    ("1 Issue 1001 2 seek 3\n", 1),
    ("1 Return 1001 2 -\n", 1),
    ("1 Return 1001 2 err 0\n", 1),
    ("1 Return 1001 2 err 21\n", 1),
    ("1 Return 1001 2 ok 9 0\n", 1),
];

// Records as a run leaves them of one process that prints a line and ends.
const HELLO: &str = "1 Burst 1001 9
1 Issue 1001 1 print \"hello\\0a\"
1 Enter 1001 1 whole print \"hello\\0a\" -> ok 0 0 \"\"
1 Return 1001 1 ok 0 0 \"\"
1 Burst 1001 3
1 Issue 1001 2 exit 0
1 Enter 1001 2 whole exit 0 -> ok 0 0 \"\"
";

// The kernels, the process, the file, the stream and the call of these lines.
#[derive(Clone, Copy)]
struct Names {
    client: Kernel,
    server: Kernel,
    pid: Pid,
    file: FileId,
    stream: StreamNo,
    about: About,
}

fn used_names() -> Result<Names, NoMemory> {
    let client = Kernel::new(1).ok_or(NoMemory)?;
    let server = Kernel::new(2).ok_or(NoMemory)?;
    let pid = Pid::new(client, 1).ok_or(NoMemory)?;
    Ok(Names {
        client,
        server,
        pid,
        file: FileId { server, number: 3 },
        stream: StreamNo {
            kernel: client,
            number: 9,
        },
        about: About { pid, number: 2 },
    })
}

fn entry(alloc: Global, pid: Pid) -> Entry {
    Entry {
        pid,
        number: 2,
        part: Part::Whole,
        call: Some(Call::Seek { fd: 3, offset: 9 }),
        reply: Some(value(alloc)),
    }
}

fn ask(pid: Pid) -> Entry {
    Entry {
        pid,
        number: 2,
        part: Part::Ask,
        call: Some(Call::Seek { fd: 3, offset: 9 }),
        reply: None,
    }
}

fn without_call(pid: Pid, part: Part) -> Entry {
    Entry {
        pid,
        number: 2,
        part,
        call: None,
        reply: None,
    }
}

fn value(alloc: Global) -> Reply {
    Reply::Value {
        first: 9,
        second: 0,
        bytes: Bytes::new(alloc),
    }
}

fn path(alloc: Global, text: &[u8]) -> Result<Path, NoMemory> {
    Path::clean(alloc, &Path::root(alloc), text).or(Err(NoMemory))
}

fn learned(alloc: Global, names: &Names) -> Result<Event, NoMemory> {
    let prefix = path(alloc, b"/a/\"b")?;
    Ok(Event::Learned {
        prefix,
        server: names.server,
    })
}

fn broadcast(alloc: Global, names: &Names) -> Result<Event, NoMemory> {
    let prefix = path(alloc, b"/")?;
    Ok(sent(names, SendKind::Broadcast { prefix }))
}

// The event of that line of EVENTS.
fn event(alloc: Global, names: &Names, row: usize) -> Result<Event, NoMemory> {
    let pid = names.pid;
    match row {
        0 => Ok(Event::Burst { pid, count: 10000 }),
        1 => Ok(Event::Issue {
            pid,
            number: 2,
            call: Call::Seek {
                fd: 3,
                offset: u64::MAX,
            },
        }),
        2 => Ok(Event::Enter {
            entry: entry(alloc, pid),
        }),
        3 => Ok(Event::Return {
            pid,
            number: 2,
            reply: value(alloc),
        }),
        18 => learned(alloc, names),
        19 => Ok(Event::Freeze { pid }),
        20 => Ok(Event::Thaw { pid }),
        _ => Ok(packet_event(names, row)),
    }
}

// That of a packet, a grant or a callback.
fn packet_event(names: &Names, row: usize) -> Event {
    match row {
        4 => Event::Send {
            tx: TxNo(7),
            to: names.server,
            about: Some(names.about),
            kind: SendKind::Op { file: names.file },
        },
        5 => fault(names, Fate::Lost),
        6 => Event::Deliver {
            tx: TxNo(7),
            from: names.client,
            reply: false,
            about: Some(names.about),
        },
        7 => Event::Expire {
            tx: TxNo(7),
            last: true,
        },
        8 => Event::Grant {
            file: names.file,
            to: names.client,
            stamp: 4,
            mode: CacheMode::On,
        },
        9 => callback(names, CallKind::Recall),
        10 => cached(names, CacheMode::Off),
        _ => file_event(names, row),
    }
}

// That of a block or a stream.
fn file_event(names: &Names, row: usize) -> Event {
    let file = names.file;
    let block = BlockNo(65535);
    match row {
        11 => Event::Filled { file, block },
        12 => dropped(names, DropCause::Full),
        13 => Event::Dirtied { file, block },
        14 => Event::WroteBack { file, block },
        15 => Event::Opened {
            file,
            stream: names.stream,
            kernel: names.client,
            mode: Mode::Read,
        },
        16 => closed(names, Mode::Write),
        _ => Event::Shared {
            file,
            stream: names.stream,
        },
    }
}

fn fault(names: &Names, fate: Fate) -> Event {
    Event::Fault {
        a: names.client,
        b: names.server,
        fate,
    }
}

fn callback(names: &Names, kind: CallKind) -> Event {
    Event::Callback {
        file: names.file,
        to: names.client,
        stamp: 5,
        kind,
    }
}

fn cached(names: &Names, mode: CacheMode) -> Event {
    Event::Mode {
        file: names.file,
        stamp: 5,
        mode,
    }
}

fn dropped(names: &Names, cause: DropCause) -> Event {
    Event::Dropped {
        file: names.file,
        block: BlockNo(65535),
        cause,
    }
}

fn closed(names: &Names, mode: Mode) -> Event {
    Event::Closed {
        file: names.file,
        stream: names.stream,
        kernel: names.client,
        mode,
    }
}

// The event of that line of CHOICES.
fn choice(alloc: Global, names: &Names, row: usize) -> Result<Event, NoMemory> {
    let pid = names.pid;
    match row {
        0 => Ok(Event::Enter {
            entry: without_call(pid, Part::Death),
        }),
        1 => Ok(Event::Enter { entry: ask(pid) }),
        2 => Ok(Event::Return {
            pid,
            number: 2,
            reply: Reply::Error(Errno::Invalid),
        }),
        6 => broadcast(alloc, names),
        17 => Ok(Event::Enter {
            entry: without_call(pid, Part::Whole),
        }),
        _ => Ok(other_choice(names, row)),
    }
}

// That of a packet, a cache or a stream.
fn other_choice(names: &Names, row: usize) -> Event {
    match row {
        3 => sent(
            names,
            SendKind::Fetch {
                file: names.file,
                block: BlockNo(65535),
            },
        ),
        4 => sent(
            names,
            SendKind::WriteBack {
                file: names.file,
                block: BlockNo(65535),
            },
        ),
        5 => sent(names, SendKind::Other),
        7 => fault(names, Fate::Twice),
        8 => fault(names, Fate::Late),
        9 => fault(names, Fate::Once),
        10 => Event::Deliver {
            tx: TxNo(7),
            from: names.server,
            reply: true,
            about: None,
        },
        _ => last_choice(names, row),
    }
}

fn last_choice(names: &Names, row: usize) -> Event {
    match row {
        11 => Event::Expire {
            tx: TxNo(7),
            last: false,
        },
        12 => callback(names, CallKind::Stop),
        13 => cached(names, CacheMode::None),
        14 => dropped(names, DropCause::Stop),
        15 => dropped(names, DropCause::Version),
        _ => closed(names, Mode::Both),
    }
}

fn sent(names: &Names, kind: SendKind) -> Event {
    Event::Send {
        tx: TxNo(7),
        to: names.server,
        about: None,
        kind,
    }
}

// The record of the event of that line of EVENTS.
fn event_record(alloc: Global, names: &Names, row: usize, kernel: u8) -> Result<Rec, NoMemory> {
    let kernel = Kernel::new(kernel).ok_or(NoMemory)?;
    let event = event(alloc, names, row)?;
    Ok(Rec { kernel, event })
}

// The record of the event of that line of CHOICES.
fn choice_record(alloc: Global, names: &Names, row: usize, kernel: u8) -> Result<Rec, NoMemory> {
    let kernel = Kernel::new(kernel).ok_or(NoMemory)?;
    let event = choice(alloc, names, row)?;
    Ok(Rec { kernel, event })
}

// The trace of that one record, printed.
fn printed(alloc: Global, record: Rec) -> Result<Vec<u8>, NoMemory> {
    let records = Vec::from_array(alloc, [record])?;
    print_trace(alloc, records.as_slice())
}

fn is_event(alloc: Global, names: &Names, row: usize, line: &(u8, &str)) -> Result<bool, NoMemory> {
    let text = printed(alloc, event_record(alloc, names, row, line.0)?)?;
    Ok(text.as_slice() == line.1.as_bytes())
}

fn is_choice(
    alloc: Global,
    names: &Names,
    row: usize,
    line: &(u8, &str),
) -> Result<bool, NoMemory> {
    let text = printed(alloc, choice_record(alloc, names, row, line.0)?)?;
    Ok(text.as_slice() == line.1.as_bytes())
}

// The first line that is printed otherwise.
fn first_other(alloc: Global, names: &Names) -> Result<Option<usize>, NoMemory> {
    for (row, line) in EVENTS.iter().enumerate() {
        if !is_event(alloc, names, row, line)? {
            return Ok(Some(row));
        }
    }
    Ok(None)
}

fn first_other_choice(alloc: Global, names: &Names) -> Result<Option<usize>, NoMemory> {
    for (row, line) in CHOICES.iter().enumerate() {
        if !is_choice(alloc, names, row, line)? {
            return Ok(Some(row));
        }
    }
    Ok(None)
}

// How many bursts a program that loops for ever does until the budget is spent.
const BURSTS: usize = 100;

fn burst(names: &Names) -> Rec {
    Rec {
        kernel: names.client,
        event: Event::Burst {
            pid: names.pid,
            count: 10000,
        },
    }
}

fn loop_trace(alloc: Global, names: &Names) -> Result<Vec<Rec>, NoMemory> {
    let mut records = Vec::new(alloc);
    for _ in 0..BURSTS {
        records.push(burst(names))?;
    }
    Ok(records)
}

// The trace of that program, printed.
fn loop_text(alloc: Global, names: &Names) -> Result<Vec<u8>, NoMemory> {
    let records = loop_trace(alloc, names)?;
    print_trace(alloc, records.as_slice())
}

// The lines that it is to have.
fn loop_lines(alloc: Global) -> Result<Vec<u8>, NoMemory> {
    let mut lines = Vec::new(alloc);
    for _ in 0..BURSTS {
        lines.extend_from_slice(b"1 Burst 1001 10000\n")?;
    }
    Ok(lines)
}

fn loop_is_printed(alloc: Global, names: &Names) -> Result<bool, NoMemory> {
    let lines = loop_lines(alloc)?;
    let text = loop_text(alloc, names)?;
    Ok(text.as_slice() == lines.as_slice())
}

// ---- reading

// The first of the lines that isn't read as one record which is printed as the line again, or is though it is one of the unread.
fn first_unread(
    alloc: Global,
    lines: &[(u8, &str)],
    unread: &[usize],
) -> Result<Option<usize>, NoMemory> {
    for (row, line) in lines.iter().enumerate() {
        let read = read_again(alloc, line.1.as_bytes())?;
        if read.is_some() == unread.contains(&row) || read.unwrap_or(1) != 1 {
            return Ok(Some(row));
        }
    }
    Ok(None)
}

// The first line that is no record's; 0 where there is none.
fn bad_line(alloc: Global, text: &str) -> Result<usize, NoMemory> {
    match read_trace(alloc, text.as_bytes()) {
        Ok(_) => Ok(0),
        Err(TraceError::Line(number)) => Ok(number),
        Err(TraceError::NoMemory) => Err(NoMemory),
    }
}

// The first text whose bad line is another.
fn first_misread(alloc: Global, texts: &[(&str, usize)]) -> Result<Option<usize>, NoMemory> {
    for (row, text) in texts.iter().enumerate() {
        if bad_line(alloc, text.0)? != text.1 {
            return Ok(Some(row));
        }
    }
    Ok(None)
}

// How many records are read of the text, where they print as the text again.
fn read_again(alloc: Global, text: &[u8]) -> Result<Option<usize>, NoMemory> {
    match read_trace(alloc, text) {
        Ok(trace) => {
            let printed = print_trace(alloc, trace.records())?;
            let same = printed.as_slice() == text;
            Ok(if same {
                Some(trace.records().len())
            } else {
                None
            })
        }
        Err(TraceError::Line(_)) => Ok(None),
        Err(TraceError::NoMemory) => Err(NoMemory),
    }
}

// How many records are read of the trace of a program that loops for ever.
fn loop_read(alloc: Global) -> Result<Option<usize>, NoMemory> {
    let lines = loop_lines(alloc)?;
    read_again(alloc, lines.as_slice())
}

#[test]
fn each_event_has_its_line(rt: HostRuntime) -> Result<(), Fail> {
    assert_eq!(rt; first_other(rt.alloc(), &used_names()?)?, None);
    Ok(())
}

#[test]
fn each_choice_has_its_word(rt: HostRuntime) -> Result<(), Fail> {
    assert_eq!(rt; first_other_choice(rt.alloc(), &used_names()?)?, None);
    Ok(())
}

#[test]
fn lines_stand_one_behind_another(rt: HostRuntime) -> Result<(), Fail> {
    assert!(rt; loop_is_printed(rt.alloc(), &used_names()?)?);
    Ok(())
}

#[test]
fn each_event_is_read(rt: HostRuntime) -> Result<(), NoMemory> {
    assert_eq!(rt; first_unread(rt.alloc(), EVENTS.as_slice(), &[])?, None);
    Ok(())
}

#[test]
fn each_choice_is_read(rt: HostRuntime) -> Result<(), NoMemory> {
    assert_eq!(rt;
        first_unread(rt.alloc(), CHOICES.as_slice(), UNREAD.as_slice())?,
        None
    );
    Ok(())
}

#[test]
fn bad_lines_are_told(rt: HostRuntime) -> Result<(), NoMemory> {
    assert_eq!(rt; first_misread(rt.alloc(), &TEXTS)?, None);
    Ok(())
}

#[test]
fn runs_are_read(rt: HostRuntime) -> Result<(), NoMemory> {
    assert_eq!(rt; read_again(rt.alloc(), HELLO.as_bytes())?, Some(7));
    assert_eq!(rt; loop_read(rt.alloc())?, Some(BURSTS));
    Ok(())
}
