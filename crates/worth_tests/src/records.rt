ghost use Rattle.unix_calls.specs.Lawful.{Lawful};

use cluster_file::read_description;
use open_worth::records_are_worth;
use record_worth::{
    blocks_come_and_go, callbacks_are_first, moves_begin_and_end, prefixes_are_learned_once,
    prefixes_are_served, stamps_rise, streams_are_opened,
};
use sprite_ids::NoMemory;
use std::alloc::Global;
use std::test::Fail;
use trace_text::read_trace;
use trace_views::{Viewed, view};
use unix_calls::{Description, Rec};

// Two clients and two servers; a process that opens a file twice.
const CLUSTER: &str =
    "version = 1\n[[kernel]]\nname = \"c1\"\n[[kernel]]\nname = \"s1\"\nserves = [\"/\"]\n[[kernel]]\nname = \"s2\"\nserves = [\"/a\"]\n[[kernel]]\nname = \"c2\"\n[[program]]\nname = \"p\"\ntext = '''\npages 1\ntext 0 \"/f\"\nsys open 0 2 1\nsys open 0 2 1\nsys exit 0\n'''\n[[start]]\nhost = \"c1\"\nprogram = \"p\"\n[[file]]\npath = \"/f\"\ntext = \"abc\"\n";

// The part that a trace breaks alone.
#[derive(Clone, Copy, Debug, PartialEq, Eq)]
enum Broken {
    Nothing,
    Blocks,
    Stamps,
    Callbacks,
    Streams,
    Served,
    Learned,
    Moves,
}

const ROWS: usize = 44;

static TRACES: [(&str, Broken); ROWS] = [
    ("", Broken::Nothing),
    // A block comes in and leaves, at each kernel by itself.
    (
        "1 Filled 2:1 0\n1 Dropped 2:1 0 full\n1 Filled 2:1 0\n",
        Broken::Nothing,
    ),
    (
        "1 Filled 2:1 0\n1 Filled 2:1 1\n1 Filled 2:2 0\n4 Filled 2:1 0\n",
        Broken::Nothing,
    ),
    ("1 Filled 2:1 0\n1 Filled 2:1 0\n", Broken::Blocks),
    (
        "1 Filled 2:1 0\n1 Dirtied 2:1 0\n1 Filled 2:1 0\n",
        Broken::Blocks,
    ),
    ("1 Dropped 2:1 0 full\n", Broken::Blocks),
    ("1 Filled 2:1 0\n4 Dropped 2:1 0 full\n", Broken::Blocks),
    ("1 Filled 2:1 0\n1 Dropped 2:1 1 full\n", Broken::Blocks),
    (
        "1 Filled 2:1 0\n1 Dropped 2:1 0 stop\n1 Dropped 2:1 0 stop\n",
        Broken::Blocks,
    ),
    // The stamps of a file rise.
    (
        "2 Grant 2:1 1 1 on\n2 Grant 2:2 1 1 on\n2 Grant 2:1 4 2 on\n",
        Broken::Nothing,
    ),
    ("2 Grant 2:1 1 1 on\n2 Grant 2:1 4 1 on\n", Broken::Stamps),
    ("2 Grant 2:1 1 3 on\n2 Grant 2:1 1 2 on\n", Broken::Stamps),
    (
        "2 Grant 2:1 1 3 on\n2 Grant 2:1 1 5 on\n2 Grant 2:1 1 4 on\n",
        Broken::Stamps,
    ),
    (
        "2 Grant 2:1 1 3 on\n2 Opened 2:1 1:1 1 read\n2 Callback 2:1 1 3 stop\n",
        Broken::Stamps,
    ),
    (
        "2 Opened 2:1 1:1 1 read\n2 Callback 2:1 1 3 stop\n2 Grant 2:1 4 3 on\n",
        Broken::Stamps,
    ),
    (
        "2 Opened 2:1 1:1 1 read\n2 Callback 2:1 1 3 stop\n2 Grant 2:1 4 4 on\n",
        Broken::Nothing,
    ),
    // A file is called back where it was opened, once to each kernel since then; blocks of it are fetched there.
    ("2 Callback 2:1 1 1 stop\n", Broken::Callbacks),
    (
        "2 Opened 2:1 1:1 1 read\n2 Callback 2:2 1 1 stop\n",
        Broken::Callbacks,
    ),
    (
        "2 Opened 2:1 1:1 1 read\n2 Callback 2:1 1 1 stop\n2 Callback 2:1 4 2 stop\n",
        Broken::Nothing,
    ),
    (
        "2 Opened 2:1 1:1 1 read\n2 Callback 2:1 1 1 stop\n2 Callback 2:1 1 2 recall\n",
        Broken::Callbacks,
    ),
    (
        "2 Opened 2:1 1:1 1 read\n2 Callback 2:1 1 1 stop\n2 Opened 2:1 1:2 1 read\n2 Callback 2:1 1 2 stop\n",
        Broken::Nothing,
    ),
    (
        "2 Opened 2:1 1:1 1 read\n2 Callback 2:1 1 1 stop\n2 Opened 2:2 1:2 1 read\n2 Callback 2:1 1 2 stop\n",
        Broken::Callbacks,
    ),
    ("1 Send 7 2 1001/1 fetch 2:1 0\n", Broken::Callbacks),
    (
        "2 Opened 2:1 1:1 1 read\n1 Send 7 2 1001/1 fetch 2:1 0\n",
        Broken::Nothing,
    ),
    (
        "2 Opened 2:1 1:1 1 read\n1 Send 7 2 1001/1 fetch 2:2 0\n",
        Broken::Callbacks,
    ),
    // A stream becomes shared once, after it was opened, and closes where it is open.
    ("2 Shared 2:1 1:1\n", Broken::Streams),
    (
        "2 Opened 2:1 1:1 1 read\n2 Shared 2:1 1:1\n",
        Broken::Nothing,
    ),
    (
        "2 Opened 2:2 1:1 1 read\n2 Shared 2:1 1:1\n",
        Broken::Streams,
    ),
    (
        "2 Opened 2:1 1:1 1 read\n2 Shared 2:1 1:1\n2 Shared 2:1 1:1\n",
        Broken::Streams,
    ),
    (
        "2 Opened 2:1 1:1 1 read\n2 Closed 2:1 1:1 1 read\n",
        Broken::Nothing,
    ),
    (
        "2 Opened 2:1 1:1 1 read\n2 Closed 2:1 1:1 1 both\n",
        Broken::Streams,
    ),
    (
        "2 Opened 2:1 1:1 1 read\n2 Closed 2:1 1:1 4 read\n",
        Broken::Streams,
    ),
    (
        "2 Opened 2:1 1:1 1 read\n2 Closed 2:1 1:1 1 read\n2 Closed 2:1 1:1 1 read\n",
        Broken::Streams,
    ),
    ("2 Closed 2:1 1:1 1 read\n", Broken::Streams),
    // Prefixes.
    (
        "1 Learned \"/\" 2\n1 Learned \"/a\" 3\n4 Learned \"/\" 2\n",
        Broken::Nothing,
    ),
    ("1 Learned \"/a\" 2\n", Broken::Served),
    ("1 Learned \"/b\" 2\n", Broken::Served),
    ("1 Learned \"/a/b\" 3\n", Broken::Served),
    ("1 Learned \"/\" 2\n1 Learned \"/\" 2\n", Broken::Learned),
    // Moves.
    (
        "1 Freeze 1001\n4 Thaw 1001\n4 Freeze 1001\n1 Thaw 1001\n",
        Broken::Nothing,
    ),
    ("1 Thaw 1001\n", Broken::Moves),
    ("1 Freeze 1001\n1 Freeze 1001\n", Broken::Moves),
    ("1 Freeze 1001\n4 Thaw 1001\n4 Thaw 1001\n", Broken::Moves),
    (
        "1 Freeze 1001\n1 Enter 1001 1 whole fork -> ok 1002 0 \"\"\n4 Thaw 1002\n",
        Broken::Nothing,
    ),
];

// Traces with a legal journal, and whether their records are worth their units: at most sixteen opens of moves for each freeze.
const ENTER: &str = "2 Enter 1001 1 whole open \"/f\" 1 -> ok 0 0 \"\"\n";

const AGAIN: &str = "2 Enter 1001 2 whole open \"/f\" 1 -> ok 1 0 \"\"\n";

const OPEN: &str = "2 Opened 2:1 1:1 1 read\n";

const EIGHT: &str =
    "2 Opened 2:1 1:1 1 read\n2 Opened 2:1 1:2 1 read\n2 Opened 2:1 1:3 1 read\n2 Opened 2:1 1:4 1 read\n2 Opened 2:1 1:5 1 read\n2 Opened 2:1 1:6 1 read\n2 Opened 2:1 1:7 1 read\n2 Opened 2:1 1:8 1 read\n";

const FREEZE: &str = "1 Freeze 1001\n";

const LEGAL_ROWS: usize = 14;

static LEGAL: [([&str; 5], bool); LEGAL_ROWS] = [
    (["", "", "", "", ""], true),
    ([OPEN, ENTER, OPEN, AGAIN, ""], true),
    // An open without its entry is a move's.
    ([OPEN, "", "", "", ""], false),
    ([OPEN, FREEZE, "", "", ""], true),
    ([EIGHT, EIGHT, FREEZE, "", ""], true),
    ([EIGHT, EIGHT, OPEN, FREEZE, ""], false),
    ([EIGHT, EIGHT, OPEN, ENTER, FREEZE], true),
    (
        [EIGHT, EIGHT, OPEN, FREEZE, "1 Thaw 1001\n1 Freeze 1001\n"],
        true,
    ),
    ([OPEN, "1 Filled 2:1 0\n", ENTER, "", ""], false),
    ([OPEN, OPEN, ENTER, "", ""], false),
    ([OPEN, OPEN, ENTER, FREEZE, ""], true),
    ([OPEN, ENTER, AGAIN, "1 Thaw 1001\n", ""], false),
    (
        [OPEN, ENTER, AGAIN, "1 Filled 2:1 0\n1 Filled 2:1 0\n", ""],
        false,
    ),
    ([ENTER, OPEN, AGAIN, "2 Closed 2:1 1:1 1 read\n", ""], true),
];

// Whether each part is kept but the one that is to be broken.
fn is_broken(
    alloc: Global,
    c: &Description,
    trace: &[Rec],
    broken: Broken,
) -> Result<bool, NoMemory>
    requires { Lawful c.now }
{
    let blocks = blocks_come_and_go(alloc, c, trace)?;
    let stamps = stamps_rise(alloc, c, trace)?;
    let callbacks = callbacks_are_first(alloc, c, trace)?;
    let streams = streams_are_opened(alloc, c, trace)?;
    let served = prefixes_are_served(c, trace);
    let learned = prefixes_are_learned_once(alloc, c, trace)?;
    let moves = moves_begin_and_end(alloc, c, trace)?;
    let files = blocks == (broken != Broken::Blocks)
        && stamps == (broken != Broken::Stamps)
        && callbacks == (broken != Broken::Callbacks)
        && streams == (broken != Broken::Streams);
    let others = served == (broken != Broken::Served)
        && learned == (broken != Broken::Learned)
        && moves == (broken != Broken::Moves);
    Ok(files && others)
}

fn is_broken_so(
    alloc: Global,
    c: &Description,
    text: &str,
    broken: Broken,
) -> Result<bool, NoMemory>
    requires { Lawful c.now }
{
    match read_trace(alloc, text.as_bytes()) {
        Ok(trace) => is_broken(alloc, c, trace.records(), broken),
        Err(_) => Err(NoMemory),
    }
}

// No answer for a trace whose journal isn't legal.
fn is_worth(alloc: Global, c: &Description, trace: &[Rec]) -> Result<bool, NoMemory>
    requires { Lawful c.now }
{
    match view(alloc, c, trace, 1_000_000)? {
        Viewed::Legal(_, views) => {
            records_are_worth(alloc, c, trace, views.openings.as_slice(), false)
        }
        Viewed::NotLegal(_) => Err(NoMemory),
        Viewed::Steps(_) => Err(NoMemory),
    }
}

fn is_legal_so(
    alloc: Global,
    c: &Description,
    parts: &[&str; 5],
    worth: bool,
) -> Result<bool, NoMemory>
    requires { Lawful c.now }
{
    let mut text = Vec::new(alloc);
    for part in parts.iter() {
        text.extend_from_slice(part.as_bytes())?;
    }
    match read_trace(alloc, text.as_slice()) {
        Ok(trace) => Ok(is_worth(alloc, c, trace.records())? == worth),
        Err(_) => Err(NoMemory),
    }
}

// The first trace of which another verdict is given.
fn first_other(alloc: Global, c: &Description) -> Result<Option<usize>, NoMemory>
    requires { Lawful c.now }
{
    for (row, (text, broken)) in TRACES.iter().enumerate() {
        if !is_broken_so(alloc, c, text, *broken)? {
            return Ok(Some(row));
        }
    }
    Ok(None)
}

fn first_misjudged(alloc: Global, c: &Description) -> Result<Option<usize>, NoMemory>
    requires { Lawful c.now }
{
    for (row, (parts, worth)) in LEGAL.iter().enumerate() {
        if !is_legal_so(alloc, c, parts, *worth)? {
            return Ok(Some(row));
        }
    }
    Ok(None)
}

fn other_in_cluster(alloc: Global, file: &[u8]) -> Result<Option<usize>, NoMemory> {
    match read_description(alloc, file) {
        Ok(c) => first_other(alloc, &c),
        Err(_) => Err(NoMemory),
    }
}

fn first_in_cluster(alloc: Global, file: &[u8]) -> Result<Option<usize>, NoMemory> {
    match read_description(alloc, file) {
        Ok(c) => first_misjudged(alloc, &c),
        Err(_) => Err(NoMemory),
    }
}

#[test]
fn parts_of_records_are_judged(rt: HostRuntime) -> Result<(), Fail> {
    assert_eq!(rt; other_in_cluster(rt.alloc(), CLUSTER.as_bytes())?, None);
    Ok(())
}

#[test]
fn records_are_judged(rt: HostRuntime) -> Result<(), Fail> {
    assert_eq!(rt; first_in_cluster(rt.alloc(), CLUSTER.as_bytes())?, None);
    Ok(())
}
