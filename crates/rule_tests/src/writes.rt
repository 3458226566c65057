ghost use Rattle.unix_calls.specs.Lawful.{Lawful};

use cluster_file::read_description;
use sprite_ids::NoMemory;
use std::alloc::Global;
use std::test::Fail;
use trace_text::read_trace;
use trace_views::{Viewed, view};
use unix_calls::{Description, Rec};
use write_rules::{blocks_are_dropped_for_a_cause, blocks_are_written_back_for_a_cause};

// A client with a cache of eight blocks and a process that opens a file with truncation, and the server of all names.
const CLUSTER: &str =
    "version = 1\ncache = 8\n[[kernel]]\nname = \"c1\"\n[[kernel]]\nname = \"s1\"\nserves = [\"/\"]\n[[program]]\nname = \"p\"\ntext = '''\npages 1\ntext 0 \"/f\"\nset r6 16\nsys open 0 2 10\nsys sync 0\nsys exit 0\n'''\n[[start]]\nhost = \"c1\"\nprogram = \"p\"\n[[file]]\npath = \"/f\"\ntext = \"abc\"\n";

// The file's open.
const OPEN: &str = "1 Issue 1001 1 open \"/f\" 10
2 Grant 2:1 1 1 on
2 Opened 2:1 1:1 1 write
2 Enter 1001 1 whole open \"/f\" 10 -> ok 0 0 \"\"
1 Return 1001 1 ok 0 0 \"\"
";

// Seven blocks come in, and an eighth, with which the cache is full; four of them are made dirty.
const SEVEN: &str = "1 Filled 2:1 0
1 Filled 2:1 1
1 Filled 2:1 2
1 Filled 2:1 3
1 Filled 2:1 4
1 Filled 2:1 5
1 Filled 2:2 0
";

const EIGHTH: &str = "1 Filled 2:2 1\n";

const THREE_DIRTY: &str = "1 Dirtied 2:1 0\n1 Dirtied 2:1 1\n1 Dirtied 2:2 0\n";

const FOURTH_DIRTY: &str = "1 Dirtied 2:2 1\n";

// One step of the kernel.
const STEP: &str = "1 Burst 1001 1\n";

const SEND: &str = "1 Send 7 2 - writeback 2:1 0\n";

// Behind the open: some records, so many steps, some more, and whether the block may be written back then.
const AGES: usize = 17;

static AGED: [(&str, usize, &str, bool); AGES] = [
    ("", 0, "", false),
    ("1 Issue 1001 2 sync 0\n", 0, "", true),
    (
        "1 Issue 1001 2 sync 0\n",
        0,
        "1 Return 1001 1 ok 0 0 \"\"\n",
        true,
    ),
    (
        "1 Issue 1001 2 sync 0\n",
        0,
        "1 Return 1001 2 ok 0 0 \"\"\n",
        false,
    ),
    (
        "1 Issue 1001 2 sync 0\n",
        0,
        "1 Enter 1001 2 whole sync 0 -> ok 0 0 \"\"\n",
        true,
    ),
    ("3 Issue 1001 2 sync 0\n", 0, "", false),
    ("1 Issue 1001 2 sync 1\n", 0, "", false),
    ("1 Issue 1001 2 size 0\n", 0, "", false),
    ("1 Dirtied 2:1 0\n", 30, "", true),
    ("1 Dirtied 2:1 0\n", 29, "", false),
    ("1 Dirtied 2:1 0\n", 29, "1 Deliver 7 2 0 -\n", true),
    ("1 Dirtied 2:1 0\n", 29, "1 Expire 7 1\n", true),
    ("1 Dirtied 2:1 0\n", 29, "3 Expire 7 1\n", false),
    ("1 Dirtied 2:1 0\n", 29, "1 Mode 2:1 1 on\n", false),
    ("1 Dirtied 2:1 0\n", 30, "1 Dirtied 2:1 0\n", false),
    ("1 Dirtied 2:1 1\n", 30, "", false),
    ("3 Dirtied 2:1 0\n", 30, "", false),
];

// Whether the eighth block is there, whether a fourth one is dirty, what comes then, and whether the block may be written back.
const PRESSES: usize = 12;

static PRESSED: [(bool, bool, &str, bool); PRESSES] = [
    (true, true, "", true),
    (false, true, "", false),
    (true, false, "", false),
    (true, true, "1 Dirtied 2:2 1\n", true),
    (true, true, "1 Dirtied 2:1 9\n", true),
    (true, true, "1 WroteBack 2:1 1\n", false),
    (true, true, "1 WroteBack 2:1 5\n", true),
    (true, true, "1 Dropped 2:1 5 full\n", false),
    (true, true, "1 Filled 2:1 0\n", false),
    (
        true,
        true,
        "2 Callback 2:2 1 4 recall\n1 Mode 2:2 4 on\n",
        false,
    ),
    (
        true,
        true,
        "2 Callback 2:2 1 4 stop\n1 Mode 2:2 4 on\n",
        true,
    ),
    (
        true,
        true,
        "2 Callback 2:2 1 4 recall\n1 Mode 2:2 5 on\n",
        true,
    ),
];

// Traces, and whether blocks are dropped in them for a cause.
const DROPS: usize = 17;

static DROPPED: [(&str, bool); DROPS] = [
    ("1 Filled 2:1 0\n1 Dropped 2:1 0 full\n", false),
    (
        "1 Filled 2:1 0\n1 Mode 2:1 1 off\n1 Dropped 2:1 0 stop\n",
        true,
    ),
    (
        "1 Filled 2:1 0\n1 Mode 2:1 1 off\n1 Mode 2:1 2 on\n1 Dropped 2:1 0 stop\n",
        false,
    ),
    (
        "1 Filled 2:1 0\n3 Mode 2:1 1 off\n1 Dropped 2:1 0 stop\n",
        false,
    ),
    ("1 Filled 2:1 0\n1 Dropped 2:1 0 version\n", false),
    (
        "1 Filled 2:1 0\n2 Opened 2:1 3:1 3 write\n1 Dropped 2:1 0 version\n",
        true,
    ),
    (
        "1 Filled 2:1 0\n2 Opened 2:1 3:1 3 read\n1 Dropped 2:1 0 version\n",
        false,
    ),
    (
        "1 Filled 2:1 0\n2 Opened 2:1 1:1 1 write\n1 Dropped 2:1 0 version\n",
        false,
    ),
    (
        "1 Filled 2:1 0\n2 Opened 2:2 3:1 3 write\n1 Dropped 2:1 0 version\n",
        false,
    ),
    (
        "2 Opened 2:1 3:1 3 write\n1 Filled 2:1 0\n1 Dropped 2:1 0 version\n",
        false,
    ),
    ("2 Opened 2:1 3:1 3 write\n1 Dropped 2:1 0 version\n", true),
    (
        "1 Filled 2:1 0\n2 Opened 2:1 3:1 3 both\n2 Opened 2:1 1:1 1 both\n1 Dropped 2:1 0 version\n",
        true,
    ),
    (
        "2 Opened 2:1 3:1 3 both\n1 Filled 2:1 0\n2 Opened 2:1 1:1 1 both\n1 Dropped 2:1 0 version\n",
        false,
    ),
    (
        "2 Grant 2:1 1 1 on\n1 Mode 2:1 1 on\n1 Filled 2:1 0\n2 Grant 2:1 1 2 on\n2 Opened 2:1 1:1 1 write\n1 Dropped 2:1 0 version\n",
        true,
    ),
    (
        "2 Grant 2:1 1 1 on\n1 Mode 2:1 1 on\n1 Filled 2:1 0\n2 Grant 2:1 1 2 on\n2 Opened 2:1 1:1 1 write\n1 Dropped 2:1 0 version\n1 Mode 2:1 2 on\n",
        false,
    ),
    (
        "2 Grant 2:1 1 1 on\n1 Filled 2:1 0\n2 Grant 2:1 1 2 on\n2 Opened 2:1 1:1 1 write\n1 Dropped 2:1 0 version\n1 Mode 2:1 1 on\n",
        false,
    ),
    (
        "2 Grant 2:1 1 2 on\n2 Opened 2:1 1:1 1 write\n2 Grant 2:1 1 3 on\n1 Mode 2:1 3 on\n1 Filled 2:1 0\n1 Dropped 2:1 0 version\n",
        false,
    ),
];

// What stands between the Opened and the entry of the open, which truncates, and whether a block that came in before may be dropped
// behind it.
const TRUNCATIONS: usize = 2;

static TRUNCATED: [(&str, bool); TRUNCATIONS] = [("", true), ("1 Expire 5 1\n", false)];

const OPENED: &str = "1 Filled 2:1 0\n1 Issue 1001 1 open \"/f\" 10\n2 Opened 2:1 1:1 1 write\n";

const ENTERED: &str =
    "2 Enter 1001 1 whole open \"/f\" 10 -> ok 0 0 \"\"\n1 Dropped 2:1 0 version\n";

fn put(text: &mut Vec<u8>, part: &str) -> Result<(), NoMemory> {
    text.extend_from_slice(part.as_bytes())?;
    Ok(())
}

fn put_if(text: &mut Vec<u8>, there: bool, part: &str) -> Result<(), NoMemory> {
    if there {
        return put(text, part);
    }
    Ok(())
}

fn put_steps(text: &mut Vec<u8>, steps: usize) -> Result<(), NoMemory> {
    for _step in 0..steps {
        put(text, STEP)?;
    }
    Ok(())
}

fn aged(alloc: Global, before: &str, steps: usize, behind: &str) -> Result<Vec<u8>, NoMemory> {
    let mut text = Vec::new(alloc);
    put(&mut text, OPEN)?;
    put(&mut text, before)?;
    put_steps(&mut text, steps)?;
    put(&mut text, behind)?;
    put(&mut text, SEND)?;
    Ok(text)
}

fn pressed(alloc: Global, eighth: bool, fourth: bool, behind: &str) -> Result<Vec<u8>, NoMemory> {
    let mut text = Vec::new(alloc);
    put(&mut text, SEVEN)?;
    put_if(&mut text, eighth, EIGHTH)?;
    put(&mut text, THREE_DIRTY)?;
    put_if(&mut text, fourth, FOURTH_DIRTY)?;
    put(&mut text, behind)?;
    put(&mut text, SEND)?;
    Ok(text)
}

fn truncated(alloc: Global, between: &str) -> Result<Vec<u8>, NoMemory> {
    let mut text = Vec::new(alloc);
    put(&mut text, OPENED)?;
    put(&mut text, between)?;
    put(&mut text, ENTERED)?;
    Ok(text)
}

// Whether the blocks are written back for a cause; no answer for a trace whose journal isn't legal.
fn writes_back(alloc: Global, c: &Description, trace: &[Rec]) -> Result<bool, NoMemory>
    requires { Lawful c.now }
{
    match view(alloc, c, trace, 1_000_000)? {
        Viewed::Legal(_, views) => {
            blocks_are_written_back_for_a_cause(alloc, c, trace, views.marks.as_slice())
        }
        Viewed::NotLegal(_) => Err(NoMemory),
        Viewed::Steps(_) => Err(NoMemory),
    }
}

fn drops(alloc: Global, c: &Description, trace: &[Rec]) -> Result<bool, NoMemory>
    requires { Lawful c.now }
{
    match view(alloc, c, trace, 1_000_000)? {
        Viewed::Legal(_, views) => {
            blocks_are_dropped_for_a_cause(alloc, c, trace, views.marks.as_slice())
        }
        Viewed::NotLegal(_) => Err(NoMemory),
        Viewed::Steps(_) => Err(NoMemory),
    }
}

fn writes_so(alloc: Global, c: &Description, text: &[u8], may: bool) -> Result<bool, NoMemory>
    requires { Lawful c.now }
{
    match read_trace(alloc, text) {
        Ok(trace) => Ok(writes_back(alloc, c, trace.records())? == may),
        Err(_) => Err(NoMemory),
    }
}

fn drops_so(alloc: Global, c: &Description, text: &[u8], may: bool) -> Result<bool, NoMemory>
    requires { Lawful c.now }
{
    match read_trace(alloc, text) {
        Ok(trace) => Ok(drops(alloc, c, trace.records())? == may),
        Err(_) => Err(NoMemory),
    }
}

fn ages_so(
    alloc: Global,
    c: &Description,
    row: &(&str, usize, &str, bool),
) -> Result<bool, NoMemory>
    requires { Lawful c.now }
{
    let text = aged(alloc, row.0, row.1, row.2)?;
    writes_so(alloc, c, text.as_slice(), row.3)
}

fn presses_so(
    alloc: Global,
    c: &Description,
    row: &(bool, bool, &str, bool),
) -> Result<bool, NoMemory>
    requires { Lawful c.now }
{
    let text = pressed(alloc, row.0, row.1, row.2)?;
    writes_so(alloc, c, text.as_slice(), row.3)
}

fn truncates_so(alloc: Global, c: &Description, row: &(&str, bool)) -> Result<bool, NoMemory>
    requires { Lawful c.now }
{
    let text = truncated(alloc, row.0)?;
    drops_so(alloc, c, text.as_slice(), row.1)
}

// The first row of which another verdict is given.
fn first_aged(alloc: Global, c: &Description) -> Result<Option<usize>, NoMemory>
    requires { Lawful c.now }
{
    for (place, row) in AGED.iter().enumerate() {
        if !ages_so(alloc, c, row)? {
            return Ok(Some(place));
        }
    }
    Ok(None)
}

fn first_pressed(alloc: Global, c: &Description) -> Result<Option<usize>, NoMemory>
    requires { Lawful c.now }
{
    for (place, row) in PRESSED.iter().enumerate() {
        if !presses_so(alloc, c, row)? {
            return Ok(Some(place));
        }
    }
    Ok(None)
}

fn first_dropped(alloc: Global, c: &Description) -> Result<Option<usize>, NoMemory>
    requires { Lawful c.now }
{
    for (place, (text, may)) in DROPPED.iter().enumerate() {
        if !drops_so(alloc, c, text.as_bytes(), *may)? {
            return Ok(Some(place));
        }
    }
    Ok(None)
}

fn first_truncated(alloc: Global, c: &Description) -> Result<Option<usize>, NoMemory>
    requires { Lawful c.now }
{
    for (place, row) in TRUNCATED.iter().enumerate() {
        if !truncates_so(alloc, c, row)? {
            return Ok(Some(place));
        }
    }
    Ok(None)
}

// A full cache's block may be dropped.
fn drops_full(alloc: Global, c: &Description, eighth: bool) -> Result<bool, NoMemory>
    requires { Lawful c.now }
{
    let mut text = Vec::new(alloc);
    put(&mut text, SEVEN)?;
    put_if(&mut text, eighth, EIGHTH)?;
    put(&mut text, "1 Dropped 2:1 5 full\n")?;
    drops_so(alloc, c, text.as_slice(), eighth)
}

// The places of the first rows of the four tables of which another verdict is given.
fn others(alloc: Global, c: &Description) -> Result<[Option<usize>; 4], NoMemory>
    requires { Lawful c.now }
{
    let aged = first_aged(alloc, c)?;
    let pressed = first_pressed(alloc, c)?;
    let dropped = first_dropped(alloc, c)?;
    let truncated = first_truncated(alloc, c)?;
    Ok([aged, pressed, dropped, truncated])
}

fn others_here(alloc: Global, file: &[u8]) -> Result<[Option<usize>; 4], NoMemory> {
    match read_description(alloc, file) {
        Ok(c) => others(alloc, &c),
        Err(_) => Err(NoMemory),
    }
}

fn full_here(alloc: Global, file: &[u8], eighth: bool) -> Result<bool, NoMemory> {
    match read_description(alloc, file) {
        Ok(c) => drops_full(alloc, &c, eighth),
        Err(_) => Err(NoMemory),
    }
}

#[test]
fn caches_are_judged(rt: HostRuntime) -> Result<(), Fail> {
    assert_eq!(rt;
        others_here(rt.alloc(), CLUSTER.as_bytes())?,
        [None, None, None, None]
    );
    assert!(rt; full_here(rt.alloc(), CLUSTER.as_bytes(), true)?);
    assert!(rt; full_here(rt.alloc(), CLUSTER.as_bytes(), false)?);
    Ok(())
}
