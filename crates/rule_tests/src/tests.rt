ghost use Rattle.std.specs.Prelude.{◌≤◌};
ghost use Rattle.unix_calls.specs.Lawful.{Lawful};

use cluster_file::read_description;
use sprite_ids::NoMemory;
use std::alloc::Global;
use std::test::Fail;
use trace_rules::{
    fetches_are_of_absent_blocks, operations_go_out_uncached, prefixes_are_broadcast_until_learned,
};
use trace_text::read_trace;
use trace_views::{Viewed, view};
use unix_calls::{Description, Rec};

// A client with a process that opens a file, reads it and ends, and the server of all names.
const CLUSTER: &str =
    "version = 1\n[[kernel]]\nname = \"c1\"\n[[kernel]]\nname = \"s1\"\nserves = [\"/\"]\n[[program]]\nname = \"p\"\ntext = '''\npages 1\ntext 0 \"/f\"\nset r6 16\nsys open 0 2 1\nsys read 0 64 3\nsys exit 0\n'''\n[[start]]\nhost = \"c1\"\nprogram = \"p\"\n[[file]]\npath = \"/f\"\ntext = \"abc\"\n";

// The file's open at its server, and the issue of the read.
const OPEN: &str = "1 Issue 1001 1 open \"/f\" 1
2 Grant 2:1 1 1 on
2 Opened 2:1 1:1 1 read
2 Enter 1001 1 whole open \"/f\" 1 -> ok 0 0 \"\"
1 Return 1001 1 ok 0 0 \"\"
1 Issue 1001 2 read 0 3
";

// The operation of the read goes out, and the read is done at the server.
const READ: &str = "1 Send 2 2 1001/2 op 2:1
2 Enter 1001 2 whole read 0 3 -> ok 3 0 \"abc\"
";

// Of two kernels, which prefix and block each learns, holds, asks for and fetches; and whether that keeps the rule.
const ROWS: usize = 14;

static TRACES: [(&str, bool); ROWS] = [
    ("", true),
    (
        "1 Send 7 2 1001/2 broadcast \"/a\"\n1 Learned \"/a\" 2\n",
        true,
    ),
    (
        "1 Learned \"/a\" 2\n1 Send 7 2 1001/2 broadcast \"/a\"\n",
        false,
    ),
    (
        "1 Learned \"/a\" 2\n1 Send 7 2 1001/2 broadcast \"/a/b\"\n",
        true,
    ),
    (
        "1 Learned \"/a\" 2\n3 Send 7 2 3001/2 broadcast \"/a\"\n",
        true,
    ),
    (
        "1 Learned \"/a\" 2\n1 Learned \"/a\" 3\n1 Send 7 2 1001/2 broadcast \"/a\"\n",
        false,
    ),
    ("1 Learned \"/\" 2\n1 Send 7 2 1001/2 op 2:1\n", true),
    ("1 Send 7 2 1001/2 fetch 2:1 0\n1 Filled 2:1 0\n", true),
    ("1 Filled 2:1 0\n1 Send 7 2 1001/2 fetch 2:1 0\n", false),
    (
        "1 Filled 2:1 0\n1 Dropped 2:1 0 full\n1 Send 7 2 1001/2 fetch 2:1 0\n",
        true,
    ),
    (
        "1 Filled 2:1 0\n1 Send 7 2 1001/2 fetch 2:1 1\n1 Send 8 2 1001/2 fetch 2:2 0\n",
        true,
    ),
    (
        "1 Filled 2:1 0\n3 Send 7 2 3001/2 fetch 2:1 0\n3 Dropped 2:1 0 full\n",
        true,
    ),
    (
        "1 Filled 2:1 0\n3 Dropped 2:1 0 full\n1 Send 7 2 1001/2 fetch 2:1 0\n",
        false,
    ),
    (
        "1 Filled 2:1 0\n1 Dirtied 2:1 0\n1 WroteBack 2:1 0\n1 Send 7 2 1001/2 fetch 2:1 0\n",
        false,
    ),
];

// What stands between the open and the read, and whether the read's operation may go out then.
const BETWEEN: usize = 8;

static OPERATIONS: [(&str, bool); BETWEEN] = [
    ("", false),
    ("1 Mode 2:1 1 on\n", false),
    ("1 Mode 2:1 1 off\n", true),
    ("1 Mode 2:1 1 off\n1 Mode 2:1 2 on\n", false),
    ("2 Mode 2:1 1 off\n1 Mode 2:2 1 off\n", false),
    ("2 Shared 2:1 1:1\n", true),
    ("2 Shared 2:1 1:2\n", false),
    ("1 Mode 2:1 1 on\n2 Shared 2:1 1:1\n", true),
];

fn joined(alloc: Global, between: &str) -> Result<Vec<u8>, NoMemory> {
    let mut text = Vec::new(alloc);
    text.extend_from_slice(OPEN.as_bytes())?;
    text.extend_from_slice(between.as_bytes())?;
    text.extend_from_slice(READ.as_bytes())?;
    Ok(text)
}

fn keeps_both(alloc: Global, c: &Description, trace: &[Rec]) -> Result<bool, NoMemory> {
    let broadcasts = prefixes_are_broadcast_until_learned(alloc, c, trace)?;
    let fetches = fetches_are_of_absent_blocks(alloc, c, trace)?;
    Ok(broadcasts && fetches)
}

fn is_kept(alloc: Global, c: &Description, text: &str, kept: bool) -> Result<bool, NoMemory> {
    match read_trace(alloc, text.as_bytes()) {
        Ok(trace) => Ok(keeps_both(alloc, c, trace.records())? == kept),
        Err(_) => Err(NoMemory),
    }
}

// The first trace of which another verdict is given.
fn first_other(alloc: Global, c: &Description) -> Result<Option<usize>, NoMemory> {
    for (row, (text, kept)) in TRACES.iter().enumerate() {
        if !is_kept(alloc, c, text, *kept)? {
            return Ok(Some(row));
        }
    }
    Ok(None)
}

// Whether the operation may go out, by what the trace's calls go by; no answer for a trace whose journal isn't legal.
fn may_go_out(alloc: Global, c: &Description, trace: &[Rec]) -> Result<bool, NoMemory>
    requires { Lawful c.now }
{
    match view(alloc, c, trace, 1_000_000)? {
        Viewed::Legal(_, views) => {
            operations_go_out_uncached(alloc, c, trace, views.ties.as_slice())
        }
        Viewed::NotLegal(_) => Err(NoMemory),
        Viewed::Steps(_) => Err(NoMemory),
    }
}

fn is_judged(alloc: Global, c: &Description, between: &str, may: bool) -> Result<bool, NoMemory>
    requires { Lawful c.now }
{
    let text = joined(alloc, between)?;
    match read_trace(alloc, text.as_slice()) {
        Ok(trace) => Ok(may_go_out(alloc, c, trace.records())? == may),
        Err(_) => Err(NoMemory),
    }
}

fn first_misjudged(alloc: Global, c: &Description) -> Result<Option<usize>, NoMemory>
    requires { Lawful c.now }
{
    for (row, (between, may)) in OPERATIONS.iter().enumerate() {
        if !is_judged(alloc, c, between, *may)? {
            return Ok(Some(row));
        }
    }
    Ok(None)
}

// At which entry the trace's journal isn't legal, 0 for none; and at which it takes too many instructions.
fn place_of_end(
    alloc: Global,
    c: &Description,
    trace: &[Rec],
    most: u64,
) -> Result<(u32, u32), NoMemory>
    requires lawful { Lawful c.now }
    requires few { most ≤ 40000000000 }
{
    match view(alloc, c, trace, most)? {
        Viewed::Legal(..) => Ok((0, 0)),
        Viewed::NotLegal(place) => Ok((place, 0)),
        Viewed::Steps(place) => Ok((0, place)),
    }
}

fn end_of(alloc: Global, c: &Description, text: &str, most: u64) -> Result<(u32, u32), NoMemory>
    requires lawful { Lawful c.now }
    requires few { most ≤ 40000000000 }
{
    match read_trace(alloc, text.as_bytes()) {
        Ok(trace) => place_of_end(alloc, c, trace.records(), most),
        Err(_) => Err(NoMemory),
    }
}

fn first_rule(alloc: Global, file: &[u8]) -> Result<Option<usize>, NoMemory> {
    match read_description(alloc, file) {
        Ok(c) => first_other(alloc, &c),
        Err(_) => Err(NoMemory),
    }
}

fn first_operation(alloc: Global, file: &[u8]) -> Result<Option<usize>, NoMemory> {
    match read_description(alloc, file) {
        Ok(c) => first_misjudged(alloc, &c),
        Err(_) => Err(NoMemory),
    }
}

// The same in the cluster of that file.
fn end_in_cluster(alloc: Global, file: &[u8], text: &str, most: u64) -> Result<(u32, u32), NoMemory>
    requires { most ≤ 40000000000 }
{
    match read_description(alloc, file) {
        Ok(c) => end_of(alloc, &c, text, most),
        Err(_) => Err(NoMemory),
    }
}

fn end_here(alloc: Global, text: &str, most: u64) -> Result<(u32, u32), NoMemory>
    requires { most ≤ 40000000000 }
{
    end_in_cluster(alloc, CLUSTER.as_bytes(), text, most)
}

#[test]
fn rules_are_judged(rt: HostRuntime) -> Result<(), Fail> {
    assert_eq!(rt; first_rule(rt.alloc(), CLUSTER.as_bytes())?, None);
    Ok(())
}

#[test]
fn operations_are_judged(rt: HostRuntime) -> Result<(), Fail> {
    assert_eq!(rt; first_operation(rt.alloc(), CLUSTER.as_bytes())?, None);
    Ok(())
}

#[test]
fn journals_are_followed(rt: HostRuntime) -> Result<(), Fail> {
    assert_eq!(rt; end_here(rt.alloc(), OPEN, 1_000_000)?, (0, 0));
    assert_eq!(rt; end_here(rt.alloc(), READ, 1_000_000)?, (1, 0));
    assert_eq!(rt; end_here(rt.alloc(), OPEN, 1)?, (0, 0));
    assert_eq!(rt; end_here(rt.alloc(), OPEN, 0)?, (0, 1));
    Ok(())
}
