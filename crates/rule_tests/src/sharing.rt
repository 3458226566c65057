ghost use Rattle.unix_calls.specs.Lawful.{Lawful};

use cluster_file::read_description;
use sharing_rules::cached_calls_use_held_blocks;
use sprite_ids::NoMemory;
use std::alloc::Global;
use std::test::Fail;
use trace_text::read_trace;
use trace_views::{Viewed, view};
use unix_calls::{Description, Rec};

// A client with a process that opens a file, reads it and ends, and the server of all names.
const READER: &str =
    "version = 1\n[[kernel]]\nname = \"c1\"\n[[kernel]]\nname = \"s1\"\nserves = [\"/\"]\n[[program]]\nname = \"p\"\ntext = '''\npages 1\ntext 0 \"/f\"\nset r6 16\nsys open 0 2 1\nsys read 0 64 3\nsys exit 0\n'''\n[[start]]\nhost = \"c1\"\nprogram = \"p\"\n[[file]]\npath = \"/f\"\ntext = \"abc\"\n";

// The same with a process that writes over the border of two blocks, and then asks for the size.
const WRITER: &str =
    "version = 1\n[[kernel]]\nname = \"c1\"\n[[kernel]]\nname = \"s1\"\nserves = [\"/\"]\n[[program]]\nname = \"p\"\ntext = '''\npages 1\ntext 0 \"/fxy\"\nsys open 0 2 3\nsys seek 0 4094\nsys write 0 0 4\nsys size 0\nsys exit 0\n'''\n[[start]]\nhost = \"c1\"\nprogram = \"p\"\n[[file]]\npath = \"/f\"\ntext = \"abc\"\n";

const OPEN: &str = "1 Issue 1001 1 open \"/f\" 1
2 Grant 2:1 1 1 on
2 Opened 2:1 1:1 1 read
2 Enter 1001 1 whole open \"/f\" 1 -> ok 0 0 \"\"
1 Return 1001 1 ok 0 0 \"\"
1 Issue 1001 2 read 0 3
";

const OPEN_BOTH: &str = "1 Issue 1001 1 open \"/f\" 3
2 Grant 2:1 1 1 on
2 Opened 2:1 1:1 1 both
2 Enter 1001 1 whole open \"/f\" 3 -> ok 0 0 \"\"
1 Return 1001 1 ok 0 0 \"\"
1 Enter 1001 2 whole seek 0 4094 -> ok 4094 0 \"\"
";

// The entry of a call, at its process's kernel but for the one at the server.
#[derive(Clone, Copy, Debug, PartialEq, Eq)]
enum Uses {
    Read,
    ReadAtServer,
    Write,
    Size,
}

fn entry_of(uses: Uses) -> &'static str {
    match uses {
        Uses::Read => "1 Enter 1001 2 whole read 0 3 -> ok 3 0 \"abc\"\n",
        Uses::ReadAtServer => "2 Enter 1001 2 whole read 0 3 -> ok 3 0 \"abc\"\n",
        Uses::Write => "1 Enter 1001 3 whole write 0 \"/fxy\" -> ok 4 0 \"\"\n",
        Uses::Size => "1 Enter 1001 4 whole size 0 -> ok 4098 0 \"\"\n",
    }
}

// What stands between the open and the read, the read, what stands behind it, and whether the rule of cached calls is kept.
const READS: usize = 20;

static READ_ROWS: [(&str, Uses, &str, bool); READS] = [
    ("1 Mode 2:1 1 on\n1 Filled 2:1 0\n", Uses::Read, "", true),
    ("", Uses::Read, "", false),
    ("1 Mode 2:1 1 on\n", Uses::Read, "", false),
    ("1 Filled 2:1 0\n", Uses::Read, "", false),
    ("1 Mode 2:1 1 on\n1 Filled 2:1 1\n", Uses::Read, "", false),
    (
        "1 Mode 2:1 1 on\n1 Filled 2:1 0\n1 Dropped 2:1 0 full\n",
        Uses::Read,
        "",
        false,
    ),
    (
        "1 Mode 2:1 1 on\n1 Filled 2:1 0\n2 Dropped 2:1 0 full\n",
        Uses::Read,
        "",
        true,
    ),
    ("2 Mode 2:1 1 on\n1 Filled 2:1 0\n", Uses::Read, "", false),
    (
        "1 Mode 2:1 1 on\n1 Mode 2:1 2 off\n1 Filled 2:1 0\n",
        Uses::Read,
        "",
        false,
    ),
    (
        "1 Mode 2:1 1 on\n1 Mode 2:2 2 off\n1 Filled 2:1 0\n1 Dirtied 2:1 0\n1 WroteBack 2:1 0\n",
        Uses::Read,
        "",
        true,
    ),
    (
        "1 Mode 2:1 1 on\n1 Filled 2:1 0\n",
        Uses::Read,
        "1 Send 5 2 1001/2 op 2:1\n",
        false,
    ),
    (
        "1 Mode 2:1 1 on\n1 Filled 2:1 0\n",
        Uses::Read,
        "1 Send 5 2 1001/2 other\n1 Return 1001 2 ok 3 0 \"abc\"\n",
        false,
    ),
    (
        "1 Mode 2:1 1 on\n1 Filled 2:1 0\n",
        Uses::Read,
        "1 Return 1001 2 ok 3 0 \"abc\"\n1 Send 5 2 1001/2 other\n",
        true,
    ),
    (
        "1 Mode 2:1 1 on\n1 Filled 2:1 0\n",
        Uses::Read,
        "1 Send 5 2 1001/3 other\n1 Send 5 2 - other\n",
        true,
    ),
    (
        "1 Mode 2:1 1 on\n1 Filled 2:1 0\n1 Send 5 2 1001/2 other\n",
        Uses::Read,
        "",
        true,
    ),
    ("", Uses::ReadAtServer, "1 Send 5 2 1001/2 op 2:1\n", true),
    ("1 Freeze 1001\n", Uses::Read, "", false),
    ("1 Freeze 1001\n2 Thaw 1001\n", Uses::Read, "", true),
    (
        "1 Freeze 1001\n2 Thaw 1001\n",
        Uses::ReadAtServer,
        "",
        false,
    ),
    (
        "1 Freeze 1001\n2 Thaw 1001\n2 Mode 2:1 1 on\n2 Filled 2:1 0\n",
        Uses::ReadAtServer,
        "",
        true,
    ),
];

// The same of a write over two blocks.
const WRITES: usize = 4;

static WRITE_ROWS: [(&str, Uses, &str, bool); WRITES] = [
    (
        "1 Mode 2:1 1 on\n1 Filled 2:1 0\n1 Filled 2:1 1\n",
        Uses::Write,
        "",
        true,
    ),
    ("1 Mode 2:1 1 on\n1 Filled 2:1 0\n", Uses::Write, "", false),
    ("1 Mode 2:1 1 on\n1 Filled 2:1 1\n", Uses::Write, "", false),
    (
        "1 Mode 2:1 1 on\n1 Filled 2:1 0\n1 Filled 2:1 1\n",
        Uses::Write,
        "1 Send 5 2 1001/3 other\n",
        false,
    ),
];

// The same of the size, behind a write at the server: no block is wanted.
const SIZES: usize = 3;

static SIZE_ROWS: [(&str, Uses, &str, bool); SIZES] = [
    (
        "2 Enter 1001 3 whole write 0 \"/fxy\" -> ok 4 0 \"\"\n1 Mode 2:1 1 on\n",
        Uses::Size,
        "",
        true,
    ),
    (
        "2 Enter 1001 3 whole write 0 \"/fxy\" -> ok 4 0 \"\"\n1 Mode 2:1 2 off\n",
        Uses::Size,
        "",
        false,
    ),
    (
        "2 Enter 1001 3 whole write 0 \"/fxy\" -> ok 4 0 \"\"\n1 Mode 2:1 1 on\n",
        Uses::Size,
        "1 Send 5 2 1001/4 other\n",
        false,
    ),
];

fn joined(alloc: Global, open: &str, row: &(&str, Uses, &str, bool)) -> Result<Vec<u8>, NoMemory> {
    let mut text = Vec::new(alloc);
    text.extend_from_slice(open.as_bytes())?;
    text.extend_from_slice(row.0.as_bytes())?;
    text.extend_from_slice(entry_of(row.1).as_bytes())?;
    text.extend_from_slice(row.2.as_bytes())?;
    Ok(text)
}

// Whether the rule is kept, by what is told of the trace's records; no answer for a trace whose journal isn't legal.
fn uses_held(alloc: Global, c: &Description, trace: &[Rec]) -> Result<bool, NoMemory>
    requires { Lawful c.now }
{
    match view(alloc, c, trace, 1_000_000)? {
        Viewed::Legal(_, views) => {
            let ties = views.ties.as_slice();
            cached_calls_use_held_blocks(alloc, c, trace, ties, views.facts.as_slice())
        }
        Viewed::NotLegal(_) => Err(NoMemory),
        Viewed::Steps(_) => Err(NoMemory),
    }
}

fn is_judged(
    alloc: Global,
    c: &Description,
    open: &str,
    row: &(&str, Uses, &str, bool),
) -> Result<bool, NoMemory>
    requires { Lawful c.now }
{
    let text = joined(alloc, open, row)?;
    match read_trace(alloc, text.as_slice()) {
        Ok(trace) => Ok(uses_held(alloc, c, trace.records())? == row.3),
        Err(_) => Err(NoMemory),
    }
}

// The first row of which another verdict is given.
fn first_other(
    alloc: Global,
    c: &Description,
    open: &str,
    rows: &[(&str, Uses, &str, bool)],
) -> Result<Option<usize>, NoMemory>
    requires { Lawful c.now }
{
    for (place, row) in rows.iter().enumerate() {
        if !is_judged(alloc, c, open, row)? {
            return Ok(Some(place));
        }
    }
    Ok(None)
}

fn first_in_cluster(
    alloc: Global,
    file: &[u8],
    open: &str,
    rows: &[(&str, Uses, &str, bool)],
) -> Result<Option<usize>, NoMemory> {
    match read_description(alloc, file) {
        Ok(c) => first_other(alloc, &c, open, rows),
        Err(_) => Err(NoMemory),
    }
}

#[test]
fn reads_in_the_cache_are_judged(rt: HostRuntime) -> Result<(), Fail> {
    assert_eq!(rt;
        first_in_cluster(rt.alloc(), READER.as_bytes(), OPEN, &READ_ROWS)?,
        None
    );
    Ok(())
}

#[test]
fn writes_and_sizes_in_the_cache_are_judged(rt: HostRuntime) -> Result<(), Fail> {
    assert_eq!(rt;
        first_in_cluster(rt.alloc(), WRITER.as_bytes(), OPEN_BOTH, &WRITE_ROWS)?,
        None
    );
    assert_eq!(rt;
        first_in_cluster(rt.alloc(), WRITER.as_bytes(), OPEN_BOTH, &SIZE_ROWS)?,
        None
    );
    Ok(())
}
