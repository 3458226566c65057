ghost use Rattle.std.specs.Prelude.{◌≤◌};
ghost use Rattle.unix_calls.specs.Lawful.{Lawful};

use cluster_file::read_description;
use place_rules::entries_stand_at_their_kernels;
use sprite_ids::NoMemory;
use std::alloc::Global;
use std::test::Fail;
use trace_text::read_trace;
use trace_views::{Viewed, view};
use unix_calls::{Description, Rec};

// Two clients, a process that opens a file, reads it, prints and ends, and the server of all names.
const CLUSTER: &str =
    "version = 1\n[[kernel]]\nname = \"c1\"\n[[kernel]]\nname = \"c2\"\n[[kernel]]\nname = \"s1\"\nserves = [\"/\"]\n[[program]]\nname = \"p\"\ntext = '''\ntext 0 \"/f\"\nset r6 16\nsys open 0 2 1\nsys read 0 64 3\nsys print 0 2\nsys exit 0\n'''\n[[start]]\nhost = \"c1\"\nprogram = \"p\"\n[[file]]\npath = \"/f\"\ntext = \"abc\"\n";

// The file's open is asked for, taken and made at its server, and answered.
const OPENED: &str =
    "1 Issue 1001 1 open \"/f\" 1\n3 Deliver 5 1 0 1001/1\n3 Opened 3:1 1:1 1 read\n3 Enter 1001 1 whole open \"/f\" 1 -> ok 0 0 \"\"\n1 Deliver 5 3 1 1001/1\n1 Return 1001 1 ok 0 0 \"\"\n";

// Records of an open, and whether each entry stands where it is to stand.
const OPEN_ROWS: usize = 12;

static OPENS: [(&str, bool); OPEN_ROWS] = [
    ("", true),
    (
        "1 Issue 1001 1 open \"/f\" 1\n3 Deliver 5 1 0 1001/1\n3 Opened 3:1 1:1 1 read\n3 Enter 1001 1 whole open \"/f\" 1 -> ok 0 0 \"\"\n1 Deliver 5 3 1 1001/1\n1 Return 1001 1 ok 0 0 \"\"\n",
        true,
    ),
    (
        "1 Issue 1001 1 open \"/f\" 1\n3 Opened 3:1 1:1 1 read\n3 Enter 1001 1 whole open \"/f\" 1 -> ok 0 0 \"\"\n",
        false,
    ),
    (
        "1 Issue 1001 1 open \"/f\" 1\n1 Deliver 5 1 0 1001/1\n3 Opened 3:1 1:1 1 read\n3 Enter 1001 1 whole open \"/f\" 1 -> ok 0 0 \"\"\n",
        false,
    ),
    (
        "1 Issue 1001 1 open \"/f\" 1\n3 Deliver 5 1 0 1001/2\n3 Opened 3:1 1:1 1 read\n3 Enter 1001 1 whole open \"/f\" 1 -> ok 0 0 \"\"\n",
        false,
    ),
    (
        "1 Issue 1001 1 open \"/f\" 1\n3 Deliver 5 1 1 1001/1\n3 Opened 3:1 1:1 1 read\n3 Enter 1001 1 whole open \"/f\" 1 -> ok 0 0 \"\"\n",
        false,
    ),
    (
        "1 Issue 1001 1 open \"/f\" 1\n1 Enter 1001 1 whole open \"/f\" 1 -> ok 0 0 \"\"\n",
        false,
    ),
    (
        "1 Issue 1001 1 open \"/f\" 1\n3 Deliver 5 1 0 1001/1\n3 Opened 3:1 1:1 1 read\n3 Enter 1001 1 whole open \"/f\" 1 -> ok 0 0 \"\"\n1 Return 1001 1 ok 0 0 \"\"\n",
        false,
    ),
    (
        "1 Issue 1001 1 open \"/f\" 1\n3 Deliver 5 1 0 1001/1\n3 Opened 3:1 1:1 1 read\n3 Enter 1001 1 whole open \"/f\" 1 -> ok 0 0 \"\"\n1 Deliver 5 3 0 1001/1\n1 Return 1001 1 ok 0 0 \"\"\n",
        false,
    ),
    (
        "1 Issue 1001 1 open \"/f\" 1\n3 Deliver 5 1 0 1001/1\n3 Opened 3:1 1:1 1 read\n3 Enter 1001 1 whole open \"/f\" 1 -> ok 0 0 \"\"\n1 Return 1001 2 ok 0 0 \"\"\n",
        true,
    ),
    (
        "1 Issue 1001 1 open \"/f\" 1\n1 Enter 1001 1 whole open \"/f\" 1 -> err 17\n",
        true,
    ),
    (
        "1 Issue 1001 1 open \"/f\" 1\n3 Deliver 5 1 0 1001/1\n3 Enter 1001 1 whole open \"/f\" 1 -> err 17\n",
        false,
    ),
];

// The same of records behind the open.
const READ_ROWS: usize = 11;

static READS: [(&str, bool); READ_ROWS] = [
    (
        "1 Enter 1001 2 whole read 0 3 -> ok 3 0 \"abc\"\n1 Return 1001 2 ok 3 0 \"abc\"\n",
        true,
    ),
    ("3 Enter 1001 2 whole read 0 3 -> ok 3 0 \"abc\"\n", false),
    (
        "3 Deliver 6 1 0 1001/2\n3 Enter 1001 2 whole read 0 3 -> ok 3 0 \"abc\"\n",
        true,
    ),
    (
        "2 Deliver 6 1 0 1001/2\n2 Enter 1001 2 whole read 0 3 -> ok 3 0 \"abc\"\n",
        false,
    ),
    (
        "1 Freeze 1001\n1 Enter 1001 2 whole read 0 3 -> ok 3 0 \"abc\"\n1 Return 1001 2 ok 3 0 \"abc\"\n",
        true,
    ),
    (
        "1 Freeze 1001\n2 Thaw 1001\n2 Enter 1001 2 whole read 0 3 -> ok 3 0 \"abc\"\n",
        true,
    ),
    (
        "1 Freeze 1001\n2 Thaw 1001\n1 Enter 1001 2 whole read 0 3 -> ok 3 0 \"abc\"\n1 Return 1001 2 ok 3 0 \"abc\"\n",
        false,
    ),
    (
        "1 Enter 1001 2 whole read 0 3 -> ok 3 0 \"abc\"\n1 Return 1001 2 ok 3 0 \"abc\"\n1 Enter 1001 3 whole print \"/f\" -> ok 0 0 \"\"\n",
        true,
    ),
    (
        "1 Freeze 1001\n2 Thaw 1001\n2 Enter 1001 2 whole read 0 3 -> ok 3 0 \"abc\"\n1 Deliver 7 2 0 1001/3\n1 Enter 1001 3 whole print \"/f\" -> ok 0 0 \"\"\n",
        true,
    ),
    (
        "1 Freeze 1001\n2 Thaw 1001\n2 Enter 1001 2 whole read 0 3 -> ok 3 0 \"abc\"\n1 Enter 1001 3 whole print \"/f\" -> ok 0 0 \"\"\n",
        false,
    ),
    (
        "1 Freeze 1001\n2 Thaw 1001\n2 Enter 1001 2 whole read 0 3 -> ok 3 0 \"abc\"\n2 Enter 1001 3 whole print \"/f\" -> ok 0 0 \"\"\n",
        false,
    ),
];

// The same cluster, whose process sets the offset behind its open.
const SEEKING: &str =
    "version = 1\n[[kernel]]\nname = \"c1\"\n[[kernel]]\nname = \"c2\"\n[[kernel]]\nname = \"s1\"\nserves = [\"/\"]\n[[program]]\nname = \"p\"\ntext = '''\ntext 0 \"/f\"\nsys open 0 2 1\nsys seek 0 1\nsys exit 0\n'''\n[[start]]\nhost = \"c1\"\nprogram = \"p\"\n[[file]]\npath = \"/f\"\ntext = \"abc\"\n";

// The same of records behind the open.
const SEEK_ROWS: usize = 4;

static SEEKS: [(&str, bool); SEEK_ROWS] = [
    ("1 Enter 1001 2 whole seek 0 1 -> ok 1 0 \"\"\n", true),
    (
        "3 Deliver 6 1 0 1001/2\n3 Enter 1001 2 whole seek 0 1 -> ok 1 0 \"\"\n",
        false,
    ),
    (
        "3 Shared 3:1 1:1\n3 Deliver 6 1 0 1001/2\n3 Enter 1001 2 whole seek 0 1 -> ok 1 0 \"\"\n",
        true,
    ),
    (
        "3 Shared 3:1 1:2\n3 Deliver 6 1 0 1001/2\n3 Enter 1001 2 whole seek 0 1 -> ok 1 0 \"\"\n",
        false,
    ),
];

// Two clients, each with a process; that of the first one looks at its clock, kills the other one and processes that are none, and
// makes a child.
const FAMILY: &str =
    "version = 1\n[[kernel]]\nname = \"c1\"\n[[kernel]]\nname = \"c2\"\n[[kernel]]\nname = \"s1\"\nserves = [\"/\"]\n[[program]]\nname = \"p\"\ntext = '''\nsys tick\nsys kill 2001\nsys kill 3001\nsys kill 2200\nsys fork\nsys getpid\nsys exit 0\n'''\n[[program]]\nname = \"q\"\ntext = '''\nsys exit 0\n'''\n[[start]]\nhost = \"c1\"\nprogram = \"p\"\n[[start]]\nhost = \"c2\"\nprogram = \"q\"\n";

// Records of these calls, and whether each entry stands where it is to stand.
const CLOCK_ROWS: usize = 4;

static CLOCKS: [(&str, bool); CLOCK_ROWS] = [
    ("1 Enter 1001 1 whole tick -> ok 1 0 \"\"\n", true),
    (
        "2 Deliver 5 1 0 1001/1\n2 Enter 1001 1 whole tick -> ok 1 0 \"\"\n",
        false,
    ),
    (
        "1 Freeze 1001\n2 Thaw 1001\n2 Enter 1001 1 whole tick -> ok 1 0 \"\"\n",
        false,
    ),
    (
        "1 Freeze 1001\n2 Thaw 1001\n1 Deliver 5 2 0 1001/1\n1 Enter 1001 1 whole tick -> ok 1 0 \"\"\n",
        true,
    ),
];

const TICKED: &str = "1 Enter 1001 1 whole tick -> ok 1 0 \"\"\n";

const KILL_ROWS: usize = 5;

static KILLS: [(&str, bool); KILL_ROWS] = [
    (
        "2 Deliver 6 1 0 1001/2\n2 Enter 1001 2 whole kill 2001 -> ok 0 0 \"\"\n",
        true,
    ),
    ("1 Enter 1001 2 whole kill 2001 -> ok 0 0 \"\"\n", false),
    ("2 Enter 1001 2 whole kill 2001 -> ok 0 0 \"\"\n", false),
    (
        "2 Deliver 6 1 0 1001/2\n2 Enter 1001 2 whole kill 2001 -> ok 0 0 \"\"\n1 Enter 1001 3 whole kill 3001 -> err 14\n",
        true,
    ),
    (
        "2 Deliver 6 1 0 1001/2\n2 Enter 1001 2 whole kill 2001 -> ok 0 0 \"\"\n3 Deliver 7 1 0 1001/3\n3 Enter 1001 3 whole kill 3001 -> err 14\n",
        false,
    ),
];

// A process of the second client is killed, one of the server isn't there.
const KILLED: &str =
    "1 Enter 1001 1 whole tick -> ok 1 0 \"\"\n2 Deliver 6 1 0 1001/2\n2 Enter 1001 2 whole kill 2001 -> ok 0 0 \"\"\n1 Enter 1001 3 whole kill 3001 -> err 14\n";

const BIRTH_ROWS: usize = 5;

static BIRTHS: [(&str, bool); BIRTH_ROWS] = [
    (
        "2 Deliver 8 1 0 1001/4\n2 Enter 1001 4 whole kill 2200 -> err 14\n1 Enter 1001 5 whole fork -> ok 1002 0 \"\"\n1 Enter 1002 1 whole getpid -> ok 1002 0 \"\"\n",
        true,
    ),
    ("1 Enter 1001 4 whole kill 2200 -> err 14\n", false),
    (
        "2 Deliver 8 1 0 1001/4\n2 Enter 1001 4 whole kill 2200 -> err 14\n1 Freeze 1001\n2 Thaw 1001\n1 Deliver 9 2 0 1001/5\n1 Enter 1001 5 whole fork -> ok 1002 0 \"\"\n2 Enter 1002 1 whole getpid -> ok 1002 0 \"\"\n",
        true,
    ),
    (
        "2 Deliver 8 1 0 1001/4\n2 Enter 1001 4 whole kill 2200 -> err 14\n1 Freeze 1001\n2 Thaw 1001\n1 Deliver 9 2 0 1001/5\n1 Enter 1001 5 whole fork -> ok 1002 0 \"\"\n1 Enter 1002 1 whole getpid -> ok 1002 0 \"\"\n",
        false,
    ),
    (
        "2 Deliver 8 1 0 1001/4\n2 Enter 1001 4 whole kill 2200 -> err 14\n1 Freeze 1001\n2 Thaw 1001\n2 Enter 1001 5 whole fork -> ok 1002 0 \"\"\n",
        false,
    ),
];

// A process of the second client makes a device, and answers a read of it; one of the first client opens and reads it.
const DEVICE: &str =
    "version = 1\n[[kernel]]\nname = \"c1\"\n[[kernel]]\nname = \"c2\"\n[[kernel]]\nname = \"s1\"\nserves = [\"/\"]\n[[program]]\nname = \"u\"\ntext = '''\ntext 0 \"/d\"\nsys open 0 2 1\nsys read 0 64 1\nsys exit 0\n'''\n[[program]]\nname = \"m\"\ntext = '''\ntext 0 \"/d\"\ntext 200 \"x\"\nsys pd_make 0 2\nsys pd_get 0 64 100\nsys pd_put 0 200 1 0\nsys exit 0\n'''\n[[start]]\nhost = \"c1\"\nprogram = \"u\"\n[[start]]\nhost = \"c2\"\nprogram = \"m\"\n";

// The device is made and opened at the server of its name.
const MADE: &str =
    "3 Deliver 5 2 0 2001/1\n3 Enter 2001 1 whole pd_make \"/d\" -> ok 0 0 \"\"\n3 Deliver 6 1 0 1001/1\n3 Enter 1001 1 whole open \"/d\" 1 -> ok 0 0 \"\"\n";

// Records behind that, and whether each entry stands where it is to stand.
const ASK_ROWS: usize = 7;

static ASKS: [(&str, bool); ASK_ROWS] = [
    (
        "2 Deliver 7 1 0 1001/2\n2 Enter 1001 2 ask read 0 1 -> -\n2 Enter 2001 2 whole pd_get 0 100 -> ok 1 8 \"\\01\\00\\00\\00\\00\\00\\00\\00\"\n2 Enter 2001 3 whole pd_put 0 \"x\" 0 -> ok 0 0 \"\"\n2 Enter 1001 2 done read 0 1 -> ok 1 0 \"x\"\n",
        true,
    ),
    (
        "2 Deliver 7 1 0 1001/2\n2 Enter 1001 2 ask read 0 1 -> -\n2 Enter 2001 2 whole pd_get 0 100 -> ok 1 8 \"\\01\\00\\00\\00\\00\\00\\00\\00\"\n2 Enter 2001 3 whole pd_put 0 \"x\" 0 -> ok 0 0 \"\"\n1 Enter 1001 2 done read 0 1 -> ok 1 0 \"x\"\n",
        false,
    ),
    ("1 Enter 1001 2 ask read 0 1 -> -\n", false),
    ("2 Enter 1001 2 ask read 0 1 -> -\n", false),
    (
        "3 Deliver 7 1 0 1001/2\n3 Enter 1001 2 ask read 0 1 -> -\n",
        false,
    ),
    (
        "1 Freeze 1001\n2 Thaw 1001\n2 Enter 1001 2 ask read 0 1 -> -\n",
        true,
    ),
    (
        "2 Deliver 7 1 0 1001/2\n2 Enter 1001 2 ask read 0 1 -> -\n2 Enter 2001 2 whole pd_get 0 100 -> ok 1 8 \"\\01\\00\\00\\00\\00\\00\\00\\00\"\n1 Deliver 9 2 0 2001/3\n1 Enter 2001 3 whole pd_put 0 \"x\" 0 -> ok 0 0 \"\"\n",
        false,
    ),
];

fn joined(alloc: Global, before: &str, text: &str) -> Result<Vec<u8>, NoMemory> {
    let mut bytes = Vec::new(alloc);
    bytes.extend_from_slice(before.as_bytes())?;
    bytes.extend_from_slice(text.as_bytes())?;
    Ok(bytes)
}

// Whether each entry of the trace stands where it is to stand; no answer for one whose journal isn't legal.
fn keeps(alloc: Global, c: &Description, trace: &[Rec]) -> Result<bool, NoMemory>
    requires { Lawful c.now }
{
    match view(alloc, c, trace, 1_000_000)? {
        Viewed::Legal(_, views) => {
            entries_stand_at_their_kernels(alloc, c, trace, views.callers.as_slice())
        }
        Viewed::NotLegal(_) => Err(NoMemory),
        Viewed::Steps(_) => Err(NoMemory),
    }
}

fn is_judged(
    alloc: Global,
    c: &Description,
    before: &str,
    text: &str,
    kept: bool,
) -> Result<bool, NoMemory>
    requires { Lawful c.now }
{
    let bytes = joined(alloc, before, text)?;
    match read_trace(alloc, bytes.as_slice()) {
        Ok(trace) => Ok(keeps(alloc, c, trace.records())? == kept),
        Err(_) => Err(NoMemory),
    }
}

// The first row of which another verdict is given.
fn first_misjudged(
    alloc: Global,
    c: &Description,
    before: &str,
    rows: &[(&str, bool)],
) -> Result<Option<usize>, NoMemory>
    requires { Lawful c.now }
{
    for (row, (text, kept)) in rows.iter().enumerate() {
        if !is_judged(alloc, c, before, text, *kept)? {
            return Ok(Some(row));
        }
    }
    Ok(None)
}

fn first_in_cluster(
    alloc: Global,
    file: &[u8],
    before: &str,
    rows: &[(&str, bool)],
) -> Result<Option<usize>, NoMemory> {
    match read_description(alloc, file) {
        Ok(c) => first_misjudged(alloc, &c, before, rows),
        Err(_) => Err(NoMemory),
    }
}

#[test]
fn entries_on_files_are_judged(rt: HostRuntime) -> Result<(), Fail> {
    let file = CLUSTER.as_bytes();
    assert_eq!(rt;
        first_in_cluster(rt.alloc(), file, "", OPENS.as_slice())?,
        None
    );
    assert_eq!(rt;
        first_in_cluster(rt.alloc(), file, OPENED, READS.as_slice())?,
        None
    );
    let file = SEEKING.as_bytes();
    assert_eq!(rt;
        first_in_cluster(rt.alloc(), file, OPENED, SEEKS.as_slice())?,
        None
    );
    Ok(())
}

#[test]
fn entries_at_homes_are_judged(rt: HostRuntime) -> Result<(), Fail> {
    let file = FAMILY.as_bytes();
    assert_eq!(rt;
        first_in_cluster(rt.alloc(), file, "", CLOCKS.as_slice())?,
        None
    );
    assert_eq!(rt;
        first_in_cluster(rt.alloc(), file, TICKED, KILLS.as_slice())?,
        None
    );
    assert_eq!(rt;
        first_in_cluster(rt.alloc(), file, KILLED, BIRTHS.as_slice())?,
        None
    );
    Ok(())
}

#[test]
fn entries_on_devices_are_judged(rt: HostRuntime) -> Result<(), Fail> {
    let file = DEVICE.as_bytes();
    assert_eq!(rt;
        first_in_cluster(rt.alloc(), file, MADE, ASKS.as_slice())?,
        None
    );
    Ok(())
}
