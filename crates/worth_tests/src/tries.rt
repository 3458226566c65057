ghost use Rattle.unix_calls.specs.Lawful.{Lawful};

use crate::repeated::text_of;
use cluster_file::read_description;
use echo_worth::expires_are_worth;
use sprite_ids::NoMemory;
use std::alloc::Global;
use std::process::Abort;
use std::test::Fail;
use trace_text::read_trace;
use unix_calls::Description;

// Kernels 1 and 4 are clients, 2 and 3 servers; process 1001 runs on kernel 1.
const CLUSTER: &str =
    "version = 1\n[[kernel]]\nname = \"c1\"\n[[kernel]]\nname = \"s1\"\nserves = [\"/\"]\n[[kernel]]\nname = \"s2\"\nserves = [\"/a\"]\n[[kernel]]\nname = \"c2\"\n[[program]]\nname = \"p\"\ntext = '''\nsys exit 0\n'''\n[[start]]\nhost = \"c1\"\nprogram = \"p\"\n";

// Packets of kernel 1 to kernel 2 with the number 7: one whose tries never end, one that asks for a prefix, and an echo.
const PLAIN: &str = "1 Send 7 2 - fetch 2:1 0\n";

const BROADCAST: &str = "1 Send 7 2 - broadcast \"/\"\n";

const ECHO: &str = "1 Issue 1001 1 open \"/f\" 1\n1 Send 7 2 1001/1 other\n";

// A try of it that is lost, and the last one.
const TRY: &str = "1 Fault 1 2 lost\n1 Expire 7 0\n";

const LAST: &str = "1 Fault 1 2 lost\n1 Expire 7 1\n";

// Traces: lines, others that come so often behind these, and the rest; and whether their packets go and come for a cause.
const LOSSES: usize = 23;

static LOST: [(&str, u16, &str, &str, bool); LOSSES] = [
    ("", 0, "", "", true),
    // A try is over behind a loss since the request last went out, between two kernels between which it went.
    (PLAIN, 9, TRY, "", true),
    (PLAIN, 0, "", "1 Expire 7 0\n", false),
    (PLAIN, 1, TRY, "1 Expire 7 0\n", false),
    (PLAIN, 1, TRY, "1 Expire 7 1\n", false),
    (
        PLAIN,
        0,
        "",
        "1 Fault 1 2 lost\n1 Expire 7 1\n1 Expire 7 1\n",
        true,
    ),
    (
        "1 Send 6 2 - fetch 2:1 0\n1 Fault 1 2 lost\n1 Send 7 2 - fetch 2:1 0\n",
        0,
        "",
        "1 Expire 7 0\n",
        false,
    ),
    (PLAIN, 0, "", "1 Fault 1 2 twice\n1 Expire 7 0\n", false),
    (PLAIN, 0, "", "1 Fault 1 2 late\n1 Expire 7 0\n", false),
    (PLAIN, 0, "", "2 Fault 2 1 lost\n1 Expire 7 0\n", true),
    (
        "1 Send 7 2 - fetch 2:1 0\n1 Send 8 3 - fetch 3:1 0\n",
        0,
        "",
        "1 Fault 1 3 lost\n1 Expire 7 0\n",
        false,
    ),
    (
        "1 Send 7 2 - broadcast \"/\"\n1 Send 7 3 - broadcast \"/\"\n",
        0,
        "",
        "1 Fault 1 3 lost\n1 Expire 7 0\n",
        true,
    ),
    (PLAIN, 0, "", "1 Fault 1 2 lost\n4 Expire 7 0\n", false),
    (
        "1 Send 7 2 - fetch 2:1 0\n1 Fault 1 2 lost\n4 Send 7 2 - fetch 2:1 0\n",
        0,
        "",
        "4 Expire 7 0\n",
        false,
    ),
    (
        "1 Send 7 2 - fetch 2:1 0\n1 Fault 1 2 lost\n",
        0,
        "",
        "1 Expire 8 0\n",
        false,
    ),
    // No more faults between two kernels than packets: requests, each time that they go out, and replies to those that came.
    (PLAIN, 0, "", "1 Fault 1 2 lost\n", true),
    ("", 0, "", "1 Fault 1 2 lost\n", false),
    (PLAIN, 0, "", "1 Fault 1 2 lost\n1 Fault 1 2 twice\n", false),
    (PLAIN, 0, "", "1 Fault 1 3 lost\n", false),
    (PLAIN, 1, TRY, "1 Fault 1 2 lost\n", true),
    (
        PLAIN,
        0,
        "",
        "1 Fault 1 2 lost\n1 Expire 7 1\n1 Fault 1 2 lost\n",
        false,
    ),
    (
        PLAIN,
        0,
        "",
        "2 Deliver 7 1 0 -\n2 Fault 2 1 lost\n1 Fault 1 2 late\n",
        true,
    ),
    (
        PLAIN,
        0,
        "",
        "1 Deliver 7 2 1 -\n2 Fault 2 1 lost\n1 Fault 1 2 late\n",
        false,
    ),
];

const LIMITS: usize = 15;

static LIMITED: [(&str, u16, &str, &str, bool); LIMITS] = [
    // A broadcast has eight tries, each kernel by itself; what is neither that nor an echo as many as it takes.
    (BROADCAST, 7, TRY, "", true),
    (BROADCAST, 7, TRY, LAST, true),
    (BROADCAST, 6, TRY, LAST, false),
    (BROADCAST, 0, "", LAST, false),
    (BROADCAST, 8, TRY, "", false),
    (
        BROADCAST,
        7,
        TRY,
        "1 Fault 1 2 lost\n1 Expire 7 1\n1 Expire 7 0\n",
        false,
    ),
    (
        BROADCAST,
        7,
        TRY,
        "1 Fault 1 2 lost\n1 Expire 7 1\n1 Expire 7 1\n",
        false,
    ),
    (
        PLAIN,
        7,
        TRY,
        "1 Fault 1 2 lost\n1 Expire 7 1\n1 Expire 7 1\n",
        true,
    ),
    (PLAIN, 0, "", LAST, true),
    (
        "1 Send 7 2 - fetch 2:1 0\n1 Send 7 2 - broadcast \"/\"\n",
        8,
        TRY,
        "",
        false,
    ),
    (
        "1 Send 7 2 - broadcast \"/\"\n4 Send 7 2 - fetch 2:1 0\n4 Fault 4 2 lost\n4 Expire 7 0\n",
        7,
        TRY,
        LAST,
        true,
    ),
    (
        "1 Send 7 2 - broadcast \"/\"\n4 Send 7 2 - fetch 2:1 0\n",
        8,
        "4 Fault 4 2 lost\n4 Expire 7 0\n",
        "",
        true,
    ),
    ("1 Send 7 2 - op 2:1\n", 8, TRY, "", true),
    ("1 Send 7 2 - writeback 2:1 0\n", 8, TRY, "", true),
    ("1 Send 7 2 - other\n", 8, TRY, "", true),
];

const FIRSTS: usize = 25;

static ECHOES: [(&str, u16, &str, &str, bool); FIRSTS] = [
    // An echo has eight too: the first packet of no stated kind for a name call from its process's kernel to a server.
    (ECHO, 7, TRY, LAST, true),
    (ECHO, 6, TRY, LAST, false),
    (ECHO, 8, TRY, "", false),
    (
        "1 Issue 1001 1 open \"/f\" 1\n1 Send 7 3 1001/1 other\n",
        8,
        "1 Fault 1 3 lost\n1 Expire 7 0\n",
        "",
        false,
    ),
    (
        "1 Issue 1001 1 open \"/f\" 1\n1 Send 7 4 1001/1 other\n",
        8,
        "1 Fault 1 4 lost\n1 Expire 7 0\n",
        "",
        true,
    ),
    (
        "1 Issue 1001 1 open \"/f\" 1\n1 Send 7 1 1001/1 other\n",
        8,
        "1 Fault 1 1 lost\n1 Expire 7 0\n",
        "",
        true,
    ),
    (
        "1 Issue 1001 1 open \"/f\" 1\n1 Send 7 5 1001/1 other\n",
        8,
        "1 Fault 1 5 lost\n1 Expire 7 0\n",
        "",
        true,
    ),
    ("1 Send 7 2 1001/1 other\n", 8, TRY, "", true),
    (
        "1 Send 7 2 1001/1 other\n1 Issue 1001 1 open \"/f\" 1\n",
        8,
        TRY,
        "",
        true,
    ),
    (
        "1 Issue 1001 1 open \"/f\" 1\n1 Send 7 2 1001/2 other\n",
        8,
        TRY,
        "",
        true,
    ),
    (
        "1 Issue 1001 1 open \"/f\" 1\n1 Send 7 2 1002/1 other\n",
        8,
        TRY,
        "",
        true,
    ),
    (
        "1 Issue 1001 1 open \"/f\" 1\n4 Send 7 2 1001/1 other\n",
        8,
        "4 Fault 4 2 lost\n4 Expire 7 0\n",
        "",
        true,
    ),
    (
        "4 Issue 1001 1 open \"/f\" 1\n1 Send 7 2 1001/1 other\n",
        8,
        TRY,
        "",
        false,
    ),
    (
        "1 Issue 1001 1 open \"/f\" 1\n1 Freeze 1001\n1 Send 7 2 1001/1 other\n",
        8,
        TRY,
        "",
        false,
    ),
    (
        "1 Issue 1001 1 open \"/f\" 1\n1 Freeze 1001\n4 Thaw 1001\n1 Send 7 2 1001/1 other\n",
        8,
        TRY,
        "",
        true,
    ),
    (
        "1 Issue 1001 1 open \"/f\" 1\n1 Freeze 1001\n4 Thaw 1001\n4 Send 7 2 1001/1 other\n",
        8,
        "4 Fault 4 2 lost\n4 Expire 7 0\n",
        "",
        false,
    ),
    (
        "1 Issue 1001 1 open \"/f\" 1\n1 Send 7 2 1001/1 other\n1 Freeze 1001\n4 Thaw 1001\n",
        8,
        TRY,
        "",
        false,
    ),
    (
        "1 Issue 1001 1 open \"/f\" 1\n1 Send 6 2 1001/1 other\n1 Send 7 2 1001/1 other\n",
        8,
        TRY,
        "",
        true,
    ),
    (
        "1 Issue 1001 1 open \"/f\" 1\n1 Send 6 2 1001/1 other\n1 Send 7 2 1001/1 other\n",
        8,
        "1 Fault 1 2 lost\n1 Expire 6 0\n",
        "",
        false,
    ),
    (
        "1 Issue 1001 1 open \"/f\" 1\n1 Send 6 3 1001/1 other\n1 Send 7 2 1001/1 other\n",
        8,
        TRY,
        "",
        false,
    ),
    (
        "1 Issue 1001 1 open \"/f\" 1\n4 Send 6 2 1001/1 other\n1 Send 7 2 1001/1 other\n",
        8,
        TRY,
        "",
        false,
    ),
    (
        "1 Issue 1001 1 open \"/f\" 1\n1 Send 6 2 1001/2 other\n1 Send 7 2 1001/1 other\n",
        8,
        TRY,
        "",
        false,
    ),
    (
        "1 Issue 1001 1 open \"/f\" 1\n1 Send 6 2 1001/1 fetch 2:1 0\n1 Send 7 2 1001/1 other\n",
        8,
        TRY,
        "",
        false,
    ),
    (
        "1 Issue 1001 1 open \"/f\" 1\n1 Send 6 2 1001/1 broadcast \"/\"\n1 Send 7 2 1001/1 other\n",
        8,
        TRY,
        "",
        false,
    ),
    (
        "1 Issue 1001 1 open \"/f\" 1\n1 Send 7 2 1001/1 op 2:1\n",
        8,
        TRY,
        "",
        true,
    ),
];

const NAMES: usize = 16;

static NAMED: [(&str, u16, &str, &str, bool); NAMES] = [
    // The first issue of a call decides whether it goes by names.
    (
        "1 Issue 1001 1 open \"/f\" 1\n1 Issue 1001 1 close 0\n1 Send 7 2 1001/1 other\n",
        8,
        TRY,
        "",
        false,
    ),
    (
        "1 Issue 1001 1 close 0\n1 Issue 1001 1 open \"/f\" 1\n1 Send 7 2 1001/1 other\n",
        8,
        TRY,
        "",
        true,
    ),
    (
        "1 Issue 1001 1 stat \"/f\"\n1 Send 7 2 1001/1 other\n",
        8,
        TRY,
        "",
        false,
    ),
    (
        "1 Issue 1001 1 mkdir \"/f\"\n1 Send 7 2 1001/1 other\n",
        8,
        TRY,
        "",
        false,
    ),
    (
        "1 Issue 1001 1 rmdir \"/f\"\n1 Send 7 2 1001/1 other\n",
        8,
        TRY,
        "",
        false,
    ),
    (
        "1 Issue 1001 1 unlink \"/f\"\n1 Send 7 2 1001/1 other\n",
        8,
        TRY,
        "",
        false,
    ),
    (
        "1 Issue 1001 1 rename \"/f\" \"/g\"\n1 Send 7 2 1001/1 other\n",
        8,
        TRY,
        "",
        false,
    ),
    (
        "1 Issue 1001 1 list \"/\" 9\n1 Send 7 2 1001/1 other\n",
        8,
        TRY,
        "",
        false,
    ),
    (
        "1 Issue 1001 1 chdir \"/\"\n1 Send 7 2 1001/1 other\n",
        8,
        TRY,
        "",
        false,
    ),
    (
        "1 Issue 1001 1 pd_make \"/f\"\n1 Send 7 2 1001/1 other\n",
        8,
        TRY,
        "",
        false,
    ),
    (
        "1 Issue 1001 1 exec \"p\" 0\n1 Send 7 2 1001/1 other\n",
        8,
        TRY,
        "",
        true,
    ),
    (
        "1 Issue 1001 1 read 0 9\n1 Send 7 2 1001/1 other\n",
        8,
        TRY,
        "",
        true,
    ),
    (
        "1 Issue 1001 1 migrate \"c2\"\n1 Send 7 2 1001/1 other\n",
        8,
        TRY,
        "",
        true,
    ),
    (
        "1 Issue 1001 1 ioctl 0 1 \"A\"\n1 Send 7 2 1001/1 other\n",
        8,
        TRY,
        "",
        true,
    ),
    // A child begins where its parent is.
    (
        "1 Enter 1001 1 whole fork -> ok 1002 0 \"\"\n1 Issue 1002 1 chdir \"/\"\n1 Send 7 2 1002/1 other\n",
        8,
        TRY,
        "",
        false,
    ),
    (
        "1 Issue 1002 1 chdir \"/\"\n1 Send 7 2 1002/1 other\n",
        8,
        TRY,
        "",
        true,
    ),
];

const ENDS: usize = 19;

static GIVEN_UP: [(&str, u16, &str, &str, bool); ENDS] = [
    // Where an echo was given up nothing goes any more for the sake of its call, from no kernel.
    (
        ECHO,
        7,
        TRY,
        "1 Fault 1 2 lost\n1 Expire 7 1\n1 Send 8 3 1001/1 other\n",
        true,
    ),
    (
        ECHO,
        7,
        TRY,
        "1 Fault 1 2 lost\n1 Expire 7 1\n1 Send 8 2 1001/1 other\n",
        false,
    ),
    (
        ECHO,
        7,
        TRY,
        "1 Fault 1 2 lost\n1 Expire 7 1\n4 Send 8 2 1001/1 other\n",
        false,
    ),
    (
        ECHO,
        7,
        TRY,
        "1 Fault 1 2 lost\n1 Expire 7 1\n1 Send 8 2 1001/1 fetch 2:1 0\n",
        false,
    ),
    (
        ECHO,
        7,
        TRY,
        "1 Fault 1 2 lost\n1 Expire 7 1\n1 Send 8 2 1001/1 broadcast \"/\"\n",
        false,
    ),
    (
        ECHO,
        7,
        TRY,
        "1 Fault 1 2 lost\n1 Expire 7 1\n1 Send 8 2 1001/2 other\n",
        true,
    ),
    (
        ECHO,
        7,
        TRY,
        "1 Fault 1 2 lost\n1 Expire 7 1\n1 Send 8 2 1002/1 other\n",
        true,
    ),
    (
        ECHO,
        7,
        TRY,
        "1 Fault 1 2 lost\n1 Expire 7 1\n1 Send 8 2 - other\n",
        true,
    ),
    (
        ECHO,
        7,
        TRY,
        "1 Send 8 2 1001/1 other\n1 Fault 1 2 lost\n1 Expire 7 1\n",
        true,
    ),
    (ECHO, 7, TRY, "1 Send 8 2 1001/1 other\n", true),
    (
        ECHO,
        0,
        "",
        "1 Fault 1 2 lost\n1 Send 9 2 - fetch 2:1 0\n1 Expire 9 1\n1 Send 8 2 1001/1 other\n",
        false,
    ),
    (
        "1 Issue 1001 1 open \"/f\" 1\n1 Send 7 2 1001/1 other\n1 Send 9 2 - fetch 2:1 0\n",
        0,
        "",
        "1 Fault 1 2 lost\n1 Expire 9 1\n1 Send 8 2 1001/1 other\n",
        true,
    ),
    (
        "1 Issue 1001 1 open \"/f\" 1\n1 Send 7 2 1001/1 other\n4 Send 7 2 - fetch 2:1 0\n",
        0,
        "",
        "4 Fault 4 2 lost\n4 Expire 7 1\n1 Send 8 2 1001/1 other\n",
        true,
    ),
    (
        "1 Send 7 2 - fetch 2:1 0\n1 Fault 1 2 lost\n1 Expire 7 1\n1 Issue 1001 1 open \"/f\" 1\n1 Send 7 2 1001/1 other\n",
        0,
        "",
        "1 Send 8 2 1001/1 other\n",
        true,
    ),
    (
        "1 Issue 1001 1 open \"/f\" 1\n1 Send 7 2 1001/1 broadcast \"/\"\n",
        7,
        TRY,
        "1 Fault 1 2 lost\n1 Expire 7 1\n1 Send 8 2 1001/1 other\n",
        true,
    ),
    (
        "1 Issue 1001 1 open \"/f\" 1\n1 Send 6 2 1001/1 other\n1 Send 7 2 1001/1 other\n",
        0,
        "",
        "1 Fault 1 2 lost\n1 Expire 7 1\n1 Send 8 2 1001/1 other\n",
        true,
    ),
    (
        "1 Issue 1001 1 open \"/f\" 1\n1 Send 7 2 1001/1 other\n1 Send 7 3 1001/1 other\n",
        7,
        TRY,
        "1 Fault 1 2 lost\n1 Expire 7 1\n1 Send 8 3 1001/1 other\n",
        false,
    ),
    (
        "1 Issue 1001 1 open \"/f\" 1\n1 Send 7 2 1001/1 other\n1 Issue 1001 2 chdir \"/\"\n1 Send 7 2 1001/2 other\n",
        7,
        TRY,
        "1 Fault 1 2 lost\n1 Expire 7 1\n1 Send 8 2 1001/2 other\n",
        false,
    ),
    (
        "1 Issue 1001 1 open \"/f\" 1\n1 Send 7 2 1001/1 other\n1 Freeze 1001\n4 Thaw 1001\n",
        7,
        TRY,
        "1 Fault 1 2 lost\n1 Expire 7 1\n4 Send 8 2 1001/1 other\n",
        false,
    ),
];

fn is_judged(
    alloc: Global,
    c: &Description,
    row: &(&str, u16, &str, &str, bool),
) -> Result<bool, NoMemory>
    requires { Lawful c.now }
{
    let text = text_of(alloc, row.0, row.1, row.2, row.3)?;
    match read_trace(alloc, text.as_slice()) {
        Ok(trace) => Ok(expires_are_worth(alloc, c, trace.records(), false)? == row.4),
        Err(_) => Err(NoMemory),
    }
}

// The first row of which another verdict is given.
fn first_misjudged(
    alloc: Global,
    c: &Description,
    rows: &[(&str, u16, &str, &str, bool)],
) -> Result<Option<usize>, NoMemory>
    requires { Lawful c.now }
{
    for (place, row) in rows.iter().enumerate() {
        if !is_judged(alloc, c, row)? {
            return Ok(Some(place));
        }
    }
    Ok(None)
}

fn first_in_cluster(
    alloc: Global,
    file: &[u8],
    rows: &[(&str, u16, &str, &str, bool)],
) -> Result<Option<usize>, NoMemory> {
    match read_description(alloc, file) {
        Ok(c) => first_misjudged(alloc, &c, rows),
        Err(_) => Err(NoMemory),
    }
}

// Asserts that no row is another, and tells the place of the one that is.
fn is_none(rt: &impl Abort, other: Option<usize>) {
    assert_eq!(rt; other, None);
}

#[test]
fn losses_and_faults_are_judged(rt: HostRuntime) -> Result<(), Fail> {
    is_none(
        &rt,
        first_in_cluster(rt.alloc(), CLUSTER.as_bytes(), &LOST)?,
    );
    Ok(())
}

#[test]
fn ends_of_tries_are_judged(rt: HostRuntime) -> Result<(), Fail> {
    is_none(
        &rt,
        first_in_cluster(rt.alloc(), CLUSTER.as_bytes(), &LIMITED)?,
    );
    Ok(())
}

#[test]
fn echoes_are_told(rt: HostRuntime) -> Result<(), Fail> {
    is_none(
        &rt,
        first_in_cluster(rt.alloc(), CLUSTER.as_bytes(), &ECHOES)?,
    );
    Ok(())
}

#[test]
fn calls_by_names_are_told(rt: HostRuntime) -> Result<(), Fail> {
    is_none(
        &rt,
        first_in_cluster(rt.alloc(), CLUSTER.as_bytes(), &NAMED)?,
    );
    Ok(())
}

#[test]
fn nothing_goes_behind_an_echo_given_up(rt: HostRuntime) -> Result<(), Fail> {
    is_none(
        &rt,
        first_in_cluster(rt.alloc(), CLUSTER.as_bytes(), &GIVEN_UP)?,
    );
    Ok(())
}
