ghost use Rattle.unix_calls.specs.Lawful.{Lawful};

use cluster_file::read_description;
use sprite_ids::NoMemory;
use std::alloc::Global;
use std::test::Fail;
use trace_bursts::bursts_are_worth;
use trace_text::read_trace;
use trace_views::{Viewed, view};
use unix_calls::{Description, Rec};

// Three processes of a client: 1001 does two instructions before its first call and one before its second, 1002 makes none, 1003
// forks, and its child does one before its call.
const CLUSTER: &str =
    "version = 1\n[[kernel]]\nname = \"c1\"\n[[kernel]]\nname = \"s1\"\nserves = [\"/\"]\n[[program]]\nname = \"p\"\ntext = '''\npages 1\nset r3 1\nset r4 2\nsys getpid\nset r3 3\nsys exit 0\n'''\n[[program]]\nname = \"q\"\ntext = '''\nagain:\njmp again\n'''\n[[program]]\nname = \"r\"\ntext = '''\nsys fork\nset r3 1\nsys exit 0\n'''\n[[start]]\nhost = \"c1\"\nprogram = \"p\"\n[[start]]\nhost = \"c1\"\nprogram = \"q\"\n[[start]]\nhost = \"c1\"\nprogram = \"r\"\n";

const ONE: &str = "1 Burst 1001 1\n";

const TWO: &str = "1 Burst 1001 2\n";

const ISSUE: &str = "1 Issue 1001 1 getpid\n";

const ENTER: &str = "1 Enter 1001 1 whole getpid -> ok 1001 0 \"\"\n";

const LAST: &str = "1 Issue 1001 2 exit 0\n";

const SEND: &str = "1 Send 7 2 - other\n";

const WHOLE: &str = "1 Burst 1002 10000\n";

const FORK: &str = "1 Issue 1003 1 fork\n1 Enter 1003 1 whole fork -> ok 1004 0 \"\"\n";

const CHILD: &str = "1 Burst 1004 1\n";

const CHILD_ISSUE: &str = "1 Issue 1004 1 exit 0\n";

// Traces in five pieces, and whether their bursts are worth their records.
const ROWS: usize = 26;

static TRACES: [([&str; 5], bool); ROWS] = [
    (["", "", "", "", ""], true),
    // as many as there are before the call, at once or not
    ([TWO, ISSUE, "", "", ""], true),
    ([ONE, SEND, ONE, ISSUE, ""], true),
    ([ONE, SEND, "", "", ""], true),
    // fewer, or more
    ([ISSUE, "", "", "", ""], false),
    ([ONE, ISSUE, "", "", ""], false),
    (["1 Burst 1001 3\n", SEND, "", "", ""], false),
    ([TWO, SEND, ONE, SEND, ""], false),
    // a short one ends for a reason that stands directly behind it
    ([TWO, "", "", "", ""], false),
    ([TWO, WHOLE, ISSUE, "", ""], false),
    ([TWO, "2 Send 7 1 - other\n", "", "", ""], false),
    ([TWO, "1 Freeze 1001\n", "", "", ""], true),
    ([TWO, "1 Freeze 1002\n", "", "", ""], false),
    ([TWO, "1 Expire 7 0\n", "", "", ""], false),
    // the count begins anew behind an entry
    ([TWO, ISSUE, ENTER, ONE, LAST], true),
    ([TWO, ISSUE, ENTER, LAST, ""], false),
    ([TWO, ISSUE, ENTER, TWO, SEND], false),
    ([TWO, ENTER, ONE, LAST, ""], true),
    // no call comes
    ([WHOLE, WHOLE, WHOLE, WHOLE, WHOLE], true),
    (["1 Burst 1002 10001\n", SEND, "", "", ""], false),
    // the others' bursts count for themselves
    ([ONE, SEND, WHOLE, ONE, ISSUE], true),
    // a process begins at its birth, and what stands before that counts too
    ([FORK, CHILD, CHILD_ISSUE, "", ""], true),
    ([FORK, CHILD_ISSUE, "", "", ""], false),
    ([CHILD, SEND, FORK, CHILD_ISSUE, ""], true),
    ([CHILD, SEND, FORK, CHILD, CHILD_ISSUE], false),
    (["1 Burst 1009 7\n", SEND, "", "", ""], true),
];

fn joined(alloc: Global, pieces: &[&str; 5]) -> Result<Vec<u8>, NoMemory> {
    let mut text = Vec::new(alloc);
    for piece in pieces.iter() {
        text.extend_from_slice(piece.as_bytes())?;
    }
    Ok(text)
}

// No answer for a trace whose journal isn't legal.
fn are_worth(alloc: Global, c: &Description, trace: &[Rec]) -> Result<bool, NoMemory>
    requires { Lawful c.now }
{
    match view(alloc, c, trace, 1_000_000)? {
        Viewed::Legal(end, views) => {
            let ps = end.processes.as_slice();
            bursts_are_worth(alloc, c, trace, ps, &views.counts)
        }
        Viewed::NotLegal(_) => Err(NoMemory),
        Viewed::Steps(_) => Err(NoMemory),
    }
}

fn is_judged(
    alloc: Global,
    c: &Description,
    pieces: &[&str; 5],
    worth: bool,
) -> Result<bool, NoMemory>
    requires { Lawful c.now }
{
    let text = joined(alloc, pieces)?;
    match read_trace(alloc, text.as_slice()) {
        Ok(trace) => Ok(are_worth(alloc, c, trace.records())? == worth),
        Err(_) => Err(NoMemory),
    }
}

// The first trace of which another verdict is given.
fn first_misjudged(alloc: Global, c: &Description) -> Result<Option<usize>, NoMemory>
    requires { Lawful c.now }
{
    for (row, (pieces, worth)) in TRACES.iter().enumerate() {
        if !is_judged(alloc, c, pieces, *worth)? {
            return Ok(Some(row));
        }
    }
    Ok(None)
}

fn first_in_cluster(alloc: Global, file: &[u8]) -> Result<Option<usize>, NoMemory> {
    match read_description(alloc, file) {
        Ok(c) => first_misjudged(alloc, &c),
        Err(_) => Err(NoMemory),
    }
}

#[test]
fn bursts_are_judged(rt: HostRuntime) -> Result<(), Fail> {
    assert_eq!(rt; first_in_cluster(rt.alloc(), CLUSTER.as_bytes())?, None);
    Ok(())
}
