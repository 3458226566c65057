ghost use Rattle.std.specs.Prelude.{◌≡◌};
ghost use Rattle.unix_calls.specs.Lawful.{Lawful};
ghost use Rattle.trace_forms.specs.Openings.{openings_of};

use cluster_file::read_description;
use sprite_ids::NoMemory;
use std::alloc::Global;
use std::test::Fail;
use trace_forms::{entries_are_formed, formed, packets_are_formed, uses_are_formed};
use trace_text::read_trace;
use trace_views::{Viewed, view};
use unix_calls::{Description, Rec, Stream};

// A client with a process that opens a file and a new one, and both again; and the server of all names.
const CLUSTER: &str =
    "version = 1\n[[kernel]]\nname = \"c1\"\n[[kernel]]\nname = \"s1\"\nserves = [\"/\"]\n[[program]]\nname = \"p\"\ntext = '''\npages 1\ntext 0 \"/f\"\ntext 8 \"/n\"\nsys open 0 2 1\nsys open 8 2 6\nsys open 0 2 1\nsys open 8 2 2\nsys exit 0\n'''\n[[start]]\nhost = \"c1\"\nprogram = \"p\"\n[[file]]\npath = \"/f\"\ntext = \"abc\"\n";

// The entries of the four opens.
const ENTER_F: &str = "2 Enter 1001 1 whole open \"/f\" 1 -> ok 0 0 \"\"\n";

const ENTER_N: &str = "2 Enter 1001 2 whole open \"/n\" 6 -> ok 1 0 \"\"\n";

// Each with its grant and its open at the server.
const OPEN_F: &str = "2 Grant 2:1 1 1 on
2 Opened 2:1 1:1 1 read
2 Enter 1001 1 whole open \"/f\" 1 -> ok 0 0 \"\"
";

const OPEN_N: &str = "2 Grant 2:2 1 1 on
2 Opened 2:2 1:2 1 write
2 Enter 1001 2 whole open \"/n\" 6 -> ok 1 0 \"\"
";

const AGAIN_F: &str = "2 Grant 2:1 1 2 on
2 Opened 2:1 1:3 1 read
2 Enter 1001 3 whole open \"/f\" 1 -> ok 2 0 \"\"
";

const AGAIN_N: &str = "2 Grant 2:2 1 2 on
2 Opened 2:2 1:4 1 write
2 Enter 1001 4 whole open \"/n\" 2 -> ok 3 0 \"\"
";

const AGAIN_N_AS_ANOTHER: &str = "2 Grant 2:3 1 2 on
2 Opened 2:3 1:4 1 write
2 Enter 1001 4 whole open \"/n\" 2 -> ok 3 0 \"\"
";

// The file's stream moves, and is closed at its source; or it becomes shared before that.
const MOVE: &str = "2 Grant 2:1 3 2 on\n2 Opened 2:1 1:1 3 read\n";

const MOVE_ON: &str = "2 Grant 2:1 4 3 on\n2 Opened 2:1 1:1 4 read\n";

const SOURCE: &str = "2 Closed 2:1 1:1 1 read\n";

const SHARED: &str = "2 Shared 2:1 1:1\n";

// Requests.
const OP: &str = "1 Send 7 2 1001/1 op 2:1\n";

const OTHER: &str = "1 Send 7 2 1001/1 other\n";

const CARRIER: &str = "1 Send 7 2 - other\n";

const ASK: &str = "1 Send 7 2 1001/1 broadcast \"/a\"\n";

// Traces in four pieces, and whether their packets, the records of files' servers and the entries that open files are formed.
const ROWS: usize = 64;

static TRACES: [([&str; 4], (bool, bool, bool)); ROWS] = [
    (["", "", "", ""], (true, true, true)),
    ([OPEN_F, OPEN_N, AGAIN_F, AGAIN_N], (true, true, true)),
    // Sends.
    ([OP, "", "", ""], (true, true, true)),
    (["1 Send 7 2 - op 2:1\n", "", "", ""], (false, true, true)),
    (
        ["1 Send 7 2 - broadcast \"/a\"\n", "", "", ""],
        (false, true, true),
    ),
    (
        ["1 Send 7 2 - fetch 2:1 0\n", "", "", ""],
        (true, true, true),
    ),
    (
        [OTHER, "1 Send 7 3 1001/1 other\n", "", ""],
        (false, true, true),
    ),
    ([OTHER, OTHER, "", ""], (false, true, true)),
    (
        [ASK, "1 Send 7 3 1001/1 broadcast \"/a\"\n", "", ""],
        (true, true, true),
    ),
    ([ASK, ASK, "", ""], (false, true, true)),
    (
        [ASK, "1 Send 7 3 1001/1 broadcast \"/b\"\n", "", ""],
        (false, true, true),
    ),
    (
        [ASK, "1 Send 7 3 1001/2 broadcast \"/a\"\n", "", ""],
        (false, true, true),
    ),
    (
        [ASK, "4 Send 7 3 1001/1 broadcast \"/a\"\n", "", ""],
        (false, true, true),
    ),
    (
        [ASK, "1 Send 8 2 1001/1 broadcast \"/a\"\n", "", ""],
        (true, true, true),
    ),
    // Deliveries.
    (
        [
            OP,
            "2 Deliver 7 1 0 1001/1\n",
            "1 Deliver 7 2 1 1001/1\n",
            "",
        ],
        (true, true, true),
    ),
    (
        [OP, "2 Deliver 7 1 0 1001/2\n", "", ""],
        (false, true, true),
    ),
    (
        [OP, "3 Deliver 7 1 0 1001/1\n", "", ""],
        (false, true, true),
    ),
    (
        [OP, "2 Deliver 8 1 0 1001/1\n", "", ""],
        (false, true, true),
    ),
    (
        [OP, "1 Deliver 7 3 1 1001/1\n", "", ""],
        (false, true, true),
    ),
    (
        [OP, "1 Deliver 7 2 0 1001/1\n", "", ""],
        (false, true, true),
    ),
    (
        [
            "1 Send 7 2 1001/1 fetch 2:1 0\n",
            "2 Deliver 7 1 0 -\n",
            "",
            "",
        ],
        (true, true, true),
    ),
    (
        [
            "1 Send 7 2 1001/1 fetch 2:1 0\n",
            "2 Deliver 7 1 0 1001/1\n",
            "",
            "",
        ],
        (false, true, true),
    ),
    (
        [OTHER, "2 Deliver 7 1 0 1001/1\n", "", ""],
        (true, true, true),
    ),
    ([OTHER, "2 Deliver 7 1 0 -\n", "", ""], (true, true, true)),
    (
        [OTHER, "2 Deliver 7 1 0 -\n", "2 Deliver 7 1 0 1001/1\n", ""],
        (false, true, true),
    ),
    (
        [CARRIER, "2 Deliver 7 1 0 1001/1\n", "", ""],
        (true, true, true),
    ),
    (
        [CARRIER, "2 Deliver 7 1 0 1001/2\n", "", ""],
        (false, true, true),
    ),
    (
        [
            "1 Issue 1001 1 getppid\n",
            CARRIER,
            "2 Deliver 7 1 0 1001/2\n",
            "",
        ],
        (true, true, true),
    ),
    (
        ["1 Freeze 1001\n", CARRIER, "2 Deliver 7 1 0 1001/9\n", ""],
        (true, true, true),
    ),
    (
        ["3 Freeze 1001\n", CARRIER, "2 Deliver 7 1 0 1001/9\n", ""],
        (false, true, true),
    ),
    // Tries that are over, and faults.
    ([OP, "1 Expire 7 0\n", "", ""], (true, true, true)),
    (["1 Expire 7 0\n", OP, "", ""], (false, true, true)),
    ([OP, "2 Expire 7 1\n", "", ""], (false, true, true)),
    (["1 Fault 1 2 lost\n", "", "", ""], (true, true, true)),
    // Grants and opens.
    (["2 Grant 2:1 1 1 on\n", "", "", ""], (true, false, true)),
    (
        [
            "2 Grant 2:1 1 1 on\n1 Burst 1001 1\n2 Opened 2:1 1:1 1 read\n",
            ENTER_F,
            "",
            "",
        ],
        (true, false, true),
    ),
    (
        ["2 Opened 2:1 1:1 1 read\n", ENTER_F, "", ""],
        (true, false, true),
    ),
    (
        [
            "2 Grant 2:1 3 1 on\n2 Opened 2:1 1:1 1 read\n",
            ENTER_F,
            "",
            "",
        ],
        (true, false, true),
    ),
    (
        [
            "2 Grant 2:1 1 1 on\n2 Opened 2:1 1:1 1 write\n",
            ENTER_F,
            "",
            "",
        ],
        (true, false, true),
    ),
    (
        [
            "2 Grant 2:1 1 1 on\n2 Opened 2:1 2:1 1 read\n",
            ENTER_F,
            "",
            "",
        ],
        (true, false, true),
    ),
    (
        [
            OPEN_F,
            "2 Grant 2:2 1 1 on\n2 Opened 2:2 1:1 1 write\n",
            ENTER_N,
            "",
        ],
        (true, false, true),
    ),
    (
        [
            "1 Grant 2:1 1 1 on\n1 Opened 2:1 1:1 1 read\n",
            ENTER_F,
            "",
            "",
        ],
        (true, false, true),
    ),
    // Closes and callbacks.
    (
        ["1 Closed 2:1 1:1 1 read\n", "", "", ""],
        (true, false, true),
    ),
    ([SOURCE, "", "", ""], (true, true, true)),
    (
        ["1 Callback 2:1 1 1 stop\n", "", "", ""],
        (true, false, true),
    ),
    (
        ["2 Callback 2:1 1 1 stop\n", "", "", ""],
        (true, true, true),
    ),
    // Moves.
    ([OPEN_F, MOVE, SOURCE, ""], (true, true, true)),
    ([OPEN_F, MOVE, "", ""], (true, false, true)),
    (
        [OPEN_F, MOVE, "2 Closed 2:1 1:1 1 write\n", ""],
        (true, false, true),
    ),
    (
        [OPEN_F, MOVE, "2 Closed 2:1 1:1 3 read\n", ""],
        (true, false, true),
    ),
    ([OPEN_F, SOURCE, MOVE, SOURCE], (true, false, true)),
    ([MOVE, SOURCE, "", ""], (true, false, true)),
    ([OPEN_F, SHARED, MOVE, ""], (true, true, true)),
    ([OPEN_F, SHARED, MOVE, SOURCE], (true, false, true)),
    (
        [OPEN_F, "2 Shared 2:1 1:2\n", MOVE, ""],
        (true, false, true),
    ),
    ([OPEN_F, SHARED, "", ""], (true, false, true)),
    ([SHARED, OPEN_F, "", ""], (true, false, true)),
    ([OPEN_F, SHARED, MOVE, MOVE_ON], (true, true, true)),
    // Entries.
    ([ENTER_F, "", "", ""], (true, true, false)),
    (
        [
            "2 Grant 2:1 2 1 on\n2 Opened 2:1 2:1 2 read\n",
            ENTER_F,
            "",
            "",
        ],
        (true, true, false),
    ),
    (
        [
            "2 Grant 2:2 1 1 on\n2 Opened 2:2 1:1 1 read\n",
            ENTER_F,
            "",
            "",
        ],
        (true, true, false),
    ),
    (
        [
            OPEN_F,
            "2 Grant 2:1 1 2 on\n2 Opened 2:1 1:2 1 write\n",
            ENTER_N,
            "",
        ],
        (true, true, false),
    ),
    (["2 Thaw 1001\n", OPEN_F, "", ""], (true, true, false)),
    (
        [OPEN_F, OPEN_N, AGAIN_F, AGAIN_N_AS_ANOTHER],
        (true, true, false),
    ),
];

fn joined(alloc: Global, parts: &[&str; 4]) -> Result<Vec<u8>, NoMemory> {
    let mut text = Vec::new(alloc);
    for part in parts.iter() {
        text.extend_from_slice(part.as_bytes())?;
    }
    Ok(text)
}

// Whether each part is judged so, and the whole by all of them.
fn is_so(
    alloc: Global,
    c: &Description,
    trace: &[Rec],
    openings: &[Option<Stream>],
    wanted: (bool, bool, bool),
) -> Result<bool, NoMemory>
    requires lawful { Lawful c.now }
    requires openings { openings.now ≡ openings_of c.now trace.now }
{
    let packets = packets_are_formed(alloc, c, trace)?;
    let uses = uses_are_formed(alloc, c, trace, openings)?;
    let entries = entries_are_formed(alloc, c, trace, openings)?;
    let all = formed(alloc, c, trace, openings)?;
    Ok((packets, uses, entries) == wanted && all == (packets && uses && entries))
}

// No answer for a trace whose journal isn't legal.
fn is_told(
    alloc: Global,
    c: &Description,
    trace: &[Rec],
    wanted: (bool, bool, bool),
) -> Result<bool, NoMemory>
    requires { Lawful c.now }
{
    match view(alloc, c, trace, 1_000_000)? {
        Viewed::Legal(_, views) => is_so(alloc, c, trace, views.openings.as_slice(), wanted),
        Viewed::NotLegal(_) => Err(NoMemory),
        Viewed::Steps(_) => Err(NoMemory),
    }
}

fn is_judged(
    alloc: Global,
    c: &Description,
    parts: &[&str; 4],
    wanted: (bool, bool, bool),
) -> Result<bool, NoMemory>
    requires { Lawful c.now }
{
    let text = joined(alloc, parts)?;
    match read_trace(alloc, text.as_slice()) {
        Ok(trace) => is_told(alloc, c, trace.records(), wanted),
        Err(_) => Err(NoMemory),
    }
}

// The first trace of which another verdict is given.
fn first_misjudged(alloc: Global, c: &Description) -> Result<Option<usize>, NoMemory>
    requires { Lawful c.now }
{
    for (row, (parts, wanted)) in TRACES.iter().enumerate() {
        if !is_judged(alloc, c, parts, *wanted)? {
            return Ok(Some(row));
        }
    }
    Ok(None)
}

fn first_in_cluster(alloc: Global, file: &[u8]) -> Result<Option<usize>, NoMemory> {
    match read_description(alloc, file) {
        Ok(c) => first_misjudged(alloc, &c),
        Err(_) => Err(NoMemory),
    }
}

#[test]
fn forms_are_judged(rt: HostRuntime) -> Result<(), Fail> {
    assert_eq!(rt; first_in_cluster(rt.alloc(), CLUSTER.as_bytes())?, None);
    Ok(())
}
