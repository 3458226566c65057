use crate::repeated::text_of;
use cluster_file::read_description;
use send_worth::sends_are_worth;
use sprite_ids::NoMemory;
use std::alloc::Global;
use std::test::Fail;
use trace_text::read_trace;
use unix_calls::Description;

// A client and the server of all names.
const CLUSTER: &str =
    "version = 1\n[[kernel]]\nname = \"c1\"\n[[kernel]]\nname = \"s1\"\nserves = [\"/\"]\n[[program]]\nname = \"p\"\ntext = '''\nsys exit 0\n'''\n[[start]]\nhost = \"c1\"\nprogram = \"p\"\n";

const ISSUE: &str = "1 Issue 1001 1 open \"/f\" 1\n";

const OTHER: &str = "1 Send 7 2 1001/1 other\n";

const FREE: &str = "1 Send 7 2 - other\n";

// A line that comes so often, before and behind which others come, and whether few packets go for the sake of calls and of none.
const SENDS: usize = 24;

static SENT: [(&str, u16, &str, &str, bool); SENDS] = [
    ("", 0, "", "", true),
    (ISSUE, 1, OTHER, "", true),
    // Before its call's issue, or for another call.
    ("", 1, OTHER, ISSUE, false),
    (ISSUE, 1, "1 Send 7 2 1001/2 other\n", "", false),
    (ISSUE, 1, "3 Send 7 2 3001/1 other\n", "", false),
    ("", 1, "1 Send 7 2 1001/1 fetch 2:1 0\n", "", false),
    // 512 for one call.
    (ISSUE, 512, OTHER, "", true),
    (ISSUE, 513, OTHER, "", false),
    (ISSUE, 512, OTHER, "1 Send 8 3 1001/1 op 2:1\n", false),
    (
        ISSUE,
        512,
        OTHER,
        "1 Issue 1001 2 size 0\n1 Send 8 2 1001/2 other\n",
        true,
    ),
    // Blocks don't count.
    (ISSUE, 513, "1 Send 7 2 1001/1 fetch 2:1 0\n", OTHER, true),
    (
        ISSUE,
        513,
        "1 Send 7 2 1001/1 writeback 2:1 0\n",
        OTHER,
        true,
    ),
    // One more for what came to the kernel since.
    (
        ISSUE,
        512,
        OTHER,
        "2 Grant 2:1 1 1 on\n1 Send 8 2 1001/1 other\n",
        true,
    ),
    (
        ISSUE,
        512,
        OTHER,
        "2 Callback 2:1 1 1 stop\n1 Send 8 2 1001/1 other\n",
        true,
    ),
    (
        ISSUE,
        512,
        OTHER,
        "2 Grant 2:1 3 1 on\n1 Send 8 2 1001/1 other\n",
        false,
    ),
    (
        "2 Grant 2:1 1 1 on\n1 Issue 1001 1 open \"/f\" 1\n",
        513,
        OTHER,
        "",
        false,
    ),
    // An issue that stands again begins nothing.
    (
        ISSUE,
        512,
        OTHER,
        "1 Issue 1001 1 open \"/f\" 1\n1 Send 8 2 1001/1 other\n",
        false,
    ),
    // 64 for each occasion.
    ("", 1, FREE, "", false),
    ("1 Thaw 1001\n", 64, FREE, "", true),
    ("1 Thaw 1001\n", 65, FREE, "", false),
    (
        "",
        65,
        FREE,
        "1 Freeze 1001\n2 Callback 2:1 1 1 stop\n",
        true,
    ),
    (
        "2 Enter 1001 1 whole open \"/f\" 1 -> ok 0 0 \"\"\n",
        64,
        FREE,
        "",
        true,
    ),
    ("2 Grant 2:1 1 1 on\n", 1, FREE, "", false),
    ("", 3, "1 Send 7 2 - writeback 2:1 0\n", "", true),
];

fn is_sent_so(
    alloc: Global,
    c: &Description,
    row: &(&str, u16, &str, &str, bool),
) -> Result<bool, NoMemory> {
    let text = text_of(alloc, row.0, row.1, row.2, row.3)?;
    match read_trace(alloc, text.as_slice()) {
        Ok(trace) => Ok(sends_are_worth(alloc, c, trace.records())? == row.4),
        Err(_) => Err(NoMemory),
    }
}

// The first row of which another verdict is given.
fn first_sent(alloc: Global, c: &Description) -> Result<Option<usize>, NoMemory> {
    for (place, row) in SENT.iter().enumerate() {
        if !is_sent_so(alloc, c, row)? {
            return Ok(Some(place));
        }
    }
    Ok(None)
}

fn first_in_cluster(alloc: Global, file: &[u8]) -> Result<Option<usize>, NoMemory> {
    match read_description(alloc, file) {
        Ok(c) => first_sent(alloc, &c),
        Err(_) => Err(NoMemory),
    }
}

#[test]
fn sends_are_judged(rt: HostRuntime) -> Result<(), Fail> {
    assert_eq!(rt; first_in_cluster(rt.alloc(), CLUSTER.as_bytes())?, None);
    Ok(())
}
