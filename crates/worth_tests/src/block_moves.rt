use cache_worth::{
    blocks_are_cleaned_once_sent, blocks_are_fetched_anew, blocks_are_sent_once_changed,
    blocks_move_moderately, caches_are_worth, stamps_are_taken_in_order,
};
use cluster_file::read_description;
use sprite_ids::NoMemory;
use std::alloc::Global;
use std::test::Fail;
use trace_text::read_trace;
use unix_calls::{Description, Rec};

// A client and the server of all names.
const CLUSTER: &str =
    "version = 1\n[[kernel]]\nname = \"c1\"\n[[kernel]]\nname = \"s1\"\nserves = [\"/\"]\n[[program]]\nname = \"p\"\ntext = '''\nsys exit 0\n'''\n[[start]]\nhost = \"c1\"\nprogram = \"p\"\n";

// A client comes to a call and takes a stamp: so ten blocks may be fetched, ten come in and ten be made dirty.
const BEGIN: &str = "1 Issue 1001 1 open \"/f\" 1\n2 Grant 2:1 1 1 on\n1 Mode 2:1 1 on\n";

// The part of the rule that a trace breaks alone.
#[derive(Clone, Copy, Debug, PartialEq, Eq)]
enum Broken {
    Nothing,
    Stamps,
    Fetches,
    Sends,
    Cleans,
    Counts,
}

const ROWS: usize = 29;

static TRACES: [(&str, Broken); ROWS] = [
    ("", Broken::Nothing),
    // A read of three blocks, and one that goes by the cache.
    (
        "1 Issue 1001 2 read 0 9000\n1 Send 4 2 1001/2 fetch 2:1 0\n2 Deliver 4 1 0 -\n1 Deliver 4 2 1 -\n1 Filled 2:1 0\n1 Send 5 2 1001/2 fetch 2:1 1\n1 Filled 2:1 1\n1 Send 6 2 1001/2 fetch 2:1 2\n1 Filled 2:1 2\n1 Issue 1001 3 seek 0 0\n1 Issue 1001 4 read 0 9000\n",
        Broken::Nothing,
    ),
    // A recall and a second reader.
    (
        "1 Issue 1001 2 write 0 \"A\"\n1 Filled 2:1 0\n1 Dirtied 2:1 0\n3 Issue 3001 1 open \"/f\" 1\n2 Callback 2:1 1 2 recall\n1 Send 4 2 - writeback 2:1 0\n1 WroteBack 2:1 0\n1 Mode 2:1 2 on\n2 Grant 2:1 3 3 on\n3 Mode 2:1 3 on\n3 Issue 3001 2 read 0 1\n3 Send 5 2 3001/2 fetch 2:1 0\n3 Filled 2:1 0\n",
        Broken::Nothing,
    ),
    (
        "1 Send 7 2 1001/1 fetch 2:1 0\n1 Send 8 2 1001/1 fetch 2:1 0\n",
        Broken::Fetches,
    ),
    (
        "1 Send 7 2 1001/1 fetch 2:1 0\n1 Filled 2:1 0\n1 Send 8 2 1001/1 fetch 2:1 0\n",
        Broken::Nothing,
    ),
    (
        "1 Send 7 2 1001/1 fetch 2:1 0\n1 Filled 2:1 0\n1 Send 8 2 1001/1 fetch 2:1 0\n1 Send 9 2 1001/1 fetch 2:1 0\n",
        Broken::Fetches,
    ),
    (
        "1 Send 7 2 1001/1 fetch 2:1 0\n2 Grant 2:1 1 2 on\n1 Mode 2:1 2 on\n1 Send 8 2 1001/1 fetch 2:1 0\n",
        Broken::Nothing,
    ),
    (
        "1 Send 7 2 1001/1 fetch 2:1 0\n2 Grant 2:2 1 2 on\n1 Mode 2:2 2 on\n1 Send 8 2 1001/1 fetch 2:1 0\n",
        Broken::Fetches,
    ),
    (
        "3 Issue 3001 1 exit 0\n1 Send 7 2 1001/1 fetch 2:1 0\n3 Filled 2:1 0\n1 Send 8 2 1001/1 fetch 2:1 0\n",
        Broken::Fetches,
    ),
    (
        "1 Send 7 2 1001/1 fetch 2:1 0\n1 Filled 2:1 1\n1 Send 8 2 1001/1 fetch 2:1 0\n",
        Broken::Fetches,
    ),
    (
        "1 Send 7 2 1001/1 fetch 2:1 0\n1 Send 8 2 1001/1 fetch 2:1 1\n1 Send 9 2 1001/1 fetch 2:2 0\n",
        Broken::Nothing,
    ),
    (
        "1 Dirtied 2:1 0\n1 Send 7 2 - writeback 2:1 0\n",
        Broken::Nothing,
    ),
    (
        "1 Dirtied 2:1 0\n1 Send 7 2 - writeback 2:1 0\n1 Send 8 2 - writeback 2:1 0\n",
        Broken::Sends,
    ),
    ("1 Send 7 2 - writeback 2:2 0\n", Broken::Sends),
    (
        "1 Send 7 2 - writeback 2:1 0\n1 Dirtied 2:1 0\n1 Send 8 2 - writeback 2:1 0\n",
        Broken::Nothing,
    ),
    (
        "1 Send 7 2 - writeback 2:1 0\n1 Dirtied 2:1 1\n1 Send 8 2 - writeback 2:1 0\n",
        Broken::Sends,
    ),
    (
        "1 Send 7 2 - writeback 2:1 0\n2 Callback 2:1 1 2 stop\n1 Mode 2:1 2 off\n1 Send 8 2 - writeback 2:1 0\n",
        Broken::Nothing,
    ),
    ("1 WroteBack 2:1 0\n", Broken::Cleans),
    (
        "1 Send 7 2 - writeback 2:1 0\n1 WroteBack 2:1 0\n1 WroteBack 2:1 0\n",
        Broken::Cleans,
    ),
    (
        "1 Send 7 2 - writeback 2:1 0\n1 WroteBack 2:1 0\n1 Dirtied 2:1 0\n1 Send 8 2 - writeback 2:1 0\n1 WroteBack 2:1 0\n",
        Broken::Nothing,
    ),
    (
        "1 Send 7 2 - writeback 2:1 1\n1 WroteBack 2:1 0\n",
        Broken::Cleans,
    ),
    ("1 Mode 2:1 2 on\n", Broken::Stamps),
    ("2 Grant 2:1 3 2 on\n1 Mode 2:1 2 on\n", Broken::Stamps),
    ("1 Mode 2:1 1 on\n", Broken::Stamps),
    (
        "2 Callback 2:1 1 2 stop\n2 Grant 2:1 1 3 on\n1 Mode 2:1 3 on\n1 Mode 2:1 2 off\n",
        Broken::Stamps,
    ),
    (
        "2 Callback 2:1 1 2 stop\n2 Grant 2:1 1 3 on\n1 Mode 2:1 2 off\n1 Mode 2:1 3 on\n",
        Broken::Nothing,
    ),
    ("3 Filled 2:1 0\n", Broken::Counts),
    (
        "1 Filled 2:1 0\n1 Filled 2:1 1\n1 Filled 2:1 2\n1 Filled 2:1 3\n1 Filled 2:1 4\n1 Filled 2:1 5\n1 Filled 2:1 6\n1 Filled 2:1 7\n1 Filled 2:1 8\n1 Filled 2:1 9\n",
        Broken::Nothing,
    ),
    (
        "1 Dirtied 2:1 0\n1 Dirtied 2:1 0\n1 Dirtied 2:1 0\n1 Dirtied 2:1 0\n1 Dirtied 2:1 0\n1 Dirtied 2:1 0\n1 Dirtied 2:1 0\n1 Dirtied 2:1 0\n1 Dirtied 2:1 0\n1 Dirtied 2:1 0\n1 Dirtied 2:1 0\n",
        Broken::Counts,
    ),
];

// Whether each part is kept but the one that is to be broken.
fn is_broken(
    alloc: Global,
    c: &Description,
    trace: &[Rec],
    broken: Broken,
) -> Result<bool, NoMemory> {
    let stamps = stamps_are_taken_in_order(alloc, c, trace)?;
    let fetches = blocks_are_fetched_anew(alloc, c, trace)?;
    let sends = blocks_are_sent_once_changed(alloc, c, trace)?;
    let cleans = blocks_are_cleaned_once_sent(alloc, c, trace)?;
    let counts = blocks_move_moderately(alloc, trace)?;
    let whole = caches_are_worth(alloc, c, trace)?;
    Ok(
        stamps == (broken != Broken::Stamps)
            && fetches == (broken != Broken::Fetches)
            && sends == (broken != Broken::Sends)
            && cleans == (broken != Broken::Cleans)
            && counts == (broken != Broken::Counts)
            && whole == (broken == Broken::Nothing),
    )
}

fn is_judged(
    alloc: Global,
    c: &Description,
    behind: &str,
    broken: Broken,
) -> Result<bool, NoMemory> {
    let mut text = Vec::new(alloc);
    text.extend_from_slice(BEGIN.as_bytes())?;
    text.extend_from_slice(behind.as_bytes())?;
    match read_trace(alloc, text.as_slice()) {
        Ok(trace) => is_broken(alloc, c, trace.records(), broken),
        Err(_) => Err(NoMemory),
    }
}

// The first trace of which another verdict is given.
fn first_other(alloc: Global, c: &Description) -> Result<Option<usize>, NoMemory> {
    for (row, (behind, broken)) in TRACES.iter().enumerate() {
        if !is_judged(alloc, c, behind, *broken)? {
            return Ok(Some(row));
        }
    }
    Ok(None)
}

fn first_misjudged(alloc: Global) -> Result<Option<usize>, NoMemory> {
    match read_description(alloc, CLUSTER.as_bytes()) {
        Ok(c) => first_other(alloc, &c),
        Err(_) => Err(NoMemory),
    }
}

#[test]
fn moves_of_blocks_are_judged(rt: HostRuntime) -> Result<(), Fail> {
    assert_eq!(rt; first_misjudged(rt.alloc())?, None);
    Ok(())
}
