ghost use Rattle.unix_calls.specs.Lawful.{Lawful};

use cluster_file::read_description;
use kill_worth::{killed_processes_are_silent, kills_are_heeded, kills_are_told};
use sprite_ids::NoMemory;
use std::alloc::Global;
use std::test::Fail;
use trace_text::read_trace;
use unix_calls::{Description, Rec};

// A client, where two processes begin, a server, and a second client, where one begins.
const CLUSTER: &str =
    "version = 1\n[[kernel]]\nname = \"c1\"\n[[kernel]]\nname = \"s1\"\nserves = [\"/\"]\n[[kernel]]\nname = \"c2\"\n[[program]]\nname = \"p\"\ntext = '''\npages 1\nsys exit 0\n'''\n[[start]]\nhost = \"c1\"\nprogram = \"p\"\n[[start]]\nhost = \"c1\"\nprogram = \"p\"\n[[start]]\nhost = \"c2\"\nprogram = \"p\"\n";

const ROWS: usize = 61;

// Traces, whether their kills are told, and whether the killed processes are silent.
static TRACES: [(&str, bool, bool); ROWS] = [
    // Where a process is away from its home at its first kill, its kernel is told before the home's next step.
    ("", true, true),
    (
        "1 Enter 1002 2 whole kill 1001 -> ok 0 0 \"\"\n",
        true,
        true,
    ),
    (
        "1 Freeze 1001\n3 Thaw 1001\n1 Enter 1002 2 whole kill 1001 -> ok 0 0 \"\"\n",
        false,
        true,
    ),
    (
        "1 Freeze 1001\n3 Thaw 1001\n1 Enter 1002 2 whole kill 1001 -> ok 0 0 \"\"\n1 Send 9 3 1002/2 other\n",
        true,
        true,
    ),
    (
        "1 Freeze 1001\n3 Thaw 1001\n1 Enter 1002 2 whole kill 1001 -> ok 0 0 \"\"\n1 Burst 1002 5\n1 Send 9 3 1002/2 other\n",
        false,
        true,
    ),
    (
        "1 Freeze 1001\n3 Thaw 1001\n1 Enter 1002 2 whole kill 1001 -> ok 0 0 \"\"\n3 Burst 1001 5\n1 Send 9 3 1002/2 other\n",
        true,
        true,
    ),
    (
        "1 Freeze 1001\n3 Thaw 1001\n1 Enter 1002 2 whole kill 1001 -> ok 0 0 \"\"\n1 Expire 4 0\n1 Send 9 3 1002/2 other\n",
        false,
        true,
    ),
    (
        "1 Freeze 1001\n3 Thaw 1001\n1 Enter 1002 2 whole kill 1001 -> ok 0 0 \"\"\n2 Expire 4 0\n1 Send 9 3 1002/2 other\n",
        true,
        true,
    ),
    (
        "1 Freeze 1001\n3 Thaw 1001\n1 Enter 1002 2 whole kill 1001 -> ok 0 0 \"\"\n1 Deliver 4 2 1 1002/1\n1 Send 9 3 1002/2 other\n",
        false,
        true,
    ),
    (
        "1 Freeze 1001\n3 Thaw 1001\n1 Enter 1002 2 whole kill 1001 -> ok 0 0 \"\"\n1 Issue 1002 3 tick\n1 Send 9 3 1002/2 other\n",
        true,
        true,
    ),
    (
        "1 Freeze 1001\n3 Thaw 1001\n1 Enter 1002 2 whole kill 1001 -> ok 0 0 \"\"\n1 Send 9 3 1002/2 other\n1 Burst 1002 5\n",
        true,
        true,
    ),
    (
        "1 Freeze 1001\n3 Thaw 1001\n1 Enter 1002 2 whole kill 1001 -> ok 0 0 \"\"\n1 Send 9 2 1002/2 other\n",
        false,
        true,
    ),
    (
        "1 Freeze 1001\n3 Thaw 1001\n1 Enter 1002 2 whole kill 1001 -> ok 0 0 \"\"\n1 Send 9 3 1002/3 other\n",
        false,
        true,
    ),
    (
        "1 Freeze 1001\n3 Thaw 1001\n1 Enter 1002 2 whole kill 1001 -> ok 0 0 \"\"\n1 Send 9 3 1001/2 other\n",
        false,
        true,
    ),
    (
        "1 Freeze 1001\n3 Thaw 1001\n1 Enter 1002 2 whole kill 1001 -> ok 0 0 \"\"\n1 Send 9 3 - other\n",
        false,
        true,
    ),
    (
        "1 Freeze 1001\n3 Thaw 1001\n1 Enter 1002 2 whole kill 1001 -> ok 0 0 \"\"\n2 Send 9 3 1002/2 other\n",
        false,
        true,
    ),
    (
        "1 Freeze 1001\n3 Thaw 1001\n1 Send 9 3 1002/2 other\n1 Enter 1002 2 whole kill 1001 -> ok 0 0 \"\"\n",
        false,
        true,
    ),
    (
        "1 Freeze 1001\n1 Enter 1002 2 whole kill 1001 -> ok 0 0 \"\"\n",
        true,
        true,
    ),
    (
        "1 Freeze 1001\n3 Thaw 1001\n3 Freeze 1001\n1 Thaw 1001\n1 Enter 1002 2 whole kill 1001 -> ok 0 0 \"\"\n",
        true,
        true,
    ),
    (
        "1 Freeze 1001\n3 Thaw 1001\n1 Enter 1002 2 whole kill 1001 -> err 14\n",
        true,
        true,
    ),
    (
        "1 Freeze 1001\n3 Thaw 1001\n1 Enter 1002 2 whole kill 1001 -> ok 0 0 \"\"\n1 Send 9 3 1002/2 other\n1 Enter 1002 3 whole kill 1001 -> ok 0 0 \"\"\n",
        true,
        true,
    ),
    (
        "1 Enter 1002 2 whole kill 1001 -> ok 0 0 \"\"\n1 Freeze 1001\n3 Thaw 1001\n1 Enter 1002 3 whole kill 1001 -> ok 0 0 \"\"\n",
        true,
        true,
    ),
    (
        "1 Freeze 1001\n3 Thaw 1001\n1 Freeze 1002\n3 Thaw 1002\n1 Enter 3001 1 whole kill 1001 -> ok 0 0 \"\"\n1 Enter 3001 1 whole kill 1002 -> ok 0 0 \"\"\n1 Send 9 3 3001/1 other\n",
        true,
        true,
    ),
    (
        "1 Freeze 1001\n3 Thaw 1001\n1 Freeze 1002\n2 Thaw 1002\n1 Enter 3001 1 whole kill 1001 -> ok 0 0 \"\"\n1 Enter 3001 1 whole kill 1002 -> ok 0 0 \"\"\n1 Send 9 3 3001/1 other\n",
        false,
        true,
    ),
    (
        "1 Freeze 1001\n3 Thaw 1001\n1 Freeze 1002\n2 Thaw 1002\n1 Enter 3001 1 whole kill 1001 -> ok 0 0 \"\"\n1 Enter 3001 1 whole kill 1002 -> ok 0 0 \"\"\n1 Send 9 3 3001/1 other\n1 Send 10 2 3001/1 other\n",
        true,
        true,
    ),
    (
        "1 Freeze 1001\n3 Thaw 1001\n1 Freeze 1002\n3 Thaw 1002\n1 Enter 3001 1 whole kill 1001 -> ok 0 0 \"\"\n1 Send 9 3 3001/1 other\n1 Enter 3001 1 whole kill 1002 -> ok 0 0 \"\"\n",
        false,
        true,
    ),
    (
        "1 Freeze 1001\n3 Thaw 1001\n1 Enter 1001 1 whole fork -> ok 1003 0 \"\"\n1 Enter 1002 2 whole kill 1003 -> ok 0 0 \"\"\n",
        false,
        true,
    ),
    (
        "1 Enter 1001 1 whole fork -> ok 1003 0 \"\"\n1 Enter 1002 2 whole kill 1003 -> ok 0 0 \"\"\n",
        true,
        true,
    ),
    (
        "1 Freeze 1001\n3 Thaw 1001\n1 Enter 1002 2 whole kill 1001 -> ok 0 0 \"\"\n1 Send 9 3 1002/2 other\n3 Enter 1002 4 whole kill 3001 -> ok 0 0 \"\"\n",
        true,
        true,
    ),
    // At its home a killed process issues no call.
    (
        "1 Enter 1002 2 whole kill 1001 -> ok 0 0 \"\"\n1 Issue 1001 4 tick\n",
        true,
        false,
    ),
    (
        "1 Issue 1001 4 tick\n1 Enter 1002 2 whole kill 1001 -> ok 0 0 \"\"\n",
        true,
        true,
    ),
    (
        "1 Enter 1002 2 whole kill 1001 -> ok 0 0 \"\"\n1 Issue 1002 3 tick\n",
        true,
        true,
    ),
    (
        "1 Enter 1002 2 whole kill 1001 -> err 14\n1 Issue 1001 4 tick\n",
        true,
        true,
    ),
    (
        "1 Enter 1002 2 whole kill 1001 -> ok 0 0 \"\"\n3 Issue 1001 4 tick\n",
        true,
        true,
    ),
    (
        "1 Freeze 1001\n3 Thaw 1001\n1 Enter 1002 2 whole kill 1001 -> ok 0 0 \"\"\n1 Send 9 3 1002/2 other\n1 Issue 1001 4 tick\n",
        true,
        false,
    ),
    // Elsewhere it issues none from the first taking on of a request there that tells of the kill, where it is.
    (
        "1 Freeze 1001\n3 Thaw 1001\n1 Enter 1002 2 whole kill 1001 -> ok 0 0 \"\"\n1 Send 9 3 1002/2 other\n3 Issue 1001 4 tick\n",
        true,
        true,
    ),
    (
        "1 Freeze 1001\n3 Thaw 1001\n1 Enter 1002 2 whole kill 1001 -> ok 0 0 \"\"\n1 Send 9 3 1002/2 other\n3 Deliver 9 1 0 1002/2\n3 Issue 1001 4 tick\n",
        true,
        false,
    ),
    (
        "1 Freeze 1001\n3 Thaw 1001\n1 Enter 1002 2 whole kill 1001 -> ok 0 0 \"\"\n1 Send 9 3 1002/2 other\n3 Deliver 9 1 0 1002/2\n",
        true,
        true,
    ),
    (
        "1 Freeze 1001\n3 Thaw 1001\n1 Enter 1002 2 whole kill 1001 -> ok 0 0 \"\"\n1 Send 9 3 1002/2 other\n3 Issue 1001 4 tick\n3 Deliver 9 1 0 1002/2\n",
        true,
        true,
    ),
    (
        "1 Freeze 1001\n3 Thaw 1001\n1 Enter 1002 2 whole kill 1001 -> ok 0 0 \"\"\n1 Send 9 3 1002/2 other\n3 Deliver 9 1 0 1002/2\n3 Issue 3001 1 tick\n",
        true,
        true,
    ),
    (
        "1 Freeze 1001\n3 Thaw 1001\n1 Enter 1002 2 whole kill 1001 -> ok 0 0 \"\"\n1 Send 9 3 1002/2 other\n3 Deliver 9 1 1 1002/2\n3 Issue 1001 4 tick\n",
        true,
        true,
    ),
    (
        "1 Freeze 1001\n3 Thaw 1001\n1 Enter 1002 2 whole kill 1001 -> ok 0 0 \"\"\n1 Send 9 3 1002/2 other\n3 Deliver 8 1 0 1002/2\n3 Issue 1001 4 tick\n",
        true,
        true,
    ),
    (
        "1 Freeze 1001\n3 Thaw 1001\n1 Enter 1002 2 whole kill 1001 -> ok 0 0 \"\"\n1 Send 9 3 1002/2 other\n2 Deliver 9 1 0 1002/2\n3 Issue 1001 4 tick\n",
        true,
        true,
    ),
    (
        "1 Freeze 1001\n3 Thaw 1001\n1 Enter 1002 2 whole kill 1001 -> ok 0 0 \"\"\n1 Send 9 3 1002/2 other\n3 Deliver 9 2 0 -\n3 Issue 1001 4 tick\n",
        true,
        false,
    ),
    (
        "3 Deliver 9 1 0 1002/2\n1 Freeze 1001\n3 Thaw 1001\n1 Enter 1002 2 whole kill 1001 -> ok 0 0 \"\"\n1 Send 9 3 1002/2 other\n3 Deliver 9 1 0 1002/2\n3 Issue 1001 4 tick\n",
        true,
        true,
    ),
    (
        "1 Freeze 1001\n3 Thaw 1001\n1 Enter 1002 2 whole kill 1001 -> ok 0 0 \"\"\n1 Send 9 3 1002/2 other\n2 Deliver 9 1 0 1002/2\n3 Deliver 9 1 0 1002/2\n3 Issue 1001 4 tick\n",
        true,
        false,
    ),
    (
        "1 Freeze 1001\n3 Thaw 1001\n1 Enter 1002 2 whole kill 1001 -> ok 0 0 \"\"\n3 Deliver 9 1 0 1002/2\n1 Send 9 3 1002/2 other\n3 Issue 1001 4 tick\n",
        true,
        true,
    ),
    (
        "1 Freeze 1001\n3 Thaw 1001\n1 Send 9 3 1002/2 other\n1 Enter 1002 2 whole kill 1001 -> ok 0 0 \"\"\n3 Deliver 9 1 0 1002/2\n1 Send 9 3 1002/2 other\n3 Issue 1001 4 tick\n",
        true,
        true,
    ),
    (
        "1 Freeze 1001\n3 Thaw 1001\n1 Enter 1002 2 whole kill 1001 -> ok 0 0 \"\"\n1 Send 9 3 1002/2 other\n3 Freeze 1001\n3 Deliver 9 1 0 1002/2\n3 Thaw 1001\n3 Issue 1001 4 tick\n",
        true,
        true,
    ),
    (
        "1 Freeze 1001\n3 Thaw 1001\n1 Enter 1002 2 whole kill 1001 -> ok 0 0 \"\"\n1 Send 9 3 1002/2 other\n3 Freeze 1001\n3 Thaw 1001\n3 Deliver 9 1 0 1002/2\n3 Issue 1001 4 tick\n",
        true,
        false,
    ),
    (
        "1 Freeze 1001\n3 Thaw 1001\n1 Enter 1002 2 whole kill 1001 -> ok 0 0 \"\"\n1 Send 9 3 1002/2 other\n3 Deliver 9 1 0 1002/2\n3 Freeze 1001\n2 Thaw 1001\n2 Issue 1001 4 tick\n",
        true,
        true,
    ),
    (
        "1 Freeze 1001\n3 Thaw 1001\n1 Enter 1002 2 whole kill 1001 -> ok 0 0 \"\"\n1 Send 9 3 1002/2 other\n3 Deliver 9 1 0 1002/2\n3 Freeze 1001\n2 Thaw 1001\n2 Freeze 1001\n3 Thaw 1001\n3 Issue 1001 4 tick\n",
        true,
        false,
    ),
    (
        "1 Freeze 1001\n3 Thaw 1001\n1 Enter 1002 2 whole kill 1001 -> ok 0 0 \"\"\n1 Send 9 3 1002/2 other\n1 Enter 1002 3 whole kill 1001 -> ok 0 0 \"\"\n1 Send 10 3 1002/3 other\n3 Deliver 10 1 0 1002/3\n3 Issue 1001 4 tick\n",
        true,
        true,
    ),
    (
        "1 Freeze 1001\n3 Thaw 1001\n1 Enter 1002 2 whole kill 1001 -> ok 0 0 \"\"\n2 Send 8 3 1002/2 other\n1 Send 9 3 1002/2 other\n3 Deliver 8 2 0 1002/2\n3 Issue 1001 4 tick\n",
        true,
        true,
    ),
    (
        "1 Freeze 1001\n3 Thaw 1001\n1 Freeze 1002\n3 Thaw 1002\n1 Enter 3001 1 whole kill 1001 -> ok 0 0 \"\"\n1 Send 9 3 3001/1 other\n1 Enter 3001 1 whole kill 1002 -> ok 0 0 \"\"\n1 Send 10 3 3001/1 other\n3 Deliver 9 1 0 3001/1\n3 Issue 1002 4 tick\n",
        true,
        true,
    ),
    (
        "1 Freeze 1001\n3 Thaw 1001\n1 Freeze 1002\n3 Thaw 1002\n1 Enter 3001 1 whole kill 1001 -> ok 0 0 \"\"\n1 Send 9 3 3001/1 other\n1 Enter 3001 1 whole kill 1002 -> ok 0 0 \"\"\n1 Send 10 3 3001/1 other\n3 Deliver 9 1 0 3001/1\n3 Issue 1001 4 tick\n",
        true,
        false,
    ),
    (
        "1 Freeze 1001\n3 Thaw 1001\n1 Freeze 1002\n3 Thaw 1002\n1 Enter 3001 1 whole kill 1001 -> ok 0 0 \"\"\n1 Send 9 3 3001/1 other\n1 Enter 3001 1 whole kill 1002 -> ok 0 0 \"\"\n1 Send 10 3 3001/1 other\n3 Deliver 10 1 0 3001/1\n3 Issue 1002 4 tick\n",
        true,
        false,
    ),
    (
        "1 Freeze 1001\n3 Thaw 1001\n1 Freeze 1002\n3 Thaw 1002\n1 Enter 3001 1 whole kill 1001 -> ok 0 0 \"\"\n1 Enter 3001 1 whole kill 1002 -> ok 0 0 \"\"\n1 Send 9 3 3001/1 other\n3 Deliver 9 1 0 3001/1\n3 Issue 1002 4 tick\n",
        true,
        false,
    ),
    (
        "1 Freeze 1001\n3 Thaw 1001\n1 Freeze 1002\n3 Thaw 1002\n1 Enter 3001 1 whole kill 1001 -> ok 0 0 \"\"\n1 Enter 3001 2 whole kill 1002 -> ok 0 0 \"\"\n1 Send 9 3 3001/1 other\n1 Send 9 3 3001/2 other\n3 Deliver 9 1 0 3001/2\n3 Issue 1001 4 tick\n",
        true,
        false,
    ),
    (
        "1 Freeze 1001\n3 Thaw 1001\n1 Freeze 1002\n3 Thaw 1002\n1 Enter 3001 1 whole kill 1001 -> ok 0 0 \"\"\n1 Enter 3001 2 whole kill 1002 -> ok 0 0 \"\"\n1 Send 9 3 3001/1 other\n1 Send 10 3 3001/2 other\n3 Deliver 10 1 0 3001/2\n3 Issue 1001 4 tick\n",
        true,
        true,
    ),
    // Both may be broken.
    (
        "1 Freeze 1001\n3 Thaw 1001\n1 Enter 1002 2 whole kill 1001 -> ok 0 0 \"\"\n1 Issue 1001 4 tick\n",
        false,
        false,
    ),
];

fn is_judged(
    alloc: Global,
    c: &Description,
    trace: &[Rec],
    told: bool,
    silent: bool,
) -> Result<bool, NoMemory>
    requires { Lawful c.now }
{
    let tells = kills_are_told(alloc, c, trace)?;
    let keeps = killed_processes_are_silent(alloc, c, trace)?;
    let heeds = kills_are_heeded(alloc, c, trace)?;
    Ok(tells == told && keeps == silent && heeds == (told && silent))
}

fn is_judged_so(
    alloc: Global,
    c: &Description,
    text: &str,
    told: bool,
    silent: bool,
) -> Result<bool, NoMemory>
    requires { Lawful c.now }
{
    match read_trace(alloc, text.as_bytes()) {
        Ok(trace) => is_judged(alloc, c, trace.records(), told, silent),
        Err(_) => Err(NoMemory),
    }
}

// The first trace of which another verdict is given.
fn first_other(alloc: Global, c: &Description) -> Result<Option<usize>, NoMemory>
    requires { Lawful c.now }
{
    for (row, (text, told, silent)) in TRACES.iter().enumerate() {
        if !is_judged_so(alloc, c, text, *told, *silent)? {
            return Ok(Some(row));
        }
    }
    Ok(None)
}

fn other_in_cluster(alloc: Global, file: &[u8]) -> Result<Option<usize>, NoMemory> {
    match read_description(alloc, file) {
        Ok(c) => first_other(alloc, &c),
        Err(_) => Err(NoMemory),
    }
}

#[test]
fn kills_are_judged(rt: HostRuntime) -> Result<(), Fail> {
    assert_eq!(rt; other_in_cluster(rt.alloc(), CLUSTER.as_bytes())?, None);
    Ok(())
}
