use packet_worth::deliveries_are_few;
use sprite_ids::NoMemory;
use std::alloc::Global;
use std::test::Fail;
use trace_text::read_trace;

// Kernel 1 sends request 7 to kernel 2; two copies of it are delivered, and two of the reply to each.
const SIX: &str =
    "1 Send 7 2 - other\n2 Deliver 7 1 0 -\n2 Deliver 7 1 0 -\n1 Deliver 7 2 1 -\n1 Deliver 7 2 1 -\n1 Deliver 7 2 1 -\n1 Deliver 7 2 1 -\n";

// What comes with these, and whether all deliveries are few then.
const ROWS: usize = 15;

static BESIDE: [(&str, bool); ROWS] = [
    ("", true),
    // a seventh
    ("1 Deliver 7 2 1 -\n", false),
    ("2 Deliver 7 1 0 -\n", false),
    // the request went out again, or to that kernel once more
    ("1 Expire 7 0\n1 Deliver 7 2 1 -\n", true),
    ("1 Deliver 7 2 1 -\n1 Expire 7 1\n", true),
    ("1 Deliver 7 2 1 -\n1 Send 7 2 - other\n", true),
    // another one did, or to another kernel
    ("1 Expire 8 0\n1 Deliver 7 2 1 -\n", false),
    ("1 Send 7 3 - other\n1 Deliver 7 2 1 -\n", false),
    ("1 Send 8 2 - other\n1 Deliver 7 2 1 -\n", false),
    // each receiver has its own
    (
        "1 Send 7 3 - other\n3 Deliver 7 1 0 -\n1 Deliver 7 3 1 -\n",
        true,
    ),
    // no request went out
    ("3 Deliver 7 1 0 -\n", false),
    ("1 Deliver 7 3 1 -\n", false),
    ("2 Deliver 8 1 0 -\n", false),
    // six more for one further try, but not seven
    (
        "1 Expire 7 0\n2 Deliver 7 1 0 -\n2 Deliver 7 1 0 -\n1 Deliver 7 2 1 -\n1 Deliver 7 2 1 -\n1 Deliver 7 2 1 -\n1 Deliver 7 2 1 -\n",
        true,
    ),
    (
        "1 Expire 7 0\n2 Deliver 7 1 0 -\n2 Deliver 7 1 0 -\n1 Deliver 7 2 1 -\n1 Deliver 7 2 1 -\n1 Deliver 7 2 1 -\n1 Deliver 7 2 1 -\n1 Deliver 7 2 1 -\n",
        false,
    ),
];

fn joined(alloc: Global, beside: &str) -> Result<Vec<u8>, NoMemory> {
    let mut text = Vec::new(alloc);
    text.extend_from_slice(SIX.as_bytes())?;
    text.extend_from_slice(beside.as_bytes())?;
    Ok(text)
}

fn are_few(alloc: Global, text: &[u8]) -> Result<bool, NoMemory> {
    match read_trace(alloc, text) {
        Ok(trace) => deliveries_are_few(alloc, trace.records()),
        Err(_) => Err(NoMemory),
    }
}

fn is_judged(alloc: Global, beside: &str, few: bool) -> Result<bool, NoMemory> {
    let text = joined(alloc, beside)?;
    Ok(are_few(alloc, text.as_slice())? == few)
}

// The first row of which another verdict is given.
fn first_other(alloc: Global) -> Result<Option<usize>, NoMemory> {
    for (row, (beside, few)) in BESIDE.iter().enumerate() {
        if !is_judged(alloc, beside, *few)? {
            return Ok(Some(row));
        }
    }
    Ok(None)
}

#[test]
fn deliveries_are_judged(rt: HostRuntime) -> Result<(), Fail> {
    assert_eq!(rt; first_other(rt.alloc())?, None);
    Ok(())
}
