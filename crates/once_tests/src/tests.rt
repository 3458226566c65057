use calls_once::calls_are_once;
use process_machine::{Call, Reply};
use sprite_ids::{Bytes, Kernel, NoMemory, Pid};
use std::alloc::Global;
use std::test::Fail;
use unix_calls::{Entry, Event, Part, Rec};

// What a process does with one of its calls, and the call's number: `getpid` is issued, entered, and returns; a death.
#[derive(Clone, Copy)]
enum Act {
    Issue(u32),
    Enter(u32),
    Return(u32),
    Death(u32),
}

// What processes do, each by the birth of its process, and whether each call is once.
const TRACES: [(&[(u8, Act)], bool); 10] = [
    (&[], true),
    (&[(1, Act::Issue(1))], true),
    (
        &[
            (1, Act::Issue(1)),
            (2, Act::Issue(1)),
            (1, Act::Enter(1)),
            (1, Act::Return(1)),
            (1, Act::Issue(2)),
            (2, Act::Enter(1)),
        ],
        true,
    ),
    (&[(1, Act::Issue(2))], false),
    (&[(1, Act::Issue(1)), (1, Act::Return(1))], false),
    (&[(1, Act::Enter(1))], false),
    (
        &[(1, Act::Issue(1)), (1, Act::Enter(1)), (1, Act::Enter(1))],
        false,
    ),
    (&[(1, Act::Issue(1)), (2, Act::Enter(1))], false),
    (&[(1, Act::Death(1))], true),
    (&[(1, Act::Death(1)), (1, Act::Issue(1))], false),
];

fn reply(alloc: Global) -> Reply {
    Reply::Value {
        first: 1001,
        second: 0,
        bytes: Bytes::new(alloc),
    }
}

fn entry(alloc: Global, pid: Pid, number: u32) -> Entry {
    Entry {
        pid,
        number,
        part: Part::Whole,
        call: Some(Call::Getpid),
        reply: Some(reply(alloc)),
    }
}

fn death(pid: Pid, number: u32) -> Entry {
    Entry {
        pid,
        number,
        part: Part::Death,
        call: None,
        reply: None,
    }
}

fn event(alloc: Global, pid: Pid, act: Act) -> Event {
    match act {
        Act::Issue(number) => Event::Issue {
            pid,
            number,
            call: Call::Getpid,
        },
        Act::Enter(number) => Event::Enter {
            entry: entry(alloc, pid, number),
        },
        Act::Return(number) => Event::Return {
            pid,
            number,
            reply: reply(alloc),
        },
        Act::Death(number) => Event::Enter {
            entry: death(pid, number),
        },
    }
}

fn record(alloc: Global, birth: u8, act: Act) -> Result<Rec, NoMemory> {
    let kernel = Kernel::new(1).ok_or(NoMemory)?;
    let pid = Pid::new(kernel, u32::from(birth)).ok_or(NoMemory)?;
    Ok(Rec {
        kernel,
        event: event(alloc, pid, act),
    })
}

fn trace(alloc: Global, acts: &[(u8, Act)]) -> Result<Vec<Rec>, NoMemory> {
    let mut records = Vec::new(alloc);
    for act in acts {
        records.push(record(alloc, act.0, act.1)?)?;
    }
    Ok(records)
}

// The first of the traces of which something else is told.
fn first_other(alloc: Global) -> Result<Option<usize>, NoMemory> {
    for (place, row) in TRACES.iter().enumerate() {
        let records = trace(alloc, row.0)?;
        if calls_are_once(alloc, records.as_slice())? != row.1 {
            return Ok(Some(place));
        }
    }
    Ok(None)
}

#[test]
fn traces_are_told(rt: HostRuntime) -> Result<(), Fail> {
    assert_eq!(rt; first_other(rt.alloc())?, None);
    Ok(())
}
