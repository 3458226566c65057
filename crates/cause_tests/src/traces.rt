use call_journal::Trace;
use process_machine::{Call, Reply};
use sprite_ids::{Bytes, Kernel, NoMemory, Pid};
use std::alloc::Global;
use std::test::Fail;
use unix_calls::{Entry, Event, Part, Rec};

// The records of a burst, a print of 65 bytes, and a freeze.
fn printed(alloc: Global, kernel: Kernel, pid: Pid) -> Result<Trace, NoMemory> {
    let mut trace = Trace::new(alloc);
    trace.push(Rec {
        kernel,
        event: Event::Burst { pid, count: 3 },
    })?;
    let entry = Entry {
        pid,
        number: 1,
        part: Part::Whole,
        call: Some(Call::Print {
            bytes: Bytes::of_slice(alloc, &[b'x'; 65])?,
        }),
        reply: Some(Reply::Value {
            first: 0,
            second: 0,
            bytes: Bytes::new(alloc),
        }),
    };
    trace.push(Rec {
        kernel,
        event: Event::Enter { entry },
    })?;
    trace.push(Rec {
        kernel,
        event: Event::Freeze { pid },
    })?;
    Ok(trace)
}

// Two records cost a unit each; the entry of 65 bytes costs two more than that.
#[test]
fn counts_units_and_kinds(rt: HostRuntime) -> Result<(), Fail> {
    let alloc = rt.alloc();
    let Some(kernel) = Kernel::new(1) else {
        return Ok(());
    };
    let Some(pid) = Pid::new(kernel, 1) else {
        return Ok(());
    };
    let trace = printed(alloc, kernel, pid)?;
    assert_eq!(rt; trace.records().len(), 3);
    assert_eq!(rt; trace.units(), 5);
    let counts = trace.counts();
    assert_eq!(rt;
        [counts[0], counts[2], counts[19], counts[20]],
        [1, 1, 1, 0]
    );
    assert_eq!(rt; trace.journal(alloc)?.len(), 1);
    Ok(())
}
