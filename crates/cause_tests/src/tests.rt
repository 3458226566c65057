ghost use Rattle.unix_calls.specs.Lawful.{Lawful};

use cause_judge::are_for_cause;
use cluster_file::read_description;
use link_plan::Fate;
use process_machine::{Call, Reply};
use sprite_ids::{Errno, Kernel, NoMemory, Pid, TxNo};
use sprite_paths::Path;
use std::alloc::Global;
use std::test::Fail;
use unix_calls::{About, Description, Entry, Event, Part, Rec, SendKind};

// A client, and the server of all names.
const CLUSTER: &str =
    "version = 1\n[[kernel]]\nname = \"c1\"\n[[kernel]]\nname = \"s1\"\nserves = [\"/\"]\n[[program]]\nname = \"p\"\ntext = '''\nsys exit 0\n'''\n[[start]]\nhost = \"c1\"\nprogram = \"p\"\n";

// What the client does for its one process, or what the link does between it and the server.
#[derive(Clone, Copy)]
enum Step {
    /// It sends an echo to the server, for the sake of the call of that number.
    Echo(u32),
    /// It asks the server who serves `/`, for the sake of that call.
    Ask(u32),
    /// It asks itself so.
    AskItself(u32),
    /// So many packets are lost, and each time the try is over and another one begins.
    LostTries(u8),
    /// A packet is lost.
    Loss,
    /// A try is over, and another one begins.
    Try,
    /// The last try is over.
    LastTry,
    /// The server's reply comes.
    Reply,
    /// That call is entered: the server is unreachable.
    Unreachable(u32),
    /// That call is entered, with another error.
    NoEntry(u32),
}

// What is done, and whether the server is called unreachable only for a cause.
type Told = (&'static [Step], bool);

const COUNT: usize = 15;

static TRACES: [Told; COUNT] = [
    (&[], true),
    (&[Step::NoEntry(1)], true),
    (&[Step::Unreachable(1)], false),
    (
        &[
            Step::Echo(1),
            Step::LostTries(7),
            Step::Loss,
            Step::LastTry,
            Step::Unreachable(1),
        ],
        true,
    ),
    (
        &[
            Step::Ask(1),
            Step::LostTries(7),
            Step::Loss,
            Step::LastTry,
            Step::NoEntry(2),
            Step::Unreachable(1),
        ],
        true,
    ),
    // Client and server lose eight packets, and no kernel serves `/` but the server.
    (
        &[
            Step::AskItself(1),
            Step::LostTries(7),
            Step::Loss,
            Step::LastTry,
            Step::Unreachable(1),
        ],
        false,
    ),
    // Seven packets are lost.
    (
        &[
            Step::Echo(1),
            Step::LostTries(7),
            Step::LastTry,
            Step::Unreachable(1),
        ],
        false,
    ),
    // A reply comes.
    (
        &[
            Step::Echo(1),
            Step::LostTries(7),
            Step::Reply,
            Step::Loss,
            Step::LastTry,
            Step::Unreachable(1),
        ],
        false,
    ),
    // It comes too late.
    (
        &[
            Step::Echo(1),
            Step::LostTries(7),
            Step::Loss,
            Step::LastTry,
            Step::Reply,
            Step::Unreachable(1),
        ],
        true,
    ),
    // The send is for the sake of another call.
    (
        &[
            Step::Echo(2),
            Step::LostTries(7),
            Step::Loss,
            Step::LastTry,
            Step::Unreachable(1),
        ],
        false,
    ),
    // The eighth try isn't the last one.
    (
        &[Step::Echo(1), Step::LostTries(8), Step::Unreachable(1)],
        false,
    ),
    // The seventh is.
    (
        &[
            Step::Echo(1),
            Step::LostTries(6),
            Step::Loss,
            Step::Loss,
            Step::LastTry,
            Step::Unreachable(1),
        ],
        false,
    ),
    // The ninth is.
    (
        &[
            Step::Echo(1),
            Step::LostTries(7),
            Step::Try,
            Step::Loss,
            Step::LastTry,
            Step::Unreachable(1),
        ],
        false,
    ),
    // The cause comes behind the entry.
    (
        &[
            Step::Unreachable(1),
            Step::Echo(1),
            Step::LostTries(7),
            Step::Loss,
            Step::LastTry,
        ],
        false,
    ),
    // An earlier call has a cause, and this one hasn't.
    (
        &[
            Step::Echo(1),
            Step::LostTries(7),
            Step::Loss,
            Step::LastTry,
            Step::Unreachable(1),
            Step::Unreachable(2),
        ],
        false,
    ),
];

fn client() -> Result<Kernel, NoMemory> {
    Kernel::new(1).ok_or(NoMemory)
}

fn server() -> Result<Kernel, NoMemory> {
    Kernel::new(2).ok_or(NoMemory)
}

fn process() -> Result<Pid, NoMemory> {
    Pid::new(client()?, 1).ok_or(NoMemory)
}

fn send(to: Kernel, number: u32, kind: SendKind) -> Result<Event, NoMemory> {
    let pid = process()?;
    Ok(Event::Send {
        tx: TxNo(1),
        to,
        about: Some(About { pid, number }),
        kind,
    })
}

fn ask(alloc: Global, to: Kernel, number: u32) -> Result<Event, NoMemory> {
    let prefix = Path::root(alloc);
    send(to, number, SendKind::Broadcast { prefix })
}

fn loss() -> Result<Event, NoMemory> {
    Ok(Event::Fault {
        a: client()?,
        b: server()?,
        fate: Fate::Lost,
    })
}

fn over(last: bool) -> Event {
    Event::Expire { tx: TxNo(1), last }
}

fn reply() -> Result<Event, NoMemory> {
    Ok(Event::Deliver {
        tx: TxNo(1),
        from: server()?,
        reply: true,
        about: None,
    })
}

fn refusal(number: u32, errno: Errno) -> Result<Event, NoMemory> {
    let entry = Entry {
        pid: process()?,
        number,
        part: Part::Whole,
        call: Some(Call::Tick),
        reply: Some(Reply::Error(errno)),
    };
    Ok(Event::Enter { entry })
}

fn event(alloc: Global, step: Step) -> Result<Event, NoMemory> {
    match step {
        Step::Echo(number) => send(server()?, number, SendKind::Other),
        Step::Ask(number) => ask(alloc, server()?, number),
        Step::AskItself(number) => ask(alloc, client()?, number),
        Step::LostTries(_) | Step::Loss => loss(),
        Step::Try => Ok(over(false)),
        Step::LastTry => Ok(over(true)),
        Step::Reply => reply(),
        Step::Unreachable(number) => refusal(number, Errno::Unreachable),
        Step::NoEntry(number) => refusal(number, Errno::NoEntry),
    }
}

fn record(alloc: Global, step: Step) -> Result<Rec, NoMemory> {
    let kernel = client()?;
    let event = event(alloc, step)?;
    Ok(Rec { kernel, event })
}

fn push_record(alloc: Global, records: &mut Vec<Rec>, step: Step) -> Result<(), NoMemory> {
    records.push(record(alloc, step)?)?;
    Ok(())
}

fn push_lost_tries(alloc: Global, records: &mut Vec<Rec>, count: u8) -> Result<(), NoMemory> {
    for _ in 0..count {
        push_record(alloc, records, Step::Loss)?;
        push_record(alloc, records, Step::Try)?;
    }
    Ok(())
}

fn push_step(alloc: Global, records: &mut Vec<Rec>, step: Step) -> Result<(), NoMemory> {
    match step {
        Step::LostTries(count) => push_lost_tries(alloc, records, count),
        _ => push_record(alloc, records, step),
    }
}

fn trace(alloc: Global, steps: &[Step]) -> Result<Vec<Rec>, NoMemory> {
    let mut records = Vec::new(alloc);
    for step in steps {
        push_step(alloc, &mut records, *step)?;
    }
    Ok(records)
}

fn is_told(
    alloc: Global,
    c: &Description,
    steps: &[Step],
    for_cause: bool,
) -> Result<bool, NoMemory>
    requires lawful { Lawful c.now }
{
    let records = trace(alloc, steps)?;
    Ok(are_for_cause(c, records.as_slice()) == for_cause)
}

// The first of the traces of which something else is told.
fn first_of(alloc: Global, c: &Description, traces: &[Told]) -> Result<Option<usize>, NoMemory>
    requires lawful { Lawful c.now }
{
    for (place, row) in traces.iter().enumerate() {
        if !is_told(alloc, c, row.0, row.1)? {
            return Ok(Some(place));
        }
    }
    Ok(None)
}

fn first_of_all(alloc: Global, c: &Description) -> Result<Option<usize>, NoMemory>
    requires lawful { Lawful c.now }
{
    first_of(alloc, c, &TRACES)
}

fn first_other(alloc: Global, file: &[u8]) -> Result<Option<usize>, NoMemory> {
    match read_description(alloc, file) {
        Ok(cluster) => first_of_all(alloc, &cluster),
        Err(_) => Ok(Some(COUNT)),
    }
}

#[test]
fn traces_are_told(rt: HostRuntime) -> Result<(), Fail> {
    assert_eq!(rt; first_other(rt.alloc(), CLUSTER.as_bytes())?, None);
    Ok(())
}
