use process_machine::Reply;
use pseudo_device::{Answer, Ask, Device, PutEnd, TakeEnd};
use sprite_ids::{AskKind, Bytes, Errno, Kernel, Pid};
use std::alloc::Global;
use std::test::Fail;

// One call, with what it must answer. Asks are named by the numbers of their calls.
#[derive(Clone, Copy)]
enum Step {
    AddMaster,
    // The number, the length and the bytes.
    Ask(AskKind, u32, u32, &'static [u8]),
    Take(u32, Result<u32, TakeEnd>),
    // The number of the ask in hand, and the reply's first value.
    Put(&'static [u8], Option<Errno>, Result<(u32, u64), PutEnd>),
    // The asks that come back, and whether the device is then alive.
    DropMaster(&'static [u32], bool),
    Alive(bool),
}

static STEPS: [Step; 30] = [
    Step::Alive(false),
    Step::AddMaster,
    Step::Take(100, Err(TakeEnd::Empty)),
    Step::Put(b"", None, Err(PutEnd::Invalid)),
    Step::Ask(AskKind::Write, 1, 0, b"ping"),
    Step::Ask(AskKind::Read, 2, 4, b"\x04\0\0\0\0\0\0\0"),
    Step::Ask(AskKind::Ioctl, 3, 2, b"\x07\0\0\0\0\0\0\0ok"),
    Step::Take(3, Err(TakeEnd::Long)),
    Step::Take(4, Ok(1)),
    Step::Take(100, Err(TakeEnd::Busy)),
    Step::Put(b"x", None, Err(PutEnd::Invalid)),
    Step::Put(b"x", Some(Errno::NoServer), Err(PutEnd::Invalid)),
    Step::Put(b"", None, Ok((1, 4))),
    Step::Put(b"", None, Err(PutEnd::Invalid)),
    Step::Take(7, Err(TakeEnd::Long)),
    Step::Take(8, Ok(2)),
    Step::Put(b"PINGS", None, Err(PutEnd::Invalid)),
    Step::Put(b"PING", None, Ok((2, 4))),
    Step::Take(10, Ok(3)),
    Step::Put(b"", Some(Errno::Unreachable), Ok((3, 0))),
    Step::Take(10, Err(TakeEnd::Empty)),
    Step::Ask(AskKind::Ioctl, 4, 1, b"\0\0\0\0\0\0\0\0x"),
    Step::Ask(AskKind::Write, 5, 0, b""),
    Step::Take(9, Ok(4)),
    Step::AddMaster,
    Step::DropMaster(&[], true),
    Step::Put(b"y", None, Ok((4, 1))),
    Step::Take(0, Ok(5)),
    Step::Ask(AskKind::Write, 6, 0, b"z"),
    Step::DropMaster(&[5, 6], false),
];

// The ask of that call of process 1001.
fn ask_of(
    alloc: Global,
    kind: AskKind,
    number: u32,
    length: u32,
    bytes: &[u8],
) -> Result<Ask, Fail> {
    let home = Kernel::new(1).ok_or("kernel 1")?;
    Ok(Ask {
        pid: Pid::new(home, 1).ok_or("process 1001")?,
        number,
        fd: 0,
        kind,
        length,
        bytes: Bytes::of_slice(alloc, bytes)?,
    })
}

// Whether the answer is of that call, with that reply.
fn is_answer(answer: &Answer, bytes: &[u8], errno: Option<Errno>, number: u32, value: u64) -> bool {
    let replied = match &answer.reply {
        Reply::Value {
            first,
            second,
            bytes: given,
        } => errno.is_none() && *first == value && *second == 0 && given.as_slice() == bytes,
        Reply::Error(error) => errno == Some(*error),
    };
    replied && answer.ask.number == number
}

// Makes the call; true where it answers so.
fn does(alloc: Global, device: &mut Device, step: Step) -> Result<bool, Fail> {
    match step {
        Step::AddMaster => Ok(add_master(device)),
        Step::Ask(kind, number, length, bytes) => ask(alloc, device, kind, number, length, bytes),
        Step::Take(max, wanted) => Ok(take(device, max, wanted)),
        Step::Put(bytes, errno, wanted) => Ok(put(device, bytes, errno, wanted)),
        Step::DropMaster(numbers, alive) => drop_master(device, numbers, alive),
        Step::Alive(wanted) => Ok(device.alive() == wanted),
    }
}

fn add_master(device: &mut Device) -> bool {
    if !device.room() {
        return false;
    }
    device.add_master();
    device.alive()
}

fn ask(
    alloc: Global,
    device: &mut Device,
    kind: AskKind,
    number: u32,
    length: u32,
    bytes: &[u8],
) -> Result<bool, Fail> {
    if !device.alive() {
        return Ok(false);
    }
    device.ask(ask_of(alloc, kind, number, length, bytes)?)?;
    Ok(true)
}

fn take(device: &mut Device, max: u32, wanted: Result<u32, TakeEnd>) -> bool {
    match device.take(max) {
        Ok(ask) => wanted == Ok(ask.number),
        Err(end) => wanted == Err(end),
    }
}

fn put(
    device: &mut Device,
    bytes: &[u8],
    errno: Option<Errno>,
    wanted: Result<(u32, u64), PutEnd>,
) -> bool {
    match device.put(bytes, errno) {
        Ok(answer) => is_wanted(&answer, bytes, errno, wanted),
        Err(end) => wanted == Err(end),
    }
}

fn is_wanted(
    answer: &Answer,
    bytes: &[u8],
    errno: Option<Errno>,
    wanted: Result<(u32, u64), PutEnd>,
) -> bool {
    match wanted {
        Ok((number, value)) => is_answer(answer, bytes, errno, number, value),
        Err(_) => false,
    }
}

fn drop_master(device: &mut Device, numbers: &[u32], alive: bool) -> Result<bool, Fail> {
    if !device.alive() {
        return Ok(false);
    }
    let asks = device.drop_master()?;
    Ok(are_numbered(asks.as_slice(), numbers) && device.alive() == alive)
}

// Whether the asks are those of these calls, in this order.
fn are_numbered(asks: &[Ask], numbers: &[u32]) -> bool {
    for at in 0..asks.len() {
        if at >= numbers.len() || asks[at].number != numbers[at] {
            return false;
        }
    }
    asks.len() == numbers.len()
}

// The first step that answers otherwise.
fn first_wrong(alloc: Global, steps: &[Step]) -> Result<Option<usize>, Fail> {
    let mut device = Device::new(alloc);
    judged(alloc, &mut device, steps)
}

fn judged(alloc: Global, device: &mut Device, steps: &[Step]) -> Result<Option<usize>, Fail> {
    for (at, step) in steps.iter().enumerate() {
        if !does(alloc, device, *step)? {
            return Ok(Some(at));
        }
    }
    Ok(None)
}

#[test]
fn a_master_answers_asks_in_order(rt: HostRuntime) -> Result<(), Fail> {
    assert_eq!(rt; first_wrong(rt.alloc(), &STEPS)?, None);
    Ok(())
}

// Whether the ask of that kind tells the master so.
fn tells(alloc: Global, kind: AskKind, number: u8) -> Result<bool, Fail> {
    let ask = ask_of(alloc, kind, 1, 0, b"ab")?;
    match ask.told(alloc)? {
        Reply::Value {
            first,
            second,
            bytes,
        } => Ok(first == u64::from(number) && second == 2 && bytes.as_slice() == b"ab".as_slice()),
        Reply::Error(_) => Ok(false),
    }
}

#[test]
fn an_ask_tells_its_kind(rt: HostRuntime) -> Result<(), Fail> {
    assert!(rt; tells(rt.alloc(), AskKind::Read, 1)?);
    assert!(rt; tells(rt.alloc(), AskKind::Write, 2)?);
    assert!(rt; tells(rt.alloc(), AskKind::Ioctl, 3)?);
    Ok(())
}
