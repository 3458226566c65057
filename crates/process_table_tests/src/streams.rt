ghost use Rattle.std.specs.Prelude.{◌≡◌, IsTrue, IfSome};
ghost use Rattle.stream_table.specs.Entries.{is_placed};

use sprite_ids::{DeviceId, FileId, Kernel, Mode, Object, Pid, StreamNo};
use std::alloc::Global;
use std::test::Fail;
use stream_table::{Carried, Place, Stream, StreamEnd, Streams};

// One call, with what it must answer. Processes are 1001, 1002 and so on, streams of kernel 1 are named by their numbers;
// stream 9 is of a device, any other of a file.
#[derive(Clone, Copy)]
enum Step {
    Add(u32, u32, Result<u8, StreamEnd>),
    Get(u32, u64, u32),
    Dup(u32, u64, Result<u8, StreamEnd>),
    Fork(u32, u32),
    // The number of the stream that goes; 0 for none.
    Close(u32, u8, u32),
    Lock(u32, u32, bool),
    Unlock(u32),
    // The process that has the lock; 0 for none.
    Holder(u32, u32),
    Move(u32, u32),
    // The place of the stream; None where it isn't here.
    At(u32, Option<Place>),
    // Process 1001 comes, and goes, with its three descriptors.
    Arrive,
    Leave,
}

static STEPS: [Step; 62] = [
    Step::At(5, None),
    Step::Get(1, 0, 0),
    Step::Dup(1, 0, Err(StreamEnd::BadFd)),
    Step::Add(1, 5, Ok(0)),
    Step::Add(1, 9, Ok(1)),
    Step::Add(1, 6, Ok(2)),
    Step::Get(1, 0, 5),
    Step::Get(1, 1, 9),
    Step::Get(1, 16, 0),
    Step::Get(1, 4294967296, 0),
    Step::Get(2, 0, 0),
    Step::Close(1, 1, 9),
    Step::At(9, None),
    Step::Close(1, 1, 0),
    Step::Dup(1, 2, Ok(1)),
    Step::Get(1, 1, 6),
    Step::Close(1, 2, 0),
    Step::Dup(1, 2, Err(StreamEnd::BadFd)),
    Step::At(6, Some(Place::Local(0))),
    Step::Move(6, 12),
    Step::At(6, Some(Place::Local(12))),
    Step::Fork(1, 2),
    Step::Get(2, 1, 6),
    Step::Get(2, 2, 0),
    Step::Lock(6, 1, true),
    Step::Lock(6, 1, true),
    Step::Lock(6, 2, false),
    Step::Lock(5, 2, true),
    Step::Holder(6, 1),
    Step::Close(1, 1, 0),
    Step::Close(2, 1, 6),
    Step::At(6, None),
    Step::Lock(6, 2, false),
    Step::Add(3, 6, Ok(0)),
    Step::Lock(6, 3, false),
    Step::Unlock(6),
    Step::Lock(6, 3, true),
    Step::Holder(6, 3),
    Step::Unlock(8),
    Step::Lock(8, 3, true),
    Step::Lock(8, 4, false),
    Step::Unlock(8),
    Step::Lock(8, 4, true),
    Step::At(5, Some(Place::Local(0))),
    Step::Add(7, 5, Ok(0)),
    Step::Add(7, 5, Ok(1)),
    Step::Add(7, 5, Ok(2)),
    Step::Add(7, 5, Ok(3)),
    Step::Add(7, 5, Ok(4)),
    Step::Add(7, 5, Ok(5)),
    Step::Add(7, 5, Ok(6)),
    Step::Add(7, 5, Ok(7)),
    Step::Add(7, 5, Ok(8)),
    Step::Add(7, 5, Ok(9)),
    Step::Add(7, 5, Ok(10)),
    Step::Add(7, 5, Ok(11)),
    Step::Add(7, 5, Ok(12)),
    Step::Add(7, 5, Ok(13)),
    Step::Add(7, 5, Ok(14)),
    Step::Add(7, 5, Ok(15)),
    Step::Add(7, 5, Err(StreamEnd::TooMany)),
    Step::Dup(7, 15, Err(StreamEnd::TooMany)),
];

// At its new place stream 5 was here before, with one grant: it has the grants of both, and the place that it came with.
static MOVED: [Step; 6] = [
    Step::Add(2, 5, Ok(0)),
    Step::Arrive,
    Step::At(5, Some(Place::Shared)),
    Step::Leave,
    Step::At(6, None),
    Step::At(5, Some(Place::Shared)),
];

// A stream of a file of kernel 2, or the device's.
fn stream_of(number: u32, grants: u32) -> Option<Stream>
    ensures { IfSome result (λ stream. IsTrue (is_placed stream)) }
{
    let kernel = Kernel::new(2)?;
    let object = if number == 9 {
        Object::Device(DeviceId { kernel, number })
    } else {
        Object::File(FileId {
            server: kernel,
            number,
        })
    };
    Some(Stream {
        object,
        mode: Mode::Both,
        place: Place::Local(0),
        grants,
        append: false,
    })
}

// That process of kernel 1.
fn process(birth: u32) -> Option<Pid> {
    Pid::new(Kernel::new(1)?, birth)
}

// That stream of kernel 1.
fn named(number: u32) -> Option<StreamNo> {
    let kernel = Kernel::new(1)?;
    Some(StreamNo { kernel, number })
}

// Makes the call; true where it answers so, and None where memory is wanting.
fn does(streams: &mut Streams, step: Step) -> Option<bool> {
    Some(match step {
        Step::Add(birth, number, wanted) => {
            let stream = stream_of(number, 1)?;
            streams.add(process(birth)?, named(number)?, stream) == wanted
        }
        Step::Get(birth, fd, number) => match streams.get(process(birth)?, fd) {
            Some(known) => known.number == number,
            None => number == 0,
        },
        Step::Dup(birth, fd, wanted) => streams.dup(process(birth)?, fd) == wanted,
        Step::Fork(parent, child) => streams.fork(process(parent)?, process(child)?).is_ok(),
        Step::Close(birth, fd, number) => match streams.close(process(birth)?, fd) {
            Some((known, _)) => known.number == number,
            None => number == 0,
        },
        Step::Lock(number, birth, wanted) => {
            streams.lock(named(number)?, process(birth)?) == Ok(wanted)
        }
        Step::Unlock(number) => {
            streams.unlock(named(number)?);
            true
        }
        Step::Holder(number, birth) => streams.holder(named(number)?) == process(birth),
        Step::Move(number, offset) => moves(streams, &named(number)?, Place::Local(offset)),
        Step::At(number, place) => match streams.stream(named(number)?) {
            Some(stream) => place == Some(stream.place),
            None => place.is_none(),
        },
        Step::Arrive => arrives(streams, process(1)?)?,
        Step::Leave => leaves(streams, process(1)?),
    })
}

// Moves the offset of a file's stream.
fn moves(streams: &mut Streams, number: &StreamNo, place: Place) -> bool {
    match streams.stream(*number) {
        Some(stream) if matches!(stream.object, Object::File(_)) => {
            streams.set_place(*number, place);
            true
        }
        _ => false,
    }
}

// The first step that answers otherwise.
fn first_wrong(alloc: Global, steps: &[Step]) -> Option<usize> {
    let mut streams = Streams::new(alloc);
    judged(&mut streams, steps)
}

fn judged(streams: &mut Streams, steps: &[Step]) -> Option<usize> {
    for (at, step) in steps.iter().enumerate() {
        if does(streams, *step) != Some(true) {
            return Some(at);
        }
    }
    None
}

#[test]
fn descriptors_lead_to_streams(rt: HostRuntime) -> Result<(), Fail> {
    assert_eq!(rt; first_wrong(rt.alloc(), &STEPS), None);
    Ok(())
}

#[test]
fn streams_move_with_a_process(rt: HostRuntime) -> Result<(), Fail> {
    assert_eq!(rt; first_wrong(rt.alloc(), &MOVED), None);
    Ok(())
}

// A stream of one file of kernel 2, with that many grants.
fn file_stream(place: Place, grants: u32) -> Option<Stream>
    ensures placed { IfSome result (λ stream. IsTrue (is_placed stream)) }
    ensures grants { IfSome result (λ stream. stream.grants ≡ grants) }
{
    let server = Kernel::new(2)?;
    Some(Stream {
        object: Object::File(FileId { server, number: 3 }),
        mode: Mode::Both,
        place,
        grants,
        append: false,
    })
}

// The process brings two descriptors of stream 5 and one of stream 6 along.
fn arrives(streams: &mut Streams, pid: Pid) -> Option<bool> {
    let came = file_stream(Place::Shared, 3)?;
    let other = file_stream(Place::Local(7), 2)?;
    let carried = [
        Carried {
            fd: 15,
            number: named(5)?,
            stream: came,
        },
        Carried {
            fd: 2,
            number: named(5)?,
            stream: came,
        },
        Carried {
            fd: 4,
            number: named(6)?,
            stream: other,
        },
    ];
    if streams.has_descriptors(pid) || !streams.room() {
        return None;
    }
    Some(streams.put_all(pid, &carried).is_ok())
}

// Whether the descriptor with its stream is that one, with that many grants.
fn is_carried(item: &Carried, fd: u8, number: u32, grants: u32) -> bool {
    item.fd == fd && item.number.number == number && item.stream.grants == grants
}

// Whether these three leave, in ascending order.
fn are_carried(taken: &[Carried]) -> bool {
    taken.len() == 3
        && is_carried(&taken[0], 2, 5, 4)
        && is_carried(&taken[1], 4, 6, 2)
        && is_carried(&taken[2], 15, 5, 4)
}

// Whether the process leaves with them.
fn leaves(streams: &mut Streams, pid: Pid) -> bool {
    match streams.take_all(pid) {
        Ok(taken) => are_carried(taken.as_slice()),
        Err(_) => false,
    }
}
