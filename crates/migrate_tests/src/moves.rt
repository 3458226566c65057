use migrate_freeze::{Arrived, Frozen, MoveStep, Moving, Process, Sent};
use packet_bodies::Request;
use process_machine::Image;
use sprite_ids::{DeviceId, FileId, Items, Kernel, Mode, NoMemory, Object, Pid, StreamNo};
use sprite_paths::Path;
use std::alloc::Global;
use stream_table::{Carried, Place, Stream};

// A descriptor: its number, the kernel and the count of its stream, the file's number or none for a device, what it is open
// for, whether it appends, and its offset.
#[derive(Clone, Copy)]
struct Row {
    fd: u8,
    kernel: u8,
    number: u32,
    file: Option<u32>,
    mode: Mode,
    append: bool,
    offset: u32,
}

// What a move takes, and of which stream: its kernel and count, the offset or none where it is shared, and the grants.
#[derive(Clone, Copy)]
struct Step {
    kernel: u8,
    number: u32,
    offset: Option<u32>,
    grants: u32,
}

// Descriptors 0 and 7 lead to one stream, and 3 to a device.
static ROWS: [Row; 5] = [
    Row {
        fd: 0,
        kernel: 4,
        number: 5,
        file: Some(11),
        mode: Mode::Both,
        append: false,
        offset: 100,
    },
    Row {
        fd: 1,
        kernel: 2,
        number: 9,
        file: Some(12),
        mode: Mode::Write,
        append: true,
        offset: 200,
    },
    Row {
        fd: 3,
        kernel: 4,
        number: 2,
        file: None,
        mode: Mode::Both,
        append: false,
        offset: 0,
    },
    Row {
        fd: 7,
        kernel: 4,
        number: 5,
        file: Some(11),
        mode: Mode::Both,
        append: false,
        offset: 100,
    },
    Row {
        fd: 15,
        kernel: 3,
        number: 1,
        file: Some(11),
        mode: Mode::Read,
        append: false,
        offset: 300,
    },
];

// The moves, by the kernels that opened the streams and then by the streams' counts.
static STEPS: [Step; 4] = [
    Step {
        kernel: 2,
        number: 9,
        offset: Some(250),
        grants: 2,
    },
    Step {
        kernel: 3,
        number: 1,
        offset: None,
        grants: 1,
    },
    Step {
        kernel: 4,
        number: 2,
        offset: Some(0),
        grants: 1,
    },
    Step {
        kernel: 4,
        number: 5,
        offset: Some(100),
        grants: 3,
    },
];

// The offsets, none where they are shared, and the grants of the descriptors after that, in their order.
static LANDED: [(Option<u32>, u32); 5] = [
    (Some(100), 3),
    (Some(250), 2),
    (Some(0), 1),
    (Some(100), 3),
    (None, 1),
];

// The kernel of that number.
fn kernel(number: u8) -> Result<Kernel, NoMemory> {
    Kernel::new(number).ok_or(NoMemory)
}

// Where the offset is.
fn place(offset: Option<u32>) -> Place {
    match offset {
        Some(offset) => Place::Local(offset),
        None => Place::Shared,
    }
}

// The descriptor of that row.
fn carried(row: &Row) -> Result<Carried, NoMemory> {
    let server = kernel(1)?;
    let object = match row.file {
        Some(number) => Object::File(FileId { server, number }),
        None => Object::Device(DeviceId {
            kernel: server,
            number: 1,
        }),
    };
    Ok(Carried {
        fd: row.fd,
        number: StreamNo {
            kernel: kernel(row.kernel)?,
            number: row.number,
        },
        stream: Stream {
            object,
            mode: row.mode,
            place: Place::Local(row.offset),
            grants: 1,
            append: row.append,
        },
    })
}

// The descriptors of the rows.
fn descriptors(alloc: Global) -> Result<Items<Carried>, NoMemory> {
    let mut streams = Items::new(alloc);
    for row in ROWS.iter() {
        streams.append(&[carried(row)?])?;
    }
    Ok(streams)
}

// An image of that program, whose page is away.
fn image(alloc: Global, program: u8) -> Result<Image, NoMemory> {
    let mut pages = Vec::with_capacity(alloc, 1)?;
    pages.push_reserved(None);
    Image::of_parts(program, 6, [7; 8], pages).ok_or(NoMemory)
}

// A process with these descriptors, before its fifth call.
fn process(alloc: Global) -> Result<Process, NoMemory> {
    let pid = Pid::new(kernel(1)?, 3).ok_or(NoMemory)?;
    let image = image(alloc, 2)?;
    let streams = descriptors(alloc)?;
    Ok(Process {
        pid,
        number: 4,
        image,
        cwd: Path::root(alloc),
        streams,
        killed: false,
        moving: true,
    })
}

// Whether it is the step's stream that moves.
fn is_step(moving: &Moving, step: &Step) -> bool {
    let number = moving.stream().0;
    number.kernel.number() == step.kernel && number.number == step.number
}

// The process after the step's move; None where another stream moves or none does.
fn moved(frozen: Frozen, step: &Step) -> Option<Frozen> {
    let MoveStep::Moving(moving) = frozen.next() else {
        return None;
    };
    if !is_step(&moving, step) {
        std::mem::drop(moving);
        return None;
    }
    Some(moving.moved(place(step.offset), None, step.grants))
}

// The process after all moves; None where they are other ones.
fn all_moved(frozen: Frozen) -> Option<Sent> {
    let mut left = frozen;
    for step in STEPS.iter() {
        left = moved(left, step)?;
    }
    let MoveStep::Sent(sent) = left.next() else {
        return None;
    };
    Some(sent)
}

// Whether the descriptor is as the row says, with that offset and those grants.
fn is_landed(item: &Carried, row: &Row, landed: &(Option<u32>, u32)) -> bool {
    item.fd == row.fd
        && item.number.number == row.number
        && item.stream.mode == row.mode
        && item.stream.append == row.append
        && item.stream.place == place(landed.0)
        && item.stream.grants == landed.1
}

// The place of the first descriptor that is another one.
fn first_other(items: &[Carried]) -> Option<usize> {
    for (place, item) in items.iter().enumerate() {
        if place >= 5 || !is_landed(item, &ROWS[place], &LANDED[place]) {
            return Some(place);
        }
    }
    None
}

// Whether the process is as it was frozen, but for its moves.
fn is_same(process: &Process) -> bool {
    process.number == 4
        && process.moving
        && !process.killed
        && process.image.counter() == 6
        && process.streams.len() == 5
        && first_other(process.streams.as_slice()).is_none()
}

// What the packet of the process brings; None where it brings nothing.
fn read(alloc: Global, sent: &Sent) -> Option<Arrived> {
    let Ok(body) = sent.body(alloc) else {
        return None;
    };
    let Ok(arrived) = Arrived::read(alloc, body) else {
        return None;
    };
    arrived
}

// The process, frozen, which goes as it is or starts the program of that number; None where it can't move.
fn frozen(process: Process, to: Kernel, program: Option<u8>) -> Option<Frozen> {
    if !process.can_move() {
        std::mem::drop(process);
        return None;
    }
    match program {
        Some(program) => Some(Frozen::launch(process, to, program)),
        None => Some(Frozen::new(process, to)),
    }
}

// What the packet of a process, frozen so, brings after all moves; None where it brings nothing or they are other ones.
fn arrived(alloc: Global, program: Option<u8>) -> Option<Arrived> {
    let to = Kernel::new(5)?;
    let Ok(process) = process(alloc) else {
        return None;
    };
    let sent = all_moved(frozen(process, to, program)?)?;
    let arrived = read(alloc, &sent);
    std::mem::drop(sent);
    arrived
}

// Whether the process that arrived lands so.
fn lands(arrived: Arrived) -> bool {
    if arrived.launched().is_some() {
        std::mem::drop(arrived);
        return false;
    }
    let process = arrived.thaw();
    let same = is_same(&process);
    std::mem::drop(process);
    same
}

// Whether the process that arrived lands with that image.
fn lands_fresh(arrived: Arrived, fresh: Image) -> bool {
    if arrived.launched() != Some(fresh.program_number()) {
        std::mem::drop(arrived);
        std::mem::drop(fresh);
        return false;
    }
    let process = arrived.thaw_fresh(fresh);
    let same = is_same(&process);
    std::mem::drop(process);
    same
}

// Whether a process that goes as it is lands so.
fn goes(alloc: Global) -> bool {
    let Some(arrived) = arrived(alloc, None) else {
        return false;
    };
    lands(arrived)
}

// Whether a process that starts its next program lands with that program's image.
fn starts(alloc: Global) -> bool {
    let Ok(fresh) = image(alloc, 9) else {
        return false;
    };
    let Some(arrived) = arrived(alloc, Some(9)) else {
        std::mem::drop(fresh);
        return false;
    };
    lands_fresh(arrived, fresh)
}

// Whether a request that is no process's brings none.
fn echoes(alloc: Global) -> bool {
    let Ok(arrived) = Arrived::read(alloc, Request::Echo) else {
        return false;
    };
    let none = arrived.is_none();
    std::mem::drop(arrived);
    none
}

// The master's end of a device.
fn master(fd: u8) -> Result<Carried, NoMemory> {
    let kernel = kernel(1)?;
    Ok(Carried {
        fd,
        number: StreamNo { kernel, number: 1 },
        stream: Stream {
            object: Object::Master(DeviceId { kernel, number: 1 }),
            mode: Mode::Read,
            place: Place::Local(0),
            grants: 1,
            append: false,
        },
    })
}

// Gives the process the master's end of a device; whether it could stay before, can't move now, and can stay now as told.
fn stays(process: &mut Process, fd: u8, is_taken: bool) -> bool {
    let Ok(master) = master(fd) else {
        return false;
    };
    process.can_stay()
        && process.streams.append(&[master]).is_ok()
        && !process.can_move()
        && process.can_stay() == is_taken
}

// Whether a process stays that gets the master's end of a device, and whether a table takes it then.
fn holds(alloc: Global, fd: u8, is_taken: bool) -> bool {
    let Ok(mut process) = process(alloc) else {
        return false;
    };
    let held = stays(&mut process, fd, is_taken);
    std::mem::drop(process);
    held
}

#[test]
fn a_process_lands_as_it_was_frozen(rt: HostRuntime) {
    let alloc = rt.alloc();
    assert!(rt; goes(alloc));
    assert!(rt; starts(alloc));
    assert!(rt; echoes(alloc));
    assert!(rt; holds(alloc, 2, true));
    assert!(rt; holds(alloc, 7, false));
}
