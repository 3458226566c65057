use crate::words::{Name, Word, bytes, home_call, pid, text};
use crate::world::{image_away, kernel};
use packet_bodies::{
    AskRequest, CarriedMode, CarriedStream, Descriptor, HomeRequest, LaunchRequest, OpenedReply,
    ReplyBody, Request, Target, TransferRequest, ValueReply,
};
use sprite_ids::{AskKind, DeviceId, Errno, FileId, Grant, Items, Kernel, NoMemory, Pid, StreamNo};
use sprite_paths::Path;
use std::alloc::Global;

/// What another kernel asks of the client.
#[derive(Clone, Copy)]
pub(crate) enum Wants {
    /// The process, the number of its call, and the call.
    Home(u64, u32, Word),
    /// A process that is killed.
    Killed(u64),
    /// A process, and the kernel to which it has come.
    Place(u64, u8),
    /// The process, the number of its call, what it asks the first device of the client, and how many bytes may be answered.
    Ask(u64, u32, AskKind, u32),
    /// A process that comes with its one page away, between two calls: its next one has a number over that one.
    Comes(u64, u32),
    /// The same in its own `migrate`, which has that number; at an instruction that names the page, or behind it.
    Migrates(u64, u32, bool),
    /// A process that comes with a stream of the file at its descriptor 0, the stream's offset being 4.
    Brings(u64, u32),
    /// A process in its `rexec` of that number, and the number of its program.
    Launches(u64, u32, u8),
}

/// What another kernel answers.
#[derive(Clone, Copy)]
pub(crate) enum Says {
    Done,
    Gone,
    Here(Name),
    Refused(Errno),
    /// The two values.
    Value(u64, u64),
    /// The file, under a grant of that stamp.
    Opened(u32),
    /// The pseudo-device of that kernel whose number is 1.
    OpenedDevice(u8),
    /// The stream has moved, with a grant of that stamp, where there is one.
    Moved(Option<u32>),
    /// A page of 4,096 bytes.
    Page,
}

// The one file, of the server of `/`.
fn file() -> Result<FileId, NoMemory> {
    Ok(FileId {
        server: kernel(1)?,
        number: 1,
    })
}

// A grant of the file, which has 100 bytes and may be cached.
fn grant(stamp: u32) -> Result<Grant, NoMemory> {
    Ok(Grant {
        file: file()?,
        stamp,
        old: 0,
        new: 0,
        size: 100,
        on: true,
        holder: false,
    })
}

fn some_grant(stamp: Option<u32>) -> Result<Option<Grant>, NoMemory> {
    match stamp {
        Some(stamp) => Ok(Some(grant(stamp)?)),
        None => Ok(None),
    }
}

fn opened(stamp: u32) -> Result<ReplyBody, NoMemory> {
    Ok(ReplyBody::Opened(OpenedReply {
        object: Target::File(file()?),
        grant: Some(grant(stamp)?),
        size: 100,
    }))
}

fn device(kernel: Kernel) -> DeviceId {
    DeviceId { kernel, number: 1 }
}

fn here(alloc: Global, name: Name) -> Result<ReplyBody, NoMemory> {
    let path = Path::clean(alloc, &Path::root(alloc), text(name)).or(Err(NoMemory))?;
    Ok(ReplyBody::Here { path })
}

/// The answer.
pub(crate) fn answer_of(alloc: Global, says: Says) -> Result<ReplyBody, NoMemory> {
    match says {
        Says::Done => Ok(ReplyBody::Done),
        Says::Gone => Ok(ReplyBody::Gone),
        Says::Here(name) => here(alloc, name),
        Says::Refused(errno) => Ok(ReplyBody::Refused { errno }),
        Says::Value(first, second) => Ok(ReplyBody::Value(ValueReply {
            first,
            second,
            bytes: bytes(alloc, 0)?,
        })),
        Says::Opened(stamp) => opened(stamp),
        Says::OpenedDevice(number) => Ok(ReplyBody::Opened(OpenedReply {
            object: Target::Device(device(kernel(number)?)),
            grant: None,
            size: 0,
        })),
        Says::Moved(stamp) => Ok(ReplyBody::Moved {
            grant: some_grant(stamp)?,
            grants: 1,
        }),
        Says::Page => Ok(ReplyBody::Page {
            bytes: bytes(alloc, 4096)?,
        }),
    }
}

fn ask(
    alloc: Global,
    pid: Pid,
    number: u32,
    kind: AskKind,
    length: u32,
) -> Result<Request, NoMemory> {
    let device = device(kernel(2)?);
    let fd = Descriptor::new(0).ok_or(NoMemory)?;
    let bytes = bytes(alloc, 8)?;
    Ok(Request::Ask(AskRequest {
        pid,
        number,
        device,
        kind,
        length,
        bytes,
        fd,
    }))
}

fn transfer(
    alloc: Global,
    pid: Pid,
    number: u32,
    counter: u16,
    moving: bool,
) -> Result<TransferRequest, NoMemory> {
    Ok(TransferRequest {
        pid,
        number,
        image: image_away(alloc, counter)?,
        cwd: Path::root(alloc),
        fds: Items::new(alloc),
        streams: Items::new(alloc),
        killed: false,
        moving,
    })
}

// The stream of the file that a process brings.
fn stream(file: &FileId, grant: Grant, home: Kernel) -> CarriedStream {
    CarriedStream {
        stream: StreamNo {
            kernel: home,
            number: 1,
        },
        object: Target::File(*file),
        mode: CarriedMode::Both,
        offset: Some(4),
        grant: Some(grant),
        grants: 1,
    }
}

fn add_stream(request: &mut TransferRequest, home: Kernel) -> Result<(), NoMemory> {
    let fd = Descriptor::new(0).ok_or(NoMemory)?;
    let number = StreamNo {
        kernel: home,
        number: 1,
    };
    request.fds.push((fd, number))?;
    let file = file()?;
    let grant = grant(1)?;
    request.streams.append(&[stream(&file, grant, home)])
}

fn transfer_with_stream(alloc: Global, pid: Pid, number: u32) -> Result<Request, NoMemory> {
    let mut request = transfer(alloc, pid, number, 1, false)?;
    match add_stream(&mut request, pid.home()) {
        Ok(()) => Ok(Request::Transfer(request)),
        Err(error) => {
            drop(request);
            Err(error)
        }
    }
}

fn launch(alloc: Global, pid: Pid, number: u32, program: u8) -> Request {
    Request::Launch(LaunchRequest {
        pid,
        number,
        program,
        cwd: Path::root(alloc),
        fds: Items::new(alloc),
        streams: Items::new(alloc),
        killed: false,
    })
}

fn home(alloc: Global, pid: Pid, number: u32, word: Word) -> Result<Request, NoMemory> {
    let call = home_call(alloc, word)?;
    Ok(Request::Home(HomeRequest { pid, number, call }))
}

fn place(pid: Pid, number: u8) -> Result<Request, NoMemory> {
    let kernel = kernel(number)?;
    Ok(Request::Place { pid, kernel })
}

// The counter of an image that stands at the instruction that names the page, or behind it.
fn counter(names: bool) -> u16 {
    if names { 0 } else { 1 }
}

/// The request.
pub(crate) fn request_of(alloc: Global, wants: Wants) -> Result<Request, NoMemory> {
    match wants {
        Wants::Home(who, number, word) => home(alloc, pid(who)?, number, word),
        Wants::Killed(who) => Ok(Request::Killed { pid: pid(who)? }),
        Wants::Place(who, number) => place(pid(who)?, number),
        Wants::Ask(who, number, kind, length) => ask(alloc, pid(who)?, number, kind, length),
        Wants::Comes(who, number) => {
            let request = transfer(alloc, pid(who)?, number, 1, false)?;
            Ok(Request::Transfer(request))
        }
        Wants::Migrates(who, number, names) => {
            let request = transfer(alloc, pid(who)?, number, counter(names), true)?;
            Ok(Request::Transfer(request))
        }
        Wants::Brings(who, number) => transfer_with_stream(alloc, pid(who)?, number),
        Wants::Launches(who, number, program) => Ok(launch(alloc, pid(who)?, number, program)),
    }
}
