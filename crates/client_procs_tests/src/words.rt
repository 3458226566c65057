use packet_bodies::HomeCall;
use process_machine::Call;
use sprite_ids::{Bytes, NoMemory, Pid};
use std::alloc::Global;

/// What the tests name: paths, the program, kernels, and two that name nothing.
#[derive(Clone, Copy)]
pub(crate) enum Name {
    Root,
    File,
    Device,
    OtherDevice,
    Program,
    /// Kernels 1 to 4.
    Server,
    Client,
    SecondClient,
    ThirdClient,
    Unknown,
    AlsoUnknown,
}

/// The name's text.
pub(crate) fn text(name: Name) -> &'static [u8] {
    match name {
        Name::Root => b"/",
        Name::File => b"/f",
        Name::Device => b"/d",
        Name::OtherDevice => b"/e",
        Name::Program => b"p",
        Name::Server => b"s",
        Name::Client => b"a",
        Name::SecondClient => b"b",
        Name::ThirdClient => b"c",
        Name::Unknown => b"x",
        Name::AlsoUnknown => b"y",
    }
}

/// A call that is done at a home.
#[derive(Clone, Copy, PartialEq, Eq)]
pub(crate) enum Word {
    /// How many bytes.
    Print(usize),
    Exit(u64),
    BadStep,
    /// A death by a kill, of which a home is told.
    Death,
    Getppid,
    Host(u64),
    Tick,
    Fork,
    Wait,
    Kill(u64),
}

/// What a process comes to. Numbers come as in the call, descriptors first.
#[derive(Clone, Copy)]
pub(crate) enum Does {
    Home(Word),
    Getpid,
    Exec(Name),
    Migrate(Name),
    Rexec(Name, Name),
    /// An open for reading and writing.
    Open(Name),
    Make(Name),
    Get(u64, u64),
    /// The descriptor, how many bytes, and the number of the error.
    Put(u64, usize, u64),
    Read(u64, u64),
    /// The descriptor, and how many bytes.
    Write(u64, usize),
    /// The descriptor, the command, and how many bytes.
    Ioctl(u64, u64, usize),
    Close(u64),
}

/// So many bytes.
pub(crate) fn bytes(alloc: Global, many: usize) -> Result<Bytes, NoMemory> {
    let mut bytes = Vec::new(alloc);
    bytes.resize(many, 7)?;
    Ok(Bytes::of_vec(bytes))
}

/// The process of that number.
pub(crate) fn pid(number: u64) -> Result<Pid, NoMemory> {
    client_homes::pid_of(number).ok_or(NoMemory)
}

// The call as a process comes to it; a death is none.
fn own_call(alloc: Global, word: Word) -> Result<Call, NoMemory> {
    match word {
        Word::Print(many) => Ok(Call::Print {
            bytes: bytes(alloc, many)?,
        }),
        Word::Exit(code) => Ok(Call::Exit { code }),
        Word::BadStep => Ok(Call::BadStep),
        Word::Death => Err(NoMemory),
        Word::Getppid => Ok(Call::Getppid),
        Word::Host(max) => Ok(Call::Host { max }),
        Word::Tick => Ok(Call::Tick),
        Word::Fork => Ok(Call::Fork),
        Word::Wait => Ok(Call::Wait),
        Word::Kill(pid) => Ok(Call::Kill { pid }),
    }
}

/// The call as a home is asked for it.
pub(crate) fn home_call(alloc: Global, word: Word) -> Result<HomeCall, NoMemory> {
    match word {
        Word::Print(many) => Ok(HomeCall::Print {
            bytes: bytes(alloc, many)?,
        }),
        Word::Exit(code) => Ok(HomeCall::Exit { code }),
        Word::BadStep => Ok(HomeCall::Exit { code: 256 }),
        Word::Death => Ok(HomeCall::Exit { code: 257 }),
        Word::Getppid => Ok(HomeCall::Getppid),
        Word::Host(max) => Ok(HomeCall::Host { max }),
        Word::Tick => Ok(HomeCall::Tick),
        Word::Fork => Ok(HomeCall::Fork),
        Word::Wait => Ok(HomeCall::Wait),
        Word::Kill(number) => Ok(HomeCall::Kill { pid: pid(number)? }),
    }
}

/// What a home is asked for.
pub(crate) fn word_of(call: &HomeCall) -> Word {
    match call {
        HomeCall::Print { bytes } => Word::Print(bytes.len()),
        HomeCall::Exit { code: 256 } => Word::BadStep,
        HomeCall::Exit { code: 257 } => Word::Death,
        HomeCall::Exit { code } => Word::Exit(*code),
        HomeCall::Getppid => Word::Getppid,
        HomeCall::Host { max } => Word::Host(*max),
        HomeCall::Tick => Word::Tick,
        HomeCall::Fork => Word::Fork,
        HomeCall::Wait => Word::Wait,
        HomeCall::Kill { pid } => Word::Kill(u64::from(pid.number())),
    }
}

fn data_call(alloc: Global, does: Does) -> Result<Call, NoMemory> {
    match does {
        Does::Get(fd, max) => Ok(Call::PdGet { fd, max }),
        Does::Put(fd, many, errno) => Ok(Call::PdPut {
            fd,
            bytes: bytes(alloc, many)?,
            errno,
        }),
        Does::Read(fd, length) => Ok(Call::Read { fd, length }),
        Does::Write(fd, many) => Ok(Call::Write {
            fd,
            bytes: bytes(alloc, many)?,
        }),
        Does::Ioctl(fd, command, many) => Ok(Call::Ioctl {
            fd,
            command,
            bytes: bytes(alloc, many)?,
        }),
        Does::Close(fd) => Ok(Call::Close { fd }),
        _ => Err(NoMemory),
    }
}

fn rexec(alloc: Global, name: Name, host: Name) -> Result<Call, NoMemory> {
    let name = Bytes::of_slice(alloc, text(name))?;
    let host = Bytes::of_slice(alloc, text(host))?;
    Ok(Call::Rexec { name, host })
}

/// The call.
pub(crate) fn call_of(alloc: Global, does: Does) -> Result<Call, NoMemory> {
    match does {
        Does::Home(word) => own_call(alloc, word),
        Does::Getpid => Ok(Call::Getpid),
        Does::Exec(name) => Ok(Call::Exec {
            name: Bytes::of_slice(alloc, text(name))?,
            arg: 5,
        }),
        Does::Migrate(name) => Ok(Call::Migrate {
            name: Bytes::of_slice(alloc, text(name))?,
        }),
        Does::Rexec(name, host) => rexec(alloc, name, host),
        Does::Open(path) => Ok(Call::OpenFile {
            path: Bytes::of_slice(alloc, text(path))?,
            flags: 3,
        }),
        Does::Make(path) => Ok(Call::PdMake {
            path: Bytes::of_slice(alloc, text(path))?,
        }),
        _ => data_call(alloc, does),
    }
}
