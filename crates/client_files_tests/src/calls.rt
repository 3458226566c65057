use process_machine::Call;
use sprite_ids::{Bytes, NoMemory};
use std::alloc::Global;

/// The paths that the tests name.
#[derive(Clone, Copy)]
pub(crate) enum Name {
    Root,
    File,
    Device,
    Folder,
    OtherFolder,
    /// A domain of another server, and what is in it.
    Domain,
    DomainFile,
    DomainDevice,
    Relative,
    Empty,
}

/// The path's text.
pub(crate) fn text(name: Name) -> &'static [u8] {
    match name {
        Name::Root => b"/",
        Name::File => b"/b",
        Name::Device => b"/v",
        Name::Folder => b"/d",
        Name::OtherFolder => b"/e",
        Name::Domain => b"/a",
        Name::DomainFile => b"/a/b",
        Name::DomainDevice => b"/a/v",
        Name::Relative => b"x",
        Name::Empty => b"",
    }
}

/// What a process comes to. Numbers come as in the call: flags behind an open's path, and descriptors first.
#[derive(Clone, Copy)]
pub(crate) enum Does {
    Open(Name, u64),
    Stat(Name),
    Mkdir(Name),
    Rmdir(Name),
    Unlink(Name),
    Rename(Name, Name),
    List(Name, u64),
    Chdir(Name),
    Close(u64),
    Dup(u64),
    Read(u64, u64),
    /// The descriptor, and how many bytes.
    Write(u64, usize),
    Seek(u64, u64),
    Size(u64),
    Sync(u64),
}

/// So many bytes.
pub(crate) fn bytes(alloc: Global, many: usize) -> Result<Bytes, NoMemory> {
    let mut bytes = Vec::new(alloc);
    bytes.resize(many, 7)?;
    Ok(Bytes::of_vec(bytes))
}

fn rename(alloc: Global, from: Name, to: Name) -> Result<Call, NoMemory> {
    let old = Bytes::of_slice(alloc, text(from))?;
    let new = Bytes::of_slice(alloc, text(to))?;
    Ok(Call::Rename { old, new })
}

fn name_call(alloc: Global, does: Does) -> Result<Call, NoMemory> {
    match does {
        Does::Open(path, flags) => Ok(Call::OpenFile {
            path: Bytes::of_slice(alloc, text(path))?,
            flags,
        }),
        Does::Stat(path) => Ok(Call::Stat {
            path: Bytes::of_slice(alloc, text(path))?,
        }),
        Does::Mkdir(path) => Ok(Call::Mkdir {
            path: Bytes::of_slice(alloc, text(path))?,
        }),
        Does::Rmdir(path) => Ok(Call::Rmdir {
            path: Bytes::of_slice(alloc, text(path))?,
        }),
        Does::Unlink(path) => Ok(Call::Unlink {
            path: Bytes::of_slice(alloc, text(path))?,
        }),
        Does::Rename(from, to) => rename(alloc, from, to),
        Does::List(path, max) => Ok(Call::List {
            path: Bytes::of_slice(alloc, text(path))?,
            max,
        }),
        Does::Chdir(path) => Ok(Call::Chdir {
            path: Bytes::of_slice(alloc, text(path))?,
        }),
        _ => Err(NoMemory),
    }
}

/// The call.
pub(crate) fn call_of(alloc: Global, does: Does) -> Result<Call, NoMemory> {
    match does {
        Does::Close(fd) => Ok(Call::Close { fd }),
        Does::Dup(fd) => Ok(Call::Dup { fd }),
        Does::Read(fd, length) => Ok(Call::Read { fd, length }),
        Does::Write(fd, many) => Ok(Call::Write {
            fd,
            bytes: bytes(alloc, many)?,
        }),
        Does::Seek(fd, offset) => Ok(Call::Seek { fd, offset }),
        Does::Size(fd) => Ok(Call::Size { fd }),
        Does::Sync(fd) => Ok(Call::Sync { fd }),
        _ => name_call(alloc, does),
    }
}

/// The making of a pseudo-device.
pub(crate) fn make_of(alloc: Global, path: Name) -> Result<Call, NoMemory> {
    Ok(Call::PdMake {
        path: Bytes::of_slice(alloc, text(path))?,
    })
}
