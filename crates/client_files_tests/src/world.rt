use crate::bodies::some_grant;
use client_files::{ClientFiles, install};
use link_plan::Plan;
use packet_bodies::{CarriedMode, CarriedStream, Target};
use sprite_ids::{FileId, Items, Kernel, Mode, NoMemory, Object, Pid, StreamNo};
use sprite_paths::Path;
use std::alloc::Global;
use stream_table::{Carried, Place, Stream, Streams};
use unix_calls::Description;

/// How a stream arrives: its number, the descriptor, the stamp of its grant, where there is one, and its offset.
#[derive(Clone, Copy)]
pub(crate) struct Comes {
    pub number: u32,
    pub fd: u8,
    pub stamp: Option<u32>,
    pub place: Place,
}

// A cluster of that version, with a cache of eight blocks.
fn cluster(alloc: Global, version: u8) -> Description {
    Description {
        version,
        budget: 1_000_000,
        cache: 8,
        kernels: Items::new(alloc),
        programs: Items::new(alloc),
        starts: Items::new(alloc),
        files: Items::new(alloc),
        plan: Plan {
            entries: Items::new(alloc),
        },
        evicts: Items::new(alloc),
    }
}

/// The kernel of that number.
pub(crate) fn kernel(number: u8) -> Result<Kernel, NoMemory> {
    Kernel::new(number).ok_or(NoMemory)
}

/// A client kernel of that number, of a cluster of that version; nothing is learned or open there.
pub(crate) fn boot(alloc: Global, version: u8, client: Kernel) -> Result<ClientFiles, NoMemory> {
    let cluster = cluster(alloc, version);
    let files = ClientFiles::boot(alloc, &cluster, client);
    drop(cluster);
    files
}

/// The servers are known to the client: 1 serves `/` and has the one file, 3 serves `/a`.
pub(crate) fn add_servers(servers: &mut Items<Kernel>) -> Result<(), NoMemory> {
    servers.push(kernel(1)?)?;
    servers.push(kernel(3)?)
}

/// The process of that birth number at that kernel.
pub(crate) fn pid(kernel: Kernel, birth: u32) -> Result<Pid, NoMemory> {
    Pid::new(kernel, birth).ok_or(NoMemory)
}

// The stream of that number, which was opened at that kernel.
fn stream(kernel: Kernel, number: u32) -> StreamNo {
    StreamNo { kernel, number }
}

fn carried_stream(kernel: Kernel, comes: &Comes, file: &FileId) -> CarriedStream {
    CarriedStream {
        stream: stream(kernel, comes.number),
        object: Target::File(*file),
        mode: CarriedMode::Both,
        offset: match comes.place {
            Place::Local(offset) => Some(offset),
            Place::Shared => None,
        },
        grant: some_grant(file, comes.stamp),
        grants: 1,
    }
}

fn carried(kernel: Kernel, comes: &Comes, file: &FileId) -> Carried {
    Carried {
        fd: comes.fd,
        number: stream(kernel, comes.number),
        stream: Stream {
            object: Object::File(*file),
            mode: Mode::Both,
            place: comes.place,
            grants: 1,
            append: false,
        },
    }
}

/// The process arrives with that stream of the file.
pub(crate) fn arrive(
    files: &mut ClientFiles,
    alloc: Global,
    pid: Pid,
    file: &FileId,
    comes: &Comes,
) -> Result<(), NoMemory> {
    let streams = [carried_stream(files.kernel, comes, file)];
    let carried = [carried(files.kernel, comes, file)];
    let root = Path::root(alloc);
    install(files, pid, root, streams.as_slice(), carried.as_slice())
}

/// The process's first descriptor is doubled until all 16 are in use.
pub(crate) fn fill(streams: &mut Streams, pid: Pid) -> Result<(), NoMemory> {
    for _done in 0..15 {
        streams.dup(pid, 0).or(Err(NoMemory))?;
    }
    Ok(())
}
