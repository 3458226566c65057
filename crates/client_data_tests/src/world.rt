use client_data::{data_replied, look, run_sync, write_back_answered};
use client_file_tables::{ClientFiles, Pending};
use link_plan::Plan;
use packet_bodies::ReplyBody;
use sprite_ids::{FileId, Items, Kernel, Mode, NoMemory, Object, Pid, StreamNo, TxNo};
use std::alloc::Global;
use stream_table::{Place, Stream};
use unix_calls::Description;

/// The one file, of kernel 1.
pub(crate) fn file() -> Result<FileId, NoMemory> {
    let server = Kernel::new(1).ok_or(NoMemory)?;
    Ok(FileId { server, number: 1 })
}

// A cluster with a cache of eight blocks.
fn cluster(alloc: Global) -> Description {
    Description {
        version: 1,
        budget: 1_000_000,
        cache: 8,
        kernels: Items::new(alloc),
        programs: Items::new(alloc),
        starts: Items::new(alloc),
        files: Items::new(alloc),
        plan: Plan {
            entries: Items::new(alloc),
        },
        evicts: Items::new(alloc),
    }
}

/// A client kernel, number 2, before a file is open.
pub(crate) fn boot(alloc: Global) -> Result<ClientFiles, NoMemory> {
    let client = Kernel::new(2).ok_or(NoMemory)?;
    let cluster = cluster(alloc);
    let files = ClientFiles::boot(alloc, &cluster, client);
    drop(cluster);
    files
}

/// The process of that birth number at that kernel.
pub(crate) fn pid(kernel: Kernel, birth: u32) -> Result<Pid, NoMemory> {
    Pid::new(kernel, birth).ok_or(NoMemory)
}

// The processes that open the file themselves; where the offset is kept, and whether the stream appends.
static OPENS: [(u32, Place, bool); 3] = [
    (1, Place::Local(0), false),
    (2, Place::Local(0), true),
    (4, Place::Shared, false),
];

/// Four processes have the file open at descriptor 0, each opened stream having the process's number: the first and the third
/// share a stream, the second one's appends, and the offset of the fourth one's is kept at the server.
pub(crate) fn open_all(files: &mut ClientFiles, file: &FileId) -> Result<(), NoMemory> {
    let kernel = files.kernel;
    for (birth, place, append) in OPENS.iter() {
        let number = StreamNo {
            kernel,
            number: *birth,
        };
        let stream = Stream {
            object: Object::File(*file),
            mode: Mode::Both,
            place: *place,
            grants: 1,
            append: *append,
        };
        let _fd = files.add_stream(pid(kernel, *birth)?, &number, &stream)?;
    }
    files.streams.fork(pid(kernel, 1)?, pid(kernel, 3)?)
}

/// The answer to a remote call comes.
pub(crate) fn replied(
    files: &mut ClientFiles,
    alloc: Global,
    tx: TxNo,
    body: &ReplyBody,
) -> Result<(), NoMemory> {
    if files.write_backs.has(&tx) {
        return write_back_answered(files, alloc, tx, body);
    }
    let Some(pid) = files.txs.take(&tx) else {
        return Ok(());
    };
    match files.pending.take(&pid) {
        Some(Pending::Data(call)) => data_replied(files, alloc, pid, call, body),
        Some(other) => files.keep(pid, other),
        None => Ok(()),
    }
}

/// What was woken looks at everything anew.
pub(crate) fn go_on(files: &mut ClientFiles, alloc: Global) -> Result<(), NoMemory> {
    for _done in 0..16 {
        if files.ready.is_empty() {
            return Ok(());
        }
        let pid = files.ready.remove(0);
        run(files, alloc, pid)?;
    }
    Ok(())
}

fn run(files: &mut ClientFiles, alloc: Global, pid: Pid) -> Result<(), NoMemory> {
    match files.pending.take(&pid) {
        Some(Pending::Data(call)) => look(files, alloc, pid, call),
        Some(Pending::Sync(call)) => run_sync(files, alloc, pid, call),
        Some(other) => files.keep(pid, other),
        None => Ok(()),
    }
}
