use crate::cluster::{described, file_line, path};
use crate::rows::{Counts, Told, is_said};
use Client::{First, Second};
use kernel_steps::Input;
use packet_bodies::{
    CloseRequest, Descriptor, FetchRequest, FileOp, MakeRequest, MoveRequest, NameOp, NameRequest,
    OpRequest, OpeningRequest, PageOutRequest, ReplyBody, Request, Target, WriteBackRequest,
};
use server_kernel::Server;
use sprite_ids::{
    BlockNo, Bytes, DeviceId, Errno, FileId, Flushed, Items, Kernel, NoMemory, Pid, StreamNo, TxNo,
};
use sprite_paths::Path;
use std::alloc::Global;
use unix_calls::{Description, FileLine};

#[derive(Clone, Copy)]
enum Client {
    First,
    Second,
}

// What comes to the server, where the first word tells from whom, else from the first client. A stream is named by the client
// that opened it and its number there.
#[derive(Clone, Copy)]
enum Step {
    Echo,
    Prefix(&'static [u8]),
    // The stream, the path and the flags.
    Open(Client, (Client, u32), &'static [u8], u8),
    Name(NameOp, &'static [u8]),
    Rename(&'static [u8], &'static [u8]),
    Make(&'static [u8]),
    // The stream, the file and the grants.
    Close(Client, (Client, u32), u32, u32),
    // What is done, the stream, the file, the stamp, the offset, and the bytes; a read asks for as many.
    Op(Client, FileOp, (Client, u32), u32, u32, Option<u32>, &'static [u8]),
    // The file, the stamp and the block.
    Fetch(Client, u32, u32, u16),
    // The file, the stamp and the bytes of block 0.
    WriteBack(Client, u32, u32, &'static [u8]),
    // The stream, the file, the target, whether references stay, and the grants.
    Move(Client, (Client, u32), u32, Client, bool, u32),
    // The remote call, the file's size, and the bytes of block 0; none where there is no byte.
    Flushed(u32, u32, &'static [u8]),
    PageOut,
    PageIn,
}

// What comes, and what the server says to it.
type Row = (Step, Counts, Told);

// What comes to a server that begins without files, and what it says. The remote calls of the row at a place are numbered from
// 100 and ten times that place on.
static SCRIPT: [Row; 61] = [
    // Names, an open, a redirect and a fetch.
    (Step::Echo, (0, 0, 1), Told::Done),
    (Step::Prefix(b"/d"), (0, 0, 1), Told::Here),
    (Step::Prefix(b"/m"), (0, 0, 0), Told::Nothing),
    (
        Step::Name(NameOp::Stat, b"/"),
        (0, 1, 1),
        Told::Value(2, 2, 0),
    ),
    (
        Step::Name(NameOp::Mkdir, b"/x"),
        (0, 1, 1),
        Told::Value(0, 0, 0),
    ),
    (
        Step::Name(NameOp::Mkdir, b"/x"),
        (0, 1, 1),
        Told::Refused(Errno::Exists),
    ),
    (
        Step::Open(First, (First, 1), b"/x/f", 1),
        (0, 1, 1),
        Told::Refused(Errno::NoEntry),
    ),
    (
        Step::Open(First, (First, 1), b"/x/f", 7),
        (0, 3, 1),
        Told::Opened(true, 0),
    ),
    (
        Step::Open(First, (First, 2), b"/x/f", 0),
        (0, 1, 1),
        Told::Refused(Errno::Invalid),
    ),
    (
        Step::Open(First, (First, 2), b"/x", 1),
        (0, 1, 1),
        Told::Refused(Errno::IsDir),
    ),
    // A file that is cached, and whose callbacks are out.
    (
        Step::Open(First, (First, 2), b"/m/f", 1),
        (0, 0, 1),
        Told::Redirect,
    ),
    (Step::Fetch(First, 1, 1, 0), (0, 0, 1), Told::Block(0)),
    (
        Step::WriteBack(First, 1, 1, b"hello"),
        (0, 0, 1),
        Told::Done,
    ),
    (Step::Fetch(First, 1, 1, 0), (0, 0, 1), Told::Block(5)),
    // A stamp that isn't the current one.
    (Step::Fetch(First, 1, 9, 0), (0, 0, 1), Told::Again(1, true)),
    // The writer is stopped first; meanwhile the file is busy.
    (
        Step::Open(Second, (Second, 1), b"/x/f", 1),
        (1, 2, 0),
        Told::Nothing,
    ),
    (Step::Fetch(First, 1, 1, 0), (0, 0, 0), Told::Nothing),
    (
        Step::Name(NameOp::Unlink, b"/x/f"),
        (0, 0, 0),
        Told::Nothing,
    ),
    (
        Step::Flushed(250, 6, b"hello!"),
        (0, 4, 3),
        Told::Value(0, 0, 0),
    ),
    (
        Step::Name(NameOp::Stat, b"/x/f"),
        (0, 1, 1),
        Told::Refused(Errno::NoEntry),
    ),
    // A file that isn't cached, and a stream that becomes shared.
    (
        Step::Op(Second, FileOp::Read, (Second, 1), 1, 3, Some(1), b"1234"),
        (0, 1, 1),
        Told::Value(4, 0, 4),
    ),
    (
        Step::Op(First, FileOp::Write, (First, 1), 1, 2, Some(6), b"??"),
        (0, 1, 1),
        Told::Value(2, 0, 0),
    ),
    (
        Step::Op(First, FileOp::Size, (First, 1), 1, 2, None, b""),
        (0, 1, 1),
        Told::Value(8, 0, 0),
    ),
    (
        Step::Op(First, FileOp::Append, (First, 1), 1, 2, None, b"!"),
        (0, 1, 1),
        Told::Value(1, 9, 0),
    ),
    (
        Step::Op(First, FileOp::Write, (First, 1), 1, 2, Some(262_144), b"x"),
        (0, 1, 1),
        Told::Refused(Errno::TooBig),
    ),
    // The stream becomes shared: its offset, 3, is the server's.
    (
        Step::Move(First, (First, 1), 1, Second, true, 0),
        (0, 3, 1),
        Told::Moved(true),
    ),
    (
        Step::Op(Second, FileOp::Read, (First, 1), 1, 4, None, b"12"),
        (0, 1, 1),
        Told::Value(2, 0, 2),
    ),
    (
        Step::Op(First, FileOp::Read, (First, 1), 1, 2, None, b"123456"),
        (0, 1, 1),
        Told::Value(4, 0, 4),
    ),
    (
        Step::Op(First, FileOp::Seek, (First, 1), 1, 2, Some(8), b""),
        (0, 1, 1),
        Told::Value(8, 0, 0),
    ),
    (
        Step::Op(Second, FileOp::Read, (First, 1), 1, 4, None, b"12"),
        (0, 1, 1),
        Told::Value(1, 0, 1),
    ),
    (
        Step::Op(First, FileOp::Append, (First, 1), 1, 2, None, b"z"),
        (0, 1, 1),
        Told::Value(1, 10, 0),
    ),
    // A shared stream, until it is closed by all.
    (Step::Close(First, (First, 1), 1, 1), (0, 1, 1), Told::Done),
    (
        Step::Close(Second, (Second, 1), 1, 1),
        (0, 1, 1),
        Told::Done,
    ),
    (Step::Close(Second, (First, 1), 1, 1), (0, 1, 1), Told::Done),
    // The file had no name: it is forgotten.
    (Step::WriteBack(First, 1, 2, b"late"), (0, 0, 1), Told::Done),
    // A forgotten file, and a pseudo-device.
    (Step::Make(b"/x/v"), (0, 1, 1), Told::Value(3, 0, 0)),
    (
        Step::Open(Second, (Second, 2), b"/x/v", 3),
        (0, 1, 1),
        Told::Device,
    ),
    (
        Step::Name(NameOp::Unlink, b"/x/v"),
        (0, 1, 1),
        Told::Value(0, 0, 0),
    ),
    (
        Step::Rename(b"/x", b"/y"),
        (0, 1, 1),
        Told::Refused(Errno::IsDir),
    ),
    (
        Step::Rename(b"/x/a", b"/d/a"),
        (0, 1, 1),
        Told::Refused(Errno::XDev),
    ),
    (Step::Rename(b"/m/a", b"/x/a"), (0, 0, 1), Told::Redirect),
    (
        Step::Open(First, (First, 2), b"/d/g", 7),
        (0, 3, 1),
        Told::Opened(true, 0),
    ),
    (
        Step::Rename(b"/d/g", b"/d/h"),
        (0, 1, 1),
        Told::Value(0, 0, 0),
    ),
    (
        Step::Name(NameOp::List, b"/d"),
        (0, 1, 1),
        Told::Value(2, 0, 2),
    ),
    // Renames, lists, working directories.
    (
        Step::Name(NameOp::List, b"/"),
        (0, 1, 1),
        Told::Value(6, 0, 6),
    ),
    (
        Step::Name(NameOp::Chdir, b"/d/h"),
        (0, 1, 1),
        Told::Refused(Errno::NotDir),
    ),
    (
        Step::Name(NameOp::Chdir, b"/d"),
        (0, 1, 1),
        Told::Value(0, 0, 0),
    ),
    (
        Step::Name(NameOp::Rmdir, b"/d"),
        (0, 1, 1),
        Told::Refused(Errno::Busy),
    ),
    (
        Step::Name(NameOp::Rmdir, b"/x"),
        (0, 1, 1),
        Told::Value(0, 0, 0),
    ),
    (Step::PageOut, (0, 0, 1), Told::Done),
    (Step::PageIn, (0, 0, 1), Told::Page(4)),
    // Pages, and recalls and truncations.
    (Step::PageIn, (0, 0, 0), Told::Nothing),
    (Step::Close(First, (First, 2), 2, 1), (0, 1, 1), Told::Done),
    // The dirty blocks are recalled from the last writer.
    (
        Step::Open(Second, (Second, 3), b"/d/h", 1),
        (1, 2, 0),
        Told::Nothing,
    ),
    (
        Step::Flushed(630, 3, b"abc"),
        (0, 3, 1),
        Told::Opened(true, 3),
    ),
    // A truncation stops both, in ascending order.
    (
        Step::Open(First, (First, 3), b"/d/h", 10),
        (2, 4, 0),
        Told::Nothing,
    ),
    (Step::Flushed(651, 3, b""), (0, 0, 0), Told::Nothing),
    (Step::Flushed(9_999, 3, b"abc"), (0, 0, 0), Told::Nothing),
    (
        Step::Flushed(650, 3, b""),
        (0, 3, 1),
        Told::Opened(false, 0),
    ),
    (
        Step::Move(Second, (Second, 3), 2, First, false, 1),
        (0, 3, 1),
        Told::Moved(true),
    ),
    (Step::Name(NameOp::Walk, b"/d"), (0, 0, 0), Told::Nothing),
];

// Those who take part: the clients, the server, the process that asks and the descriptor that it asks for.
#[derive(Clone, Copy)]
struct Cast {
    alloc: Global,
    first: Kernel,
    second: Kernel,
    server: Kernel,
    pid: Pid,
    fd: Descriptor,
}

fn whole_cast(alloc: Global) -> Option<Cast> {
    let first = Kernel::new(1)?;
    Some(Cast {
        alloc,
        first,
        second: Kernel::new(2)?,
        server: Kernel::new(16)?,
        pid: Pid::new(first, 1)?,
        fd: Descriptor::new(3)?,
    })
}

fn kernel(cast: &Cast, client: Client) -> Kernel {
    match client {
        First => cast.first,
        Second => cast.second,
    }
}

fn file(cast: &Cast, number: u32) -> FileId {
    FileId {
        server: cast.server,
        number,
    }
}

fn stream(cast: &Cast, name: (Client, u32)) -> StreamNo {
    StreamNo {
        kernel: kernel(cast, name.0),
        number: name.1,
    }
}

// How many bytes these are.
fn length(bytes: &[u8]) -> u32 {
    u32::try_from(bytes.len()).unwrap_or(0)
}

// A path, and its text.
fn named(alloc: Global, text: &[u8]) -> Option<(Path, Bytes)> {
    let path = path(alloc, text).ok()?;
    let bytes = Bytes::of_slice(alloc, text).ok()?;
    Some((path, bytes))
}

fn opening(cast: &Cast, name: (Client, u32), text: &[u8], flags: u8) -> Option<Request> {
    let (path, text) = named(cast.alloc, text)?;
    Some(Request::Opening(OpeningRequest {
        pid: cast.pid,
        number: 1,
        stream: stream(cast, name),
        path,
        flags,
        fd: cast.fd,
        text,
    }))
}

fn name(cast: &Cast, op: NameOp, text: &[u8], new: &[u8]) -> Option<Request> {
    let (path, text) = named(cast.alloc, text)?;
    let (second, second_text) = named(cast.alloc, new)?;
    Some(Request::Name(NameRequest {
        pid: cast.pid,
        number: 1,
        op,
        path,
        second: Some(second),
        max: 100,
        text,
        second_text: Some(second_text),
    }))
}

fn make(cast: &Cast, text: &[u8]) -> Option<Request> {
    let (path, text) = named(cast.alloc, text)?;
    Some(Request::Make(MakeRequest {
        pid: cast.pid,
        number: 1,
        stream: stream(cast, (First, 9)),
        path,
        device: DeviceId {
            kernel: cast.first,
            number: 1,
        },
        fd: cast.fd,
        text,
    }))
}

fn write_back(cast: &Cast, number: u32, stamp: u32, bytes: &[u8]) -> Option<Request> {
    Some(Request::WriteBack(WriteBackRequest {
        file: file(cast, number),
        stamp,
        block: BlockNo(0),
        size: length(bytes),
        bytes: Bytes::of_slice(cast.alloc, bytes).ok()?,
    }))
}

fn page_out(cast: &Cast) -> Option<Request> {
    Some(Request::PageOut(PageOutRequest {
        pid: cast.pid,
        page: 2,
        bytes: Bytes::of_slice(cast.alloc, b"page").ok()?,
    }))
}

fn moving(
    cast: &Cast,
    name: (Client, u32),
    of: u32,
    to: Client,
    kept: bool,
    grants: u32,
) -> Request {
    Request::Move(MoveRequest {
        stream: stream(cast, name),
        object: Target::File(file(cast, of)),
        to: kernel(cast, to),
        kept,
        offset: Some(3),
        grants,
    })
}

fn op(
    cast: &Cast,
    op: FileOp,
    name: (Client, u32),
    of: u32,
    stamp: u32,
    offset: Option<u32>,
    bytes: &[u8],
) -> Option<Request> {
    Some(Request::Op(OpRequest {
        pid: cast.pid,
        number: 1,
        file: file(cast, of),
        stamp,
        stream: stream(cast, name),
        op,
        offset,
        length: length(bytes),
        bytes: Bytes::of_slice(cast.alloc, bytes).ok()?,
        fd: cast.fd,
    }))
}

fn prefix(cast: &Cast, text: &[u8]) -> Option<Request> {
    let path = path(cast.alloc, text).ok()?;
    Some(Request::Prefix { path })
}

fn close(cast: &Cast, name: (Client, u32), of: u32, grants: u32) -> Request {
    Request::Close(CloseRequest {
        object: Target::File(file(cast, of)),
        stream: stream(cast, name),
        grants,
    })
}

fn fetch(cast: &Cast, number: u32, stamp: u32, block: u16) -> Request {
    Request::Fetch(FetchRequest {
        file: file(cast, number),
        stamp,
        block: BlockNo(block),
    })
}

fn page_in(cast: &Cast) -> Request {
    Request::PageIn {
        pid: cast.pid,
        page: 2,
    }
}

// A request about names.
fn name_request(cast: &Cast, step: &Step) -> Option<Request> {
    match *step {
        Step::Prefix(text) => prefix(cast, text),
        Step::Open(_, stream, text, flags) => opening(cast, stream, text, flags),
        Step::Name(op, text) => name(cast, op, text, b"/"),
        Step::Rename(text, new) => name(cast, NameOp::Rename, text, new),
        Step::Make(text) => make(cast, text),
        _ => Some(Request::Echo),
    }
}

// The request that the step is.
fn request(cast: &Cast, step: &Step) -> Option<Request> {
    match *step {
        Step::Close(_, stream, of, grants) => Some(close(cast, stream, of, grants)),
        Step::Op(_, what, stream, of, stamp, offset, bytes) => {
            op(cast, what, stream, of, stamp, offset, bytes)
        }
        Step::Fetch(_, number, stamp, block) => Some(fetch(cast, number, stamp, block)),
        Step::WriteBack(_, number, stamp, bytes) => write_back(cast, number, stamp, bytes),
        Step::Move(_, stream, of, to, kept, grants) => {
            Some(moving(cast, stream, of, to, kept, grants))
        }
        Step::PageOut => page_out(cast),
        Step::PageIn => Some(page_in(cast)),
        _ => name_request(cast, step),
    }
}

// The client that the step comes from.
fn sender(step: &Step) -> Client {
    match *step {
        Step::Open(from, ..) => from,
        Step::Close(from, ..) => from,
        Step::Op(from, ..) => from,
        Step::Fetch(from, ..) => from,
        Step::WriteBack(from, ..) => from,
        Step::Move(from, ..) => from,
        _ => First,
    }
}

// An answer to a callback: block 0 with these bytes, and no block where there is no byte.
fn flushed(alloc: Global, size: u32, bytes: &[u8]) -> Option<Flushed> {
    let mut blocks = Vec::with_capacity(alloc, 1).ok()?;
    if !bytes.is_empty() {
        blocks.push_reserved((BlockNo(0), Bytes::of_slice(alloc, bytes).ok()?));
    }
    Some(Flushed {
        size,
        blocks: Items::of_vec(blocks),
    })
}

fn input(cast: &Cast, step: &Step) -> Option<Input> {
    let from = kernel(cast, sender(step));
    match *step {
        Step::Flushed(tx, size, bytes) => Some(Input::Replied {
            tx: TxNo(tx),
            from,
            body: ReplyBody::Flushed(flushed(cast.alloc, size, bytes)?),
        }),
        _ => Some(Input::Request {
            tx: TxNo(1),
            from,
            body: request(cast, step)?,
        }),
    }
}

// The number of the first remote call of the script's step at that place.
fn first_call(place: usize) -> TxNo {
    let place = u32::try_from(place).unwrap_or(0);
    TxNo(place.wrapping_mul(10).wrapping_add(100))
}

// Makes the step with that input; whether the server says to it what it is to say.
fn tells(alloc: Global, server: &mut Server, input: &Input, place: usize, row: &Row) -> bool {
    let Ok(out) = server.take(alloc, input, first_call(place)) else {
        return false;
    };
    let said = is_said(&out, row.1, row.2);
    std::mem::drop(out);
    said
}

// Whether the server says to the row of that place what it is to say.
fn says(cast: &Cast, server: &mut Server, place: usize, row: &Row) -> bool {
    let Some(input) = input(cast, &row.0) else {
        return false;
    };
    let said = tells(cast.alloc, server, &input, place, row);
    std::mem::drop(input);
    said
}

// Whether the server says to all rows, one after another, what it is to say.
fn says_all(cast: &Cast, server: &mut Server, rows: &[Row]) -> bool {
    for (place, row) in rows.iter().enumerate() {
        if !says(cast, server, place, row) {
            return false;
        }
    }
    true
}

// The first file is there with the bytes of both its lines, the second line's file is another server's, and the next file has
// number 4.
static BOOTED: [Row; 6] = [
    (
        Step::Name(NameOp::Stat, b"/d"),
        (0, 1, 1),
        Told::Value(2, 1, 0),
    ),
    (
        Step::Open(First, (First, 1), b"/d/e/b", 1),
        (0, 3, 1),
        Told::Opened(true, 3),
    ),
    (Step::Fetch(First, 1, 1, 0), (0, 0, 1), Told::Block(3)),
    (Step::Name(NameOp::Stat, b"/m/q"), (0, 0, 1), Told::Redirect),
    (
        Step::Open(First, (First, 2), b"/n", 7),
        (0, 3, 1),
        Told::Opened(true, 0),
    ),
    (Step::Close(First, (First, 2), 4, 1), (0, 1, 1), Told::Done),
];

// The line of a file: the path, the bytes, and whether they go behind the file's bytes so far.
type FileRow = (&'static [u8], &'static [u8], bool);

static FILES: [FileRow; 3] = [
    (b"/d/e/b", b"hi", false),
    (b"/m/q", b"other", false),
    (b"/d/e/b", b"!", true),
];

fn file_lines(alloc: Global, rows: &[FileRow]) -> Result<Items<FileLine>, NoMemory> {
    let mut lines = Items::new(alloc);
    for row in rows {
        lines.push(file_line(alloc, row.0, row.1, row.2)?)?;
    }
    Ok(lines)
}

// Whether the server of that cluster says to all rows what it is to say.
fn server_says(cast: &Cast, cluster: &Description, rows: &[Row]) -> bool {
    let Ok(Some(mut server)) = Server::boot(cast.alloc, cluster, cast.server) else {
        return false;
    };
    let said = says_all(cast, &mut server, rows);
    std::mem::drop(server);
    said
}

fn cluster_with(alloc: Global, files: &[FileRow]) -> Result<Description, NoMemory> {
    described(alloc, file_lines(alloc, files)?)
}

// The same of a cluster that begins with these files.
fn says_with(alloc: Global, files: &[FileRow], rows: &[Row]) -> bool {
    let Some(cast) = whole_cast(alloc) else {
        return false;
    };
    let Ok(cluster) = cluster_with(alloc, files) else {
        return false;
    };
    let said = server_says(&cast, &cluster, rows);
    std::mem::drop(cluster);
    said
}

#[test]
fn steps_say_as_worked_out(rt: HostRuntime) {
    assert!(rt; says_with(rt.alloc(), &[], &SCRIPT));
}

#[test]
fn files_are_there_at_boot(rt: HostRuntime) {
    assert!(rt; says_with(rt.alloc(), &FILES, &BOOTED));
}
