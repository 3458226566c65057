use process_machine::Image;
use sprite_bytes::Message;
use sprite_ids::{
    AskKind, BlockNo, Bytes, CallKind, Copying, DeviceId, FileId, Grant, Mode, NoMemory, Pid,
    StreamNo,
};
use sprite_paths::Path;
use std::alloc::Global;
use std::test::*;
use wire_format::{
    AskRequest, Body, CallbackRequest, CarriedMode, CarriedStream, CloseRequest, Descriptor,
    FetchRequest, FileOp, HomeCall, HomeRequest, LaunchRequest, MakeRequest, MoveRequest, NameOp,
    NameRequest, OpRequest, OpenedReply, OpeningRequest, Packet, PageOutRequest, ReplyBody,
    Request, Target, TransferRequest, ValueReply, WriteBackRequest,
};

// A packet of each form, in pairs of hexadecimal digits, from kernel 1 to kernel 2 or back, with call 1. Process 1,001,
// the number 5, file 7 of kernel 3, stream 2 of kernel 1, device 9 of kernel 2, stamp 4, paths `/f`, `/g` and `/`.
static PACKETS: [&str; 31] = [
    // Echo
    "01 01 02 01000000 01",
    // Prefix
    "01 01 02 01000000 02 02000000 2f66",
    // Opening
    "01 01 02 01000000 03 e9030000 05000000 0102000000 02000000 2f66 07 00 01000000 66",
    // Name
    "01 01 02 01000000 04 e9030000 05000000 06 02000000 2f66 01 02000000 2f67 00000000 \
     01000000 66 01 01000000 67",
    // Make
    "01 01 02 01000000 05 e9030000 05000000 0102000000 02000000 2f66 0209000000 03 01000000 \
     66",
    // Close
    "01 01 02 01000000 06 01 0307000000 0102000000 02000000",
    // Op
    "01 01 02 01000000 07 e9030000 05000000 0307000000 04000000 0102000000 04 01 00100000 \
     00000000 00000000 00",
    // Fetch
    "01 01 02 01000000 08 0307000000 04000000 0102",
    // WriteBack
    "01 01 02 01000000 09 0307000000 04000000 0102 03000000 03000000 616263",
    // Callback
    "01 01 02 01000000 0a 0307000000 04000000 02",
    // Move
    "01 01 02 01000000 0b 0102000000 020209000000 02 01 00 01000000",
    // Transfer
    "01 01 02 01000000 0c e9030000 05000000 01 0200 0000000000000080 0100000000000080 \
     0200000000000080 0300000000000080 0400000000000080 0500000000000080 0600000000000080 \
     0700000000000080 01000000 00 01000000 2f 01000000 00 0102000000 01000000 0102000000 \
     010307000000 12 00 01 0307000000 04000000 05000000 06000000 00100000 01 00 02000000 00 \
     01",
    // Home
    "01 01 02 01000000 0d e9030000 05000000 0a ea030000",
    // Place
    "01 01 02 01000000 0e e9030000 02",
    // Killed
    "01 01 02 01000000 0f e9030000",
    // Ask
    "01 01 02 01000000 10 e9030000 05000000 0209000000 01 08000000 02000000 0800 0f",
    // PageOut
    "01 01 02 01000000 11 e9030000 07 02000000 0102",
    // PageIn
    "01 01 02 01000000 12 e9030000 00",
    // Launch
    "01 01 02 01000000 13 e9030000 05000000 02 01000000 2f 00000000 00000000 01",
    // Done
    "02 02 01 01000000 01",
    // Here
    "02 02 01 01000000 02 01000000 2f",
    // Refused
    "02 02 01 01000000 03 14",
    // Redirect
    "02 02 01 01000000 04 02000000 2f67",
    // Opened
    "02 02 01 01000000 05 010307000000 00 00000400",
    // Value
    "02 02 01 01000000 06 0102030405060708 0900000000000000 01000000 0a",
    // Again
    "02 02 01 01000000 07 0307000000 04000000 05000000 06000000 00100000 01 00",
    // Block
    "02 02 01 01000000 08 04000000 02000000 6162",
    // Flushed
    "02 02 01 01000000 09 02000000 01000000 0000 02000000 6162",
    // Moved
    "02 02 01 01000000 0a 01 0307000000 04000000 05000000 06000000 00100000 01 00 01000000",
    // Page
    "02 02 01 01000000 0b 01000000 00",
    // Gone
    "02 02 01 01000000 0c",
];

// Bytes that spell no packet, each for one cause.
static SPOILED: [&str; 44] = [
    // no bytes
    "",
    // a byte more
    "01 01 02 01000000 01 00",
    // a byte less
    "01 01 02 01000000",
    // half a path
    "01 01 02 01000000 02 02000000 2f",
    // kind 0
    "00 01 02 01000000 01",
    // kind 3
    "03 01 02 01000000 01",
    // kernel 0
    "01 00 02 01000000 01",
    // kernel 17
    "01 01 11 01000000 01",
    // request 0
    "01 01 02 01000000 00",
    // request 20
    "01 01 02 01000000 14",
    // reply 0
    "02 02 01 01000000 00",
    // reply 13
    "02 02 01 01000000 0d",
    // a request that is marked as a reply
    "02 01 02 01000000 13",
    // process 1,000
    "01 01 02 01000000 0f e8030000",
    // process 1,201
    "01 01 02 01000000 0f b1040000",
    // process 17,001
    "01 01 02 01000000 0f 69420000",
    // process 257,001
    "01 01 02 01000000 0f e9eb0300",
    // a truth of 2
    "01 01 02 01000000 0b 0102000000 020209000000 02 02 00 01000000",
    // an option of 2
    "01 01 02 01000000 0b 0102000000 020209000000 02 01 02 01000000",
    // object 3
    "01 01 02 01000000 06 03 0307000000 0102000000 02000000",
    // no path
    "01 01 02 01000000 02 00000000",
    // path `f`
    "01 01 02 01000000 02 01000000 66",
    // path `/f/`
    "01 01 02 01000000 02 03000000 2f662f",
    // path `//f`
    "01 01 02 01000000 02 03000000 2f2f66",
    // path `/.`
    "01 01 02 01000000 02 02000000 2f2e",
    // a space in a path
    "01 01 02 01000000 02 02000000 2f20",
    // a text past the end
    "01 01 02 01000000 02 03000000 2f66",
    // four billion bytes
    "01 01 02 01000000 02 ffffffff 2f66",
    // descriptor 16
    "01 01 02 01000000 03 e9030000 05000000 0102000000 02000000 2f66 07 10 01000000 66",
    // a descriptor of 16 in a list
    "01 01 02 01000000 0c e9030000 05000000 01 0200 0000000000000080 0100000000000080 \
     0200000000000080 0300000000000080 0400000000000080 0500000000000080 0600000000000080 \
     0700000000000080 01000000 00 01000000 2f 01000000 10 0102000000 01000000 0102000000 \
     010307000000 12 00 01 0307000000 04000000 05000000 06000000 00100000 01 00 02000000 00 \
     01",
    // mode 17 of a carried stream
    "01 01 02 01000000 0c e9030000 05000000 01 0200 0000000000000080 0100000000000080 \
     0200000000000080 0300000000000080 0400000000000080 0500000000000080 0600000000000080 \
     0700000000000080 01000000 00 01000000 2f 01000000 00 0102000000 01000000 0102000000 \
     010307000000 11 00 01 0307000000 04000000 05000000 06000000 00100000 01 00 02000000 00 \
     01",
    // four billion descriptors
    "01 01 02 01000000 13 e9030000 05000000 02 01000000 2f ffffffff 00000000 01",
    // no pages
    "01 01 02 01000000 0c e9030000 05000000 01 0200 0000000000000080 0100000000000080 \
     0200000000000080 0300000000000080 0400000000000080 0500000000000080 0600000000000080 \
     0700000000000080 00000000 01000000 2f 01000000 00 0102000000 01000000 0102000000 \
     010307000000 12 00 01 0307000000 04000000 05000000 06000000 00100000 01 00 02000000 00 \
     01",
    // nine pages
    "01 01 02 01000000 0c e9030000 05000000 01 0200 0000000000000080 0100000000000080 \
     0200000000000080 0300000000000080 0400000000000080 0500000000000080 0600000000000080 \
     0700000000000080 09000000 00 00 00 00 00 00 00 00 00 01000000 2f 01000000 00 0102000000 \
     01000000 0102000000 010307000000 12 00 01 0307000000 04000000 05000000 06000000 00100000 \
     01 00 02000000 00 01",
    // a page of three bytes
    "01 01 02 01000000 0c e9030000 05000000 01 0200 0000000000000080 0100000000000080 \
     0200000000000080 0300000000000080 0400000000000080 0500000000000080 0600000000000080 \
     0700000000000080 01000000 01 03000000 010203 01000000 2f 01000000 00 0102000000 01000000 \
     0102000000 010307000000 12 00 01 0307000000 04000000 05000000 06000000 00100000 01 00 \
     02000000 00 01",
    // error 0
    "02 02 01 01000000 03 00",
    // error 21
    "02 02 01 01000000 03 15",
    // name call 9
    "01 01 02 01000000 04 e9030000 05000000 09 02000000 2f66 01 02000000 2f67 00000000 \
     01000000 66 01 01000000 67",
    // file operation 6
    "01 01 02 01000000 07 e9030000 05000000 0307000000 04000000 0102000000 06 01 00100000 \
     00000000 00000000 00",
    // callback 3
    "01 01 02 01000000 0a 0307000000 04000000 03",
    // ask 4
    "01 01 02 01000000 10 e9030000 05000000 0209000000 04 08000000 02000000 0800 0f",
    // grant with mode 3
    "02 02 01 01000000 07 0307000000 04000000 05000000 06000000 00100000 03 00",
    // call 3 at a home
    "01 01 02 01000000 0d e9030000 05000000 03",
    // call 8 at a home
    "01 01 02 01000000 0d e9030000 05000000 08 e9030000",
];

// The value of a hexadecimal digit; None of any other byte.
fn digit(byte: u8) -> Option<u8> {
    match byte {
        b'0'..=b'9' => Some(byte - b'0'),
        b'a'..=b'f' => Some(byte - b'a' + 10),
        _ => None,
    }
}

// The bytes of pairs of digits; spaces between them count for nothing.
fn bytes_of(alloc: Global, text: &str) -> Result<Vec<u8>, NoMemory> {
    let mut bytes = Vec::new(alloc);
    let mut first = None;
    for byte in text.as_bytes() {
        match (first, digit(*byte)) {
            (_, None) => {}
            (None, Some(value)) => first = Some(value),
            (Some(high), Some(low)) => {
                bytes.push(high << 4 | low)?;
                first = None;
            }
        }
    }
    Ok(bytes)
}

fn is_process(pid: &Pid) -> bool {
    pid.number() == 1001
}

fn is_file(file: &FileId) -> bool {
    file.server.number() == 3 && file.number == 7
}

fn is_stream(stream: &StreamNo) -> bool {
    stream.kernel.number() == 1 && stream.number == 2
}

fn is_device(device: &DeviceId) -> bool {
    device.kernel.number() == 2 && device.number == 9
}

fn is_path(path: &Path, name: &[u8]) -> bool {
    match path.last() {
        None => false,
        Some(last) => path.len() == 1 && last.as_slice() == name,
    }
}

fn is_text(bytes: &Bytes, wanted: &[u8]) -> bool {
    bytes.as_slice() == wanted
}

fn is_grant(grant: &Grant) -> bool {
    let versions = grant.stamp == 4 && grant.old == 5 && grant.new == 6;
    versions && is_file(&grant.file) && grant.size == 4096 && grant.on && !grant.holder
}

fn is_granted(grant: &Option<Grant>) -> bool {
    match grant {
        None => false,
        Some(grant) => is_grant(grant),
    }
}

fn leads_to_file(object: &Target) -> bool {
    match object {
        Target::File(file) => is_file(file),
        Target::Device(_) => false,
    }
}

fn leads_to_device(object: &Target) -> bool {
    match object {
        Target::File(_) => false,
        Target::Device(device) => is_device(device),
    }
}

fn is_opening(fields: &OpeningRequest) -> bool {
    let call = is_process(&fields.pid) && fields.number == 5 && is_stream(&fields.stream);
    let named = is_path(&fields.path, b"f") && is_text(&fields.text, b"f");
    call && named && fields.flags == 7 && fields.fd.number() == 0
}

fn is_second(second: &Option<Path>, text: &Option<Bytes>) -> bool {
    match (second, text) {
        (Some(path), Some(text)) => is_path(path, b"g") && is_text(text, b"g"),
        _ => false,
    }
}

fn is_rename(fields: &NameRequest) -> bool {
    let call = is_process(&fields.pid) && fields.number == 5 && fields.op == NameOp::Rename;
    let named = is_path(&fields.path, b"f") && is_text(&fields.text, b"f");
    call && named && fields.max == 0 && is_second(&fields.second, &fields.second_text)
}

fn is_make(fields: &MakeRequest) -> bool {
    let call = is_process(&fields.pid) && fields.number == 5 && is_stream(&fields.stream);
    let named = is_path(&fields.path, b"f") && is_text(&fields.text, b"f");
    call && named && is_device(&fields.device) && fields.fd.number() == 3
}

fn is_close(fields: &CloseRequest) -> bool {
    leads_to_file(&fields.object) && is_stream(&fields.stream) && fields.grants == 2
}

fn is_seek(fields: &OpRequest) -> bool {
    let call = is_process(&fields.pid) && fields.number == 5 && fields.op == FileOp::Seek;
    let file = is_file(&fields.file) && fields.stamp == 4 && is_stream(&fields.stream);
    let place = fields.offset == Some(4096) && fields.length == 0 && fields.bytes.is_empty();
    call && file && place && fields.fd.number() == 0
}

fn is_fetch(fields: &FetchRequest) -> bool {
    is_file(&fields.file) && fields.stamp == 4 && fields.block == BlockNo(513)
}

fn is_write_back(fields: &WriteBackRequest) -> bool {
    let block = is_file(&fields.file) && fields.stamp == 4 && fields.block == BlockNo(513);
    block && fields.size == 3 && is_text(&fields.bytes, b"abc")
}

fn is_stop(fields: &CallbackRequest) -> bool {
    is_file(&fields.file) && fields.stamp == 4 && fields.kind == CallKind::Stop
}

fn is_move(fields: &MoveRequest) -> bool {
    let stream = is_stream(&fields.stream) && leads_to_device(&fields.object);
    stream
        && fields.to.number() == 2
        && fields.kept
        && fields.offset.is_none()
        && fields.grants == 1
}

fn is_carried(carried: &CarriedStream) -> bool {
    let stream = is_stream(&carried.stream) && leads_to_file(&carried.object);
    let granted = is_granted(&carried.grant) && carried.grants == 2;
    let mode = CarriedMode::new(Mode::Write, true) == Some(carried.mode);
    stream && granted && mode && carried.mode.append() && carried.offset.is_none()
}

fn is_image(image: &Image) -> bool {
    let registers = image.registers();
    let place = image.program_number() == 1 && image.counter() == 2;
    place && registers[7] == 0x8000_0000_0000_0007 && image.page_count() == 1
}

fn is_transfer(fields: &TransferRequest) -> bool {
    let call = is_process(&fields.pid) && fields.number == 5 && is_image(&fields.image);
    let lists = are_open(fields.fds.as_slice()) && are_carried(fields.streams.as_slice());
    call && lists && fields.cwd.is_root() && !fields.killed && fields.moving
}

fn are_open(fds: &[(Descriptor, StreamNo)]) -> bool {
    fds.len() == 1 && fds[0].0.number() == 0 && is_stream(&fds[0].1)
}

fn are_carried(streams: &[CarriedStream]) -> bool {
    streams.len() == 1 && is_carried(&streams[0])
}

fn is_kill(fields: &HomeRequest) -> bool {
    let call = is_process(&fields.pid) && fields.number == 5;
    match &fields.call {
        HomeCall::Kill { pid } => call && pid.number() == 1002,
        _ => false,
    }
}

fn is_ask(fields: &AskRequest) -> bool {
    let call = is_process(&fields.pid) && fields.number == 5 && is_device(&fields.device);
    let read = fields.kind == AskKind::Read && fields.length == 8;
    call && read && is_text(&fields.bytes, &[8, 0]) && fields.fd.number() == 15
}

fn is_page_out(fields: &PageOutRequest) -> bool {
    is_process(&fields.pid) && fields.page == 7 && is_text(&fields.bytes, &[1, 2])
}

fn is_launch(fields: &LaunchRequest) -> bool {
    let call = is_process(&fields.pid) && fields.number == 5 && fields.program == 2;
    call && fields.cwd.is_root()
        && fields.fds.is_empty()
        && fields.streams.is_empty()
        && fields.killed
}

// Whether it is the request of that row, with its values.
fn is_request(row: usize, request: &Request) -> bool {
    match request {
        Request::Echo => row == 0,
        Request::Prefix { path } => row == 1 && is_path(path, b"f"),
        Request::Opening(fields) => row == 2 && is_opening(fields),
        Request::Name(fields) => row == 3 && is_rename(fields),
        Request::Make(fields) => row == 4 && is_make(fields),
        Request::Close(fields) => row == 5 && is_close(fields),
        Request::Op(fields) => row == 6 && is_seek(fields),
        Request::Fetch(fields) => row == 7 && is_fetch(fields),
        Request::WriteBack(fields) => row == 8 && is_write_back(fields),
        Request::Callback(fields) => row == 9 && is_stop(fields),
        Request::Move(fields) => row == 10 && is_move(fields),
        Request::Transfer(fields) => row == 11 && is_transfer(fields),
        Request::Home(fields) => row == 12 && is_kill(fields),
        Request::Place { pid, kernel } => row == 13 && is_process(pid) && kernel.number() == 2,
        Request::Killed { pid } => row == 14 && is_process(pid),
        Request::Ask(fields) => row == 15 && is_ask(fields),
        Request::PageOut(fields) => row == 16 && is_page_out(fields),
        Request::PageIn { pid, page } => row == 17 && is_process(pid) && *page == 0,
        Request::Launch(fields) => row == 18 && is_launch(fields),
    }
}

// Whether the request tells of its call exactly where its form carries one.
fn is_about(row: usize, request: &Request) -> bool {
    let carries = matches!(row, 2 | 3 | 4 | 6 | 11 | 12 | 15 | 18);
    match request.about() {
        None => !carries,
        Some((pid, number)) => carries && is_process(&pid) && number == 5,
    }
}

fn is_opened(fields: &OpenedReply) -> bool {
    leads_to_file(&fields.object) && fields.grant.is_none() && fields.size == 0x40000
}

fn is_value(fields: &ValueReply) -> bool {
    fields.first == 0x0807_0605_0403_0201 && fields.second == 9 && is_text(&fields.bytes, &[10])
}

fn are_blocks(blocks: &[(BlockNo, Bytes)]) -> bool {
    blocks.len() == 1 && blocks[0].0 == BlockNo(0) && is_text(&blocks[0].1, b"ab")
}

// Whether it is the reply of that row, with its values.
fn is_reply(row: usize, reply: &ReplyBody) -> bool {
    match reply {
        ReplyBody::Done => row == 19,
        ReplyBody::Here { path } => row == 20 && path.is_root(),
        ReplyBody::Refused { errno } => row == 21 && errno.number() == 20,
        ReplyBody::Redirect { path } => row == 22 && is_path(path, b"g"),
        ReplyBody::Opened(fields) => row == 23 && is_opened(fields),
        ReplyBody::Value(fields) => row == 24 && is_value(fields),
        ReplyBody::Again { grant } => row == 25 && is_grant(grant),
        ReplyBody::Block { stamp, bytes } => row == 26 && *stamp == 4 && is_text(bytes, b"ab"),
        ReplyBody::Flushed(fields) => {
            row == 27 && fields.size == 2 && are_blocks(fields.blocks.as_slice())
        }
        ReplyBody::Moved { grant, grants } => row == 28 && is_granted(grant) && *grants == 1,
        ReplyBody::Page { bytes } => row == 29 && is_text(bytes, &[0]),
        ReplyBody::Gone => row == 30,
    }
}

// Whether it is the packet of that row, with its values.
fn is_row(row: usize, packet: &Packet) -> bool {
    let ends = (packet.from.number(), packet.to.number());
    let fits = match &packet.body {
        Body::Request(request) => ends == (1, 2)
            && is_request(row, request)
            && is_about(row, request),
        Body::Reply(reply) => ends == (2, 1) && is_reply(row, reply),
    };
    fits && packet.tx.0 == 1 && packet.is_reply() == (row > 18)
}

// Whether a copy of the packet is that of the row.
fn is_copied(alloc: Global, row: usize, packet: &Packet) -> bool {
    let Ok(copy) = packet.copy(alloc) else {
        return false;
    };
    let same = is_row(row, &copy);
    std::mem::drop(copy);
    same
}

fn is_spelled(alloc: Global, packet: &Packet, bytes: &[u8]) -> bool {
    let Ok(spelling) = packet.spell(alloc) else {
        return false;
    };
    spelling.as_slice() == bytes
}

// Whether the packet is that of the row, is copied, and is spelled so.
fn is_whole(alloc: Global, row: usize, packet: &Packet, bytes: &[u8]) -> bool {
    is_row(row, packet) && is_copied(alloc, row, packet) && is_spelled(alloc, packet, bytes)
}

// Whether the bytes are read as the packet of that row, which is spelled so again.
fn is_read_again(alloc: Global, row: usize, bytes: &[u8]) -> bool {
    let Ok(Some(packet)) = Packet::read(alloc, bytes) else {
        return false;
    };
    let whole = is_whole(alloc, row, &packet, bytes);
    std::mem::drop(packet);
    whole
}

// Whether the bytes are read as no packet.
fn is_refused(alloc: Global, bytes: &[u8]) -> bool {
    let Ok(packet) = Packet::read(alloc, bytes) else {
        return false;
    };
    let none = packet.is_none();
    std::mem::drop(packet);
    none
}

// Whether the text spells the packet of that row.
fn is_right(alloc: Global, row: usize, text: &str) -> bool {
    let Ok(bytes) = bytes_of(alloc, text) else {
        return false;
    };
    is_read_again(alloc, row, bytes.as_slice())
}

// Whether the text spells no packet.
fn is_wrong(alloc: Global, text: &str) -> bool {
    let Ok(bytes) = bytes_of(alloc, text) else {
        return false;
    };
    is_refused(alloc, bytes.as_slice())
}

// Whether all rows are read with their values and spelled again.
fn are_right(alloc: Global, rows: &[&str]) -> bool {
    for row in 0..rows.len() {
        if !is_right(alloc, row, rows[row]) {
            return false;
        }
    }
    true
}

// Whether no row is read.
fn are_wrong(alloc: Global, rows: &[&str]) -> bool {
    for row in 0..rows.len() {
        if !is_wrong(alloc, rows[row]) {
            return false;
        }
    }
    true
}

#[test]
fn each_form_is_read_again(rt: HostRuntime) {
    assert!(rt; are_right(rt.alloc(), &PACKETS));
}

#[test]
fn spoiled_bytes_are_no_packet(rt: HostRuntime) {
    assert!(rt; are_wrong(rt.alloc(), &SPOILED));
}
