ghost use Rattle.std.specs.Prelude.{◌≡◌, OnOk};
ghost use Rattle.client_file_tables.specs.Rows.{first_of};
ghost use Rattle.client_names.specs.Answers.{takes_end, is_for, gives_up, gives_up_on, unreaches, ends_refused, ends_value, gives_value, ends_opened, installs, gives_descriptor, object_of, opened_stream, master_stream, reply_of};

use crate::flags::flags_of;
use client_file_tables::{
    ClientFiles, NameCall, NameKind, NameState, NameWork, Pending, about, plain,
};
use packet_bodies::{NameOp, OpenedReply, Target, ValueReply};
use process_machine::Reply;
use sprite_ids::{DeviceId, Errno, Mode, NoMemory, Object, Pid, StreamNo, TxNo};
use sprite_paths::Path;
use std::alloc::Global;
use stream_table::{Place, Stream};

/// Whether the process's operation takes the end of that remote call: a name call takes only that of the very call for which it
/// waits (this project).
pub fn takes_end(files: &ClientFiles, tx: TxNo, pid: Pid) -> bool
    ensures { result ≡ takes_end tx (first_of pid files.now.pending) }
{
    match files.pending.first(&pid) {
        Some(Pending::Name(call)) => is_for(tx, &call.state),
        _ => true,
    }
}

// Whether a name call waits for that remote call.
fn is_for(tx: TxNo, state: &NameState) -> bool
    ensures { result ≡ is_for tx state.now }
{
    match state {
        NameState::Broadcasting { tx: own, .. } => *own == tx,
        NameState::Echoing { tx: own, .. } => *own == tx,
        NameState::Asking { tx: own } => *own == tx,
    }
}

/// A broadcast or an echo was tried eight times and is given up: its call is Unreachable, which is entered here (this
/// project). Nothing happens where no name call waits for it. The one error is want of memory.
pub fn give_up_name(files: &mut ClientFiles, alloc: Global, tx: TxNo) -> Result<(), NoMemory>
    ensures { OnOk result (files.new ≡ gives_up tx files.old) }
{
    match files.txs.take(&tx) {
        Some(pid) => give_up_on(files, alloc, tx, pid),
        None => Ok(()),
    }
}

fn give_up_on(files: &mut ClientFiles, alloc: Global, tx: TxNo, pid: Pid) -> Result<(), NoMemory>
    ensures { OnOk result (files.new ≡ gives_up_on tx pid files.old) }
{
    if !takes_end(files, tx, pid) {
        return Ok(());
    }
    match files.pending.take(&pid) {
        Some(Pending::Name(call)) => unreach(files, alloc, pid, call),
        Some(Pending::Data(call)) => files.keep(pid, Pending::Data(call)),
        Some(Pending::Sync(call)) => files.keep(pid, Pending::Sync(call)),
        Some(Pending::Close(work)) => files.keep(pid, Pending::Close(work)),
        Some(Pending::Move(work)) => files.keep(pid, Pending::Move(work)),
        None => Ok(()),
    }
}

// The call is Unreachable.
fn unreach(files: &mut ClientFiles, alloc: Global, pid: Pid, call: NameCall) -> Result<(), NoMemory>
    ensures { OnOk result (files.new ≡ unreaches pid call files.old) }
{
    let NameCall { work, .. } = call;
    let NameWork { number, call, .. } = work;
    let about = about(pid, number);
    files.answer_here(alloc, &about, call, Reply::Error(Errno::Unreachable))
}

/// The server refused the call and entered that. The one error is want of memory.
pub fn end_refused(files: &mut ClientFiles, pid: Pid, errno: Errno) -> Result<(), NoMemory>
    ensures { OnOk result (files.new ≡ ends_refused pid errno files.old) }
{
    files.reply(pid, Reply::Error(errno))
}

/// The server entered the call with this value. A make has its master's stream from now on, and its reply is the descriptor
/// (Welch and Ousterhout 1988); a chdir's path is the working directory. No open is answered so. The one error is want of
/// memory.
pub fn end_value(
    files: &mut ClientFiles,
    alloc: Global,
    pid: Pid,
    work: NameWork,
    value: ValueReply,
) -> Result<(), NoMemory>
    ensures { OnOk result (files.new ≡ ends_value pid work value files.old) }
{
    let NameWork { path, kind, .. } = work;
    match kind {
        NameKind::Open { .. } => Ok(()),
        NameKind::Make { device, stream, .. } => {
            let master = master_stream(&device);
            install(files, alloc, pid, &stream, &master)
        }
        NameKind::Name { op, .. } => give_value(files, pid, op, path, value),
    }
}

fn give_value(
    files: &mut ClientFiles,
    pid: Pid,
    op: NameOp,
    path: Path,
    value: ValueReply,
) -> Result<(), NoMemory>
    ensures { OnOk result (files.new ≡ gives_value pid op path value files.old) }
{
    match op {
        NameOp::Chdir => {
            files.set_cwd(pid, path)?;
            files.reply(pid, reply_of(value))
        }
        _ => files.reply(pid, reply_of(value)),
    }
}

// The reply that a value is.
fn reply_of(value: ValueReply) -> Reply
    ensures { result ≡ reply_of value }
{
    Reply::Value {
        first: value.first,
        second: value.second,
        bytes: value.bytes,
    }
}

/// The server opened the path and entered that; where it is a file, its grant is taken already. The process has the stream
/// from now on, and its reply is the descriptor (Nelson, Welch and Ousterhout 1988). Only an open is answered so. The one
/// error is want of memory.
pub fn end_opened(
    files: &mut ClientFiles,
    alloc: Global,
    pid: Pid,
    work: &NameWork,
    opened: &OpenedReply,
) -> Result<(), NoMemory>
    ensures { OnOk result (files.new ≡ ends_opened pid work.now opened.now files.old) }
{
    match &work.kind {
        NameKind::Open { flags, stream, .. } => match opened_stream(*flags, &opened.object) {
            Some(made) => install(files, alloc, pid, stream, &made),
            None => Ok(()),
        },
        _ => Ok(()),
    }
}

// The process has the new stream, at the lowest free descriptor, which it is told. One is free: it was at the call's issue.
fn install(
    files: &mut ClientFiles,
    alloc: Global,
    pid: Pid,
    number: &StreamNo,
    stream: &Stream,
) -> Result<(), NoMemory>
    ensures { OnOk result (files.new ≡ installs pid number.now stream.now files.old) }
{
    match files.add_stream(pid, number, stream)? {
        Some(fd) => files.reply(pid, plain(alloc, u64::from(fd))),
        None => files.reply(pid, Reply::Error(Errno::TooMany)),
    }
}

// What a new stream leads to.
fn object_of(target: &Target) -> Object
    ensures { result ≡ object_of target.now }
{
    match target {
        Target::File(file) => Object::File(*file),
        Target::Device(device) => Object::Device(*device),
    }
}

// The stream that an open with these flags makes: its offset is 0, and one grant came with it.
fn opened_stream(flags: u8, target: &Target) -> Option<Stream>
    ensures { result ≡ opened_stream flags target.now }
{
    match flags_of(u64::from(flags)) {
        Some(flags) => Some(Stream {
            object: object_of(target),
            mode: flags.mode,
            place: Place::Local(0),
            grants: 1,
            append: flags.appends,
        }),
        None => None,
    }
}

// The stream of a new pseudo-device's master.
fn master_stream(device: &DeviceId) -> Stream
    ensures { result ≡ master_stream device.now }
{
    Stream {
        object: Object::Master(*device),
        mode: Mode::Read,
        place: Place::Local(0),
        grants: 1,
        append: false,
    }
}
