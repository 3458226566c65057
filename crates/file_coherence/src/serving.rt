ghost use Rattle.std.specs.Prelude.{◌≡◌, ◌++◌, ◌&&◌, IfOk, OnOk, filter, ◌∷◌, []};
ghost use Rattle.std.specs.List.{list_any};
ghost use Rattle.file_views.specs.Setting.{sprite_setting};
ghost use Rattle.file_views.specs.Views.{busy, waiting_calls, answer, server};
ghost use Rattle.file_views.specs.Streams.{same_stream};
ghost use Rattle.file_views.specs.Serving.{still_shared, with_opens, close, bytes_after, op_reply, data_op, block_of, store, refuse_old, serve_body, serve, serve_all, request_comes, store_blocks, holder_answered, flushed, resume, resumed, callback_answered};
ghost use Rattle.file_views.specs.Entries.{told_reply, enters_served, enters_serve_all, enters_request, enters_resume, enters_resumed};
ghost use Rattle.file_coherence.specs.Parts.{append_reply, first_alone, appended_bytes};
ghost use Rattle.file_views.specs.declared.FileBody.TheVariants.{Fetch, WriteBack, Block, Op as Operation};
ghost use Rattle.file_views.specs.declared.Open.{Open};

use crate::contents::{overlay, put_block, stretch};
use crate::data::{counted, note, read_reply, step_of};
use crate::grants::{asks, current_grant, decide, grant};
use crate::limits::{Limits, passes, sum};
use crate::streams::{is_any, same_stream, take_off};
use crate::views::{
    answer, current_stamp, is_busy, is_holder, remove_call, server, taken_copy, to_the_end,
    waiting_calls,
};
use file_views::{Access, Entered, FileBody, FileCall, FileStep, Open, View};
use sprite_ids::{BlockNo, Bytes, Copying, Errno, Items, Kernel, NoMemory, Pid, StreamNo};
use std::alloc::Global;

// Whose operation it is, and on which stream, with its client's stamp.
#[derive(Clone, Copy)]
struct Op {
    pid: Pid,
    number: u32,
    stamp: u32,
    stream: StreamNo,
}

fn is_opened(opens: &[Open], stream: &StreamNo) -> bool
    ensures { result ≡ list_any (λ (one : Open). same_stream stream.now one.stream) opens.now }
{
    opens.iter().any(|one| same_stream(stream, &one.stream))
}

// The shared streams that some kernel still has open are left.
fn keep_shared(shared: &mut Vec<StreamNo>, opens: &[Open])
    ensures { shared.new.items ≡ still_shared shared.old.items opens.now }
{
    shared.retain(|stream| is_opened(opens, stream));
}

// The file has these opens left: without any it may be cached again.
fn put_opens(alloc: Global, view: &mut View, opens: Items<Open>)
    ensures { view.new ≡ with_opens view.old opens }
{
    let mut shared = std::mem::replace(&mut view.shared, Items::new(alloc)).into_vec();
    keep_shared(&mut shared, opens.as_slice());
    view.shared = Items::of_vec(shared);
    view.uncached = view.uncached && is_any(opens.as_slice());
    view.opens = opens;
}

// A close takes its grants off.
fn close(
    alloc: Global,
    view: &mut View,
    one: &FileCall,
    stream: &StreamNo,
    grants: u32,
) -> Result<(), NoMemory>
    ensures { OnOk result (view.new ≡ close view.old one.now stream.now grants) }
{
    let opens = take_off(alloc, view.opens.as_slice(), stream, one.from, grants)?;
    put_opens(alloc, view, opens);
    answer(alloc, view, one, FileBody::Done)
}

// Does an operation on the server's bytes. An append that would pass the limit changes nothing.
fn change_bytes(
    alloc: Global,
    limits: &Limits,
    bytes: &mut Bytes,
    access: &Access,
) -> Result<(), NoMemory>
    ensures { OnOk result (bytes.new ≡ bytes_after limits.now bytes.old access.now) }
{
    match access {
        Access::Read { .. } => Ok(()),
        Access::Write { from, bytes: new } => {
            overlay(alloc, bytes, *from as usize, new.as_slice())
        }
        Access::Append { bytes: new } => append(limits, bytes, new.as_slice()),
    }
}

fn append(limits: &Limits, bytes: &mut Bytes, new: &[u8]) -> Result<(), NoMemory>
    ensures { OnOk result (bytes.new ≡ appended_bytes limits.now bytes.old new.now) }
{
    if passes(bytes.len(), new.len(), limits.most()) {
        return Ok(());
    }
    bytes.append(new)
}

// What an operation answers: the number of bytes first, and of an append the place behind them second.
fn op_reply(
    alloc: Global,
    limits: &Limits,
    bytes: &[u8],
    access: &Access,
) -> Result<FileBody, NoMemory>
    ensures { IfOk result (λ reply. reply ≡ op_reply limits.now bytes.now access.now) }
{
    match access {
        Access::Read { from, length } => {
            let piece = stretch(bytes, *from as usize, *length as usize);
            Ok(read_reply(Bytes::of_slice(alloc, piece)?))
        }
        Access::Write { bytes: new, .. } => Ok(counted(alloc, new.len())),
        Access::Append { bytes: new } => append_reply(alloc, limits, bytes, new.len()),
    }
}

fn append_reply(
    alloc: Global,
    limits: &Limits,
    bytes: &[u8],
    count: usize,
) -> Result<FileBody, NoMemory>
    ensures { IfOk result (λ reply. reply ≡ append_reply limits.now bytes.now count) }
{
    if passes(bytes.len(), count, limits.most()) {
        return Ok(FileBody::Refused {
            errno: Errno::TooBig,
        });
    }
    let end = sum(bytes.len(), count)?;
    Ok(FileBody::Value {
        first: count as u64,
        second: end as u64,
        bytes: Bytes::new(alloc),
    })
}

// What an operation answers its process: an append only the number of its bytes.
fn told_reply(access: &Access, reply: FileBody) -> FileBody
    ensures { result ≡ told_reply access.now reply }
{
    match access {
        Access::Append { .. } => first_alone(reply),
        _ => reply,
    }
}

fn first_alone(reply: FileBody) -> FileBody
    ensures { result ≡ first_alone reply }
{
    match reply {
        FileBody::Value { first, bytes, .. } => FileBody::Value {
            first,
            second: 0,
            bytes,
        },
        other => other,
    }
}

// An operation is done on the server's bytes.
fn do_op(
    alloc: Global,
    limits: &Limits,
    view: &mut View,
    one: &FileCall,
    access: &Access,
) -> Result<(), NoMemory>
    ensures { OnOk result (view.new ≡ data_op limits.now view.old one.now access.now) }
{
    let reply = op_reply(alloc, limits, view.bytes.as_slice(), access)?;
    change_bytes(alloc, limits, &mut view.bytes, access)?;
    answer(alloc, view, one, reply)
}

// A block is sent, as far as the server has it.
fn send_block(
    alloc: Global,
    limits: &Limits,
    view: &mut View,
    one: &FileCall,
    stamp: u32,
    block: BlockNo,
) -> Result<(), NoMemory>
    ensures { OnOk result (view.new ≡ answer view.old one.now (Block stamp (block_of limits.now view.old.bytes block))) }
{
    let start = limits.start_of(usize::from(block.0))?;
    let piece = stretch(view.bytes.as_slice(), start, limits.block());
    let bytes = Bytes::of_slice(alloc, piece)?;
    answer(alloc, view, one, FileBody::Block { stamp, bytes })
}

// A block of a client is stored.
fn store(
    alloc: Global,
    limits: &Limits,
    view: &mut View,
    one: &FileCall,
    block: BlockNo,
    size: u32,
    piece: &[u8],
) -> Result<(), NoMemory>
    ensures { OnOk result (view.new ≡ store limits.now view.old one.now block size piece.now) }
{
    let number = usize::from(block.0);
    put_block(alloc, limits, &mut view.bytes, number, size as usize, piece)?;
    answer(alloc, view, one, FileBody::Done)
}

// A request whose stamp isn't its kernel's current one changes nothing.
fn refuse_old(alloc: Global, view: &mut View, one: &FileCall) -> Result<(), NoMemory>
    ensures { OnOk result (view.new ≡ refuse_old view.old one.now) }
{
    let grant = current_grant(view, one.from)?;
    answer(alloc, view, one, FileBody::Again { grant })
}

// Serves a fetch.
fn serve_fetch(
    alloc: Global,
    limits: &Limits,
    view: &mut View,
    one: &FileCall,
    stamp: u32,
    block: BlockNo,
) -> Result<(), NoMemory>
    ensures { OnOk result (view.new ≡ serve_body limits.now view.old one.now (Fetch stamp block)) }
{
    if stamp != current_stamp(view, one.from) {
        return refuse_old(alloc, view, one);
    }
    send_block(alloc, limits, view, one, stamp, block)
}

// Serves a write-back.
fn serve_write_back(
    alloc: Global,
    limits: &Limits,
    view: &mut View,
    one: &FileCall,
    stamp: u32,
    block: BlockNo,
    size: u32,
    piece: &Bytes,
) -> Result<(), NoMemory>
    ensures { OnOk result (view.new ≡ serve_body limits.now view.old one.now (WriteBack stamp block size piece.now)) }
{
    if stamp != current_stamp(view, one.from) {
        return refuse_old(alloc, view, one);
    }
    store(alloc, limits, view, one, block, size, piece.as_slice())
}

// Notes an operation, which takes effect on the server's bytes.
fn note_op(
    alloc: Global,
    limits: &Limits,
    bytes: &[u8],
    step: FileStep,
    access: &Access,
    entered: &mut Items<Entered>,
) -> Result<(), NoMemory>
    ensures { OnOk result (entered.new ≡ entered.old ++ record { kernel = server; step = step; reply = told_reply access.now (op_reply limits.now bytes.now access.now) } ∷ []) }
{
    let reply = op_reply(alloc, limits, bytes, access)?;
    note(entered, server(), step, told_reply(access, reply))
}

// Serves an operation.
fn serve_op(
    alloc: Global,
    limits: &Limits,
    view: &mut View,
    one: &FileCall,
    op: &Op,
    access: &Access,
    entered: &mut Items<Entered>,
) -> Result<(), NoMemory>
    ensures view { OnOk result (view.new ≡ serve_body limits.now view.old one.now (Operation op.now.pid op.now.number op.now.stamp op.now.stream access.now)) }
    ensures entered { OnOk result (entered.new ≡ entered.old ++ enters_served limits.now view.old one.now (Operation op.now.pid op.now.number op.now.stamp op.now.stream access.now)) }
{
    if op.stamp != current_stamp(view, one.from) {
        return refuse_old(alloc, view, one);
    }
    let step = step_of(alloc, op.pid, op.number, one.from, op.stream, access)?;
    note_op(alloc, limits, view.bytes.as_slice(), step, access, entered)?;
    do_op(alloc, limits, view, one, access)
}

// A request is taken up while the file isn't busy.
fn serve(
    alloc: Global,
    limits: &Limits,
    view: &mut View,
    one: &FileCall,
    entered: &mut Items<Entered>,
) -> Result<(), NoMemory>
    ensures view { OnOk result (view.new ≡ serve limits.now view.old one.now) }
    ensures entered { OnOk result (entered.new ≡ entered.old ++ enters_served limits.now view.old one.now one.now.body) }
{
    match &one.body {
        FileBody::Opening { .. } => decide(alloc, limits, view, one, entered),
        FileBody::Move { .. } => decide(alloc, limits, view, one, entered),
        FileBody::Close { stream, grants } => close(alloc, view, one, stream, *grants),
        FileBody::Op {
            pid,
            number,
            stamp,
            stream,
            access,
        } => {
            let op = Op {
                pid: *pid,
                number: *number,
                stamp: *stamp,
                stream: *stream,
            };
            serve_op(alloc, limits, view, one, &op, access, entered)
        }
        FileBody::Fetch { stamp, block } => {
            serve_fetch(alloc, limits, view, one, *stamp, *block)
        }
        FileBody::WriteBack {
            stamp,
            block,
            size,
            bytes,
        } => serve_write_back(alloc, limits, view, one, *stamp, *block, *size, bytes),
        _ => Ok(()),
    }
}

// What waits is taken up in order, until the file is busy.
fn serve_all(
    alloc: Global,
    limits: &Limits,
    waiting: &[FileCall],
    view: &mut View,
    entered: &mut Items<Entered>,
) -> Result<(), NoMemory>
    ensures view { OnOk result (view.new ≡ serve_all limits.now waiting.now view.old) }
    ensures entered { OnOk result (entered.new ≡ entered.old ++ enters_serve_all limits.now waiting.now view.old) }
{
    let [one, rest @ ..] = waiting else {
        return Ok(());
    };
    if is_busy(view) {
        return Ok(());
    }
    serve(alloc, limits, view, one, entered)?;
    serve_all(alloc, limits, rest, view, entered)
}

// A request comes to the server: it waits while the file is busy.
pub(crate) fn request_comes(
    alloc: Global,
    limits: &Limits,
    view: &mut View,
    one: &FileCall,
    entered: &mut Items<Entered>,
) -> Result<(), NoMemory>
    ensures view { OnOk result (view.new ≡ request_comes limits.now view.old one.now) }
    ensures entered { OnOk result (entered.new ≡ entered.old ++ enters_request limits.now view.old one.now) }
{
    let waits = is_busy(view);
    to_the_end(alloc, view, one)?;
    if waits {
        return Ok(());
    }
    let taken = taken_copy(alloc, one)?;
    serve(alloc, limits, view, &taken, entered)
}

// The blocks of an answer to a callback are stored with its size.
fn store_blocks(
    alloc: Global,
    limits: &Limits,
    bytes: &mut Bytes,
    size: usize,
    pieces: &[(BlockNo, Bytes)],
) -> Result<(), NoMemory>
    ensures { OnOk result (bytes.new ≡ store_blocks limits.now bytes.old size pieces.now) }
{
    for piece in pieces {
        let number = usize::from(piece.0.0);
        put_block(alloc, limits, bytes, number, size, piece.1.as_slice())?;
    }
    Ok(())
}

/// Stores blocks in the server's bytes, which then have at least that size. The one error is want of memory.
pub fn store_pieces(
    alloc: Global,
    bytes: &mut Bytes,
    size: usize,
    pieces: &[(BlockNo, Bytes)],
) -> Result<(), NoMemory>
    ensures { OnOk result (bytes.new ≡ store_blocks sprite_setting bytes.old size pieces.now) }
{
    let limits = Limits::sprite();
    store_blocks(alloc, &limits, bytes, size, pieces)
}

// A kernel that answers a callback is the holder no more.
fn holder_answered(view: &View, kernel: Kernel) -> Option<Kernel>
    ensures { result ≡ holder_answered view.now kernel }
{
    if is_holder(view, kernel) {
        None
    } else {
        view.holder
    }
}

fn flush(
    alloc: Global,
    limits: &Limits,
    view: &mut View,
    one: &FileCall,
    size: u32,
    pieces: &[(BlockNo, Bytes)],
) -> Result<(), NoMemory>
    ensures { OnOk result (view.new ≡ flushed limits.now view.old one.now size pieces.now) }
{
    view.holder = holder_answered(view, one.to);
    store_blocks(alloc, limits, &mut view.bytes, size as usize, pieces)?;
    remove_call(alloc, view, one.number);
    Ok(())
}

// After the last answer what asked is granted, and what waits behind it is taken up.
fn resume(
    alloc: Global,
    limits: &Limits,
    waiting: &[FileCall],
    view: &mut View,
    entered: &mut Items<Entered>,
) -> Result<(), NoMemory>
    ensures view { OnOk result (view.new ≡ resume limits.now waiting.now view.old) }
    ensures entered { OnOk result (entered.new ≡ entered.old ++ enters_resume limits.now waiting.now view.old) }
{
    let [one, rest @ ..] = waiting else {
        return Ok(());
    };
    if !asks(&one.body) {
        return serve_all(alloc, limits, waiting, view, entered);
    }
    grant(alloc, view, one, entered)?;
    serve_all(alloc, limits, rest, view, entered)
}

fn resume_view(
    alloc: Global,
    limits: &Limits,
    view: &mut View,
    entered: &mut Items<Entered>,
) -> Result<(), NoMemory>
    ensures view { OnOk result (view.new ≡ resumed limits.now view.old) }
    ensures entered { OnOk result (entered.new ≡ entered.old ++ enters_resumed limits.now view.old) }
{
    if is_busy(view) {
        return Ok(());
    }
    let waiting = waiting_calls(alloc, view.calls.as_slice())?;
    resume(alloc, limits, waiting.as_slice(), view, entered)
}

// An answer to a callback comes.
pub(crate) fn callback_answered(
    alloc: Global,
    limits: &Limits,
    view: &mut View,
    one: &FileCall,
    size: u32,
    pieces: &[(BlockNo, Bytes)],
    entered: &mut Items<Entered>,
) -> Result<(), NoMemory>
    ensures view { OnOk result (view.new ≡ callback_answered limits.now view.old one.now size pieces.now) }
    ensures entered { OnOk result (entered.new ≡ entered.old ++ enters_resumed limits.now (flushed limits.now view.old one.now size pieces.now)) }
{
    flush(alloc, limits, view, one, size, pieces)?;
    resume_view(alloc, limits, view, entered)
}
