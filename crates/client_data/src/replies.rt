ghost use Rattle.std.specs.Prelude.{◌≡◌, OnOk};
ghost use Rattle.client_data.specs.Replies.{data_answered, answered_in, fetched, takes_block, served, served_value, moves_by, moves_at, moves_here, moves_on};

use crate::finish::end_there;
use crate::grants::take_grant;
use crate::looks::look;
use client_file_tables::{ClientFiles, DataCall, DataKind, DataState, Pending};
use packet_bodies::{ReplyBody, ValueReply};
use process_machine::Reply;
use sprite_ids::{BlockNo, Copying, NoMemory, Pid, StreamNo};
use std::alloc::Global;
use stream_table::{Place, Stream};

/// Takes the answer that a reading, writing, seek or size waits for: a block, after which it looks at everything anew, or
/// what the server did, after which its call has its reply. A grant in the place of either is taken first, and the operation
/// looks anew (Nelson, Welch and Ousterhout 1988). One that waits for no answer goes on waiting. The one error is want of
/// memory.
pub fn data_replied(
    files: &mut ClientFiles,
    alloc: Global,
    pid: Pid,
    call: DataCall,
    body: &ReplyBody,
) -> Result<(), NoMemory>
    ensures { OnOk result (files.new ≡ data_answered pid call body.now files.old) }
{
    let state = call.state;
    replied_in(files, alloc, pid, call, state, body)
}

fn replied_in(
    files: &mut ClientFiles,
    alloc: Global,
    pid: Pid,
    call: DataCall,
    state: DataState,
    body: &ReplyBody,
) -> Result<(), NoMemory>
    ensures { OnOk result (files.new ≡ answered_in state pid call body.now files.old) }
{
    match state {
        DataState::Fetching { block, .. } => fetched(files, alloc, pid, call, block, body),
        DataState::AtServer { .. } => served(files, alloc, pid, call, body),
        _ => files.keep(pid, Pending::Data(call)),
    }
}

fn fetched(
    files: &mut ClientFiles,
    alloc: Global,
    pid: Pid,
    call: DataCall,
    block: BlockNo,
    body: &ReplyBody,
) -> Result<(), NoMemory>
    ensures { OnOk result (files.new ≡ fetched pid call block body.now files.old) }
{
    take_block(files, &call, block, body)?;
    look(files, alloc, pid, call)
}

// The block is put in where its stamp is still the file's.
fn take_block(
    files: &mut ClientFiles,
    call: &DataCall,
    block: BlockNo,
    body: &ReplyBody,
) -> Result<(), NoMemory>
    ensures { OnOk result (files.new ≡ takes_block call.now.file block body.now files.old) }
{
    match body {
        ReplyBody::Block { stamp, bytes } => {
            files.fill(&call.file, *stamp, block, bytes.as_slice())
        }
        ReplyBody::Again { grant } => take_grant(files, grant),
        _ => Ok(()),
    }
}

fn served(
    files: &mut ClientFiles,
    alloc: Global,
    pid: Pid,
    call: DataCall,
    body: &ReplyBody,
) -> Result<(), NoMemory>
    ensures { OnOk result (files.new ≡ served pid call body.now files.old) }
{
    match body {
        ReplyBody::Again { grant } => {
            take_grant(files, grant)?;
            look(files, alloc, pid, call)
        }
        ReplyBody::Refused { errno } => end_there(files, pid, &call, Reply::Error(*errno)),
        ReplyBody::Value(value) => serve_value(files, alloc, pid, &call, value),
        _ => files.keep(pid, Pending::Data(call)),
    }
}

// The server did it.
fn serve_value(
    files: &mut ClientFiles,
    alloc: Global,
    pid: Pid,
    call: &DataCall,
    value: &ValueReply,
) -> Result<(), NoMemory>
    ensures { OnOk result (files.new ≡ served_value pid call.now value.now files.old) }
{
    move_by(files, call, value)?;
    let reply = Reply::Value {
        first: value.first,
        second: 0,
        bytes: value.bytes.copy(alloc)?,
    };
    end_there(files, pid, call, reply)
}

// An offset that is kept here moves at the reply (this project).
fn move_by(files: &mut ClientFiles, call: &DataCall, value: &ValueReply) -> Result<(), NoMemory>
    ensures { OnOk result (files.new ≡ moves_by call.now value.now files.old) }
{
    match files.streams.stream(call.stream) {
        Some(stream) => move_at(files, call, &stream, value),
        None => Ok(()),
    }
}

fn move_at(
    files: &mut ClientFiles,
    call: &DataCall,
    stream: &Stream,
    value: &ValueReply,
) -> Result<(), NoMemory>
    ensures { OnOk result (files.new ≡ moves_at stream.now call.now value.now files.old) }
{
    match stream.place {
        Place::Local(offset) => move_here(files, call, offset, stream.append, value),
        Place::Shared => Ok(()),
    }
}

// A read or write moves it on by the bytes that it moved, an append to its end.
fn move_here(
    files: &mut ClientFiles,
    call: &DataCall,
    offset: u32,
    append: bool,
    value: &ValueReply,
) -> Result<(), NoMemory>
    ensures { OnOk result (files.new ≡ moves_here call.now.kind call.now.stream offset append value.now files.old) }
{
    match &call.kind {
        DataKind::Read { .. } => move_on(files, &call.stream, offset, value.first),
        DataKind::Write { .. } => {
            if append {
                files.move_offset(&call.stream, value.second)
            } else {
                move_on(files, &call.stream, offset, value.first)
            }
        }
        DataKind::Seek { .. } => Ok(()),
        DataKind::Size => Ok(()),
    }
}

// Where the sum is past 64 bits, the answer is want of memory.
fn move_on(
    files: &mut ClientFiles,
    stream: &StreamNo,
    offset: u32,
    many: u64,
) -> Result<(), NoMemory>
    ensures { OnOk result (files.new ≡ moves_on stream.now offset many files.old) }
{
    match u64::from(offset).checked_add(many) {
        Some(end) => files.move_offset(stream, end),
        None => Err(NoMemory),
    }
}
