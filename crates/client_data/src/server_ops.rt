ghost use Rattle.std.specs.Prelude.{◌≡◌, IfOk, OnOk};
ghost use Rattle.client_data.specs.ServerOps.{asks_server, op_request, op_at, offset_at, length_of, bytes_of, sends_op};

use crate::finish::keep_data;
use client_file_tables::{ClientFiles, DataCall, DataKind, DataState, about, to_one};
use packet_bodies::{FileOp, OpRequest, Request};
use sprite_ids::{Bytes, Copying, NoMemory, Pid, Tries, TxNo};
use std::alloc::Global;
use unix_calls::SendKind;

// The operation is done at the server; it needs no blocks here.
pub(crate) fn ask_server(
    files: &mut ClientFiles,
    alloc: Global,
    pid: Pid,
    call: DataCall,
    offset: Option<u32>,
    append: bool,
) -> Result<(), NoMemory>
    ensures { OnOk result (files.new ≡ asks_server pid call offset append files.old) }
{
    files.leave_filling(pid)?;
    let tx = send_op(files, alloc, pid, &call, offset, append)?;
    keep_data(files, pid, call, DataState::AtServer { tx })
}

fn send_op(
    files: &mut ClientFiles,
    alloc: Global,
    pid: Pid,
    call: &DataCall,
    offset: Option<u32>,
    append: bool,
) -> Result<TxNo, NoMemory>
    ensures tx { IfOk result (λ tx. tx ≡ files.old.out.next) }
    ensures files { OnOk result (files.new ≡ sends_op pid call.now offset append files.old) }
{
    let request = op_request(files, alloc, pid, call, offset, append)?;
    let body = Request::Op(request);
    let for_call = Some(about(pid, call.number));
    let sending = to_one(alloc, call.file.server, Tries::Always, for_call, body)?;
    files.send_for(alloc, pid, sending, SendKind::Op { file: call.file })
}

// The request, under the stamp that the file has here.
fn op_request(
    files: &ClientFiles,
    alloc: Global,
    pid: Pid,
    call: &DataCall,
    offset: Option<u32>,
    append: bool,
) -> Result<OpRequest, NoMemory>
    ensures { IfOk result (λ request. request ≡ op_request pid call.now offset append files.now) }
{
    let bytes = bytes_of(alloc, &call.kind)?;
    Ok(OpRequest {
        pid,
        number: call.number,
        file: call.file,
        stamp: files.known(&call.file).stamp,
        stream: call.stream,
        op: op_at(&call.kind, append),
        offset: offset_at(&call.kind, offset, append),
        length: length_of(&call.kind),
        bytes,
        fd: call.fd,
    })
}

// What is done at the server.
fn op_at(kind: &DataKind, append: bool) -> FileOp
    ensures { result ≡ op_at kind.now append }
{
    match kind {
        DataKind::Read { .. } => FileOp::Read,
        DataKind::Write { .. } => {
            if append {
                FileOp::Append
            } else {
                FileOp::Write
            }
        }
        DataKind::Seek { .. } => FileOp::Seek,
        DataKind::Size => FileOp::Size,
    }
}

// Where: at the stream's offset, of a seek its target, and nowhere for an append or a size.
fn offset_at(kind: &DataKind, offset: Option<u32>, append: bool) -> Option<u32>
    ensures { result ≡ offset_at kind.now offset append }
{
    match kind {
        DataKind::Read { .. } => offset,
        DataKind::Write { .. } => { if append { None } else { offset } }
        DataKind::Seek { offset: to } => Some(*to),
        DataKind::Size => None,
    }
}

// How many bytes a read asks for.
fn length_of(kind: &DataKind) -> u32
    ensures { result ≡ length_of kind.now }
{
    match kind {
        DataKind::Read { length } => *length,
        _ => 0,
    }
}

// The bytes of a write.
fn bytes_of(alloc: Global, kind: &DataKind) -> Result<Bytes, NoMemory>
    ensures { IfOk result (λ bytes. bytes ≡ bytes_of kind.now) }
{
    match kind {
        DataKind::Write { bytes } => bytes.copy(alloc),
        _ => Ok(Bytes::new(alloc)),
    }
}
