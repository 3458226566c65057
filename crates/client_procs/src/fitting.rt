ghost use Rattle.std.specs.Prelude.{◌≡◌, IfOk};
ghost use Rattle.client_file_tables.specs.Rows.{first_call};
ghost use Rattle.kernel_steps.specs.Rows.{first_under};
ghost use Rattle.client_homes.specs.Issuing.{own_request};
ghost use Rattle.client_homes.specs.Procs.{is_call};
ghost use Rattle.client_homes.specs.Words.{reply_of};
ghost use Rattle.client_procs.specs.CanTake.{can_take, child_by, child_heard, forked, is_unopened, made_by, made_of, may_answer, may_be_brought, may_come};

use crate::arriving::{brought, is_new};
use client_file_tables::{ClientFiles, NameKind, Pending};
use client_homes::{ClientProcs, Unfinished, child_in, reply_of};
use kernel_steps::Input;
use packet_bodies::{HomeCall, ReplyBody};
use process_machine::Reply;
use sprite_ids::{NoMemory, Pid, StreamNo, TxNo};
use std::alloc::Global;

/// Whether the kernel can take what comes: a process that it brings is neither here nor on its way from here, and was born, where this is
/// its home; and the stream that a name call makes, which it answers, isn't open (Douglis and Ousterhout 1991; this project). The one error
/// is want of memory.
pub fn can_take(client: &ClientProcs, alloc: Global, input: &Input) -> Result<bool, NoMemory>
    ensures { IfOk result (λ can. can ≡ can_take input.now client.now) }
{
    match input {
        Input::Request { body, .. } => Ok(may_be_brought(client, brought(body))),
        Input::Replied { tx, body, .. } => may_answer(client, alloc, *tx, body),
        _ => Ok(true),
    }
}

// Whether a process that is brought may come, where there is one.
fn may_be_brought(client: &ClientProcs, pid: Option<Pid>) -> bool
    ensures { result ≡ may_be_brought pid client.now }
{
    match pid {
        Some(pid) => may_come(client, pid),
        None => true,
    }
}

// Whether the process is neither here nor on its way from here, and was born, where this is its home.
fn may_come(client: &ClientProcs, pid: Pid) -> bool
    ensures { result ≡ may_come pid client.now }
{
    is_new(client, pid) && (!client.is_native(pid) || client.home.was_born(pid))
}

// Whether the answer to a remote call may come.
fn may_answer(
    client: &ClientProcs,
    alloc: Global,
    tx: TxNo,
    body: &ReplyBody,
) -> Result<bool, NoMemory>
    ensures { IfOk result (λ may. may ≡ may_answer tx body.now client.now) }
{
    if client.files.owns(tx) {
        return Ok(is_unopened(&client.files, made_for(&client.files, tx)));
    }
    let child = child_for(client, alloc, tx, body)?;
    Ok(may_be_brought(client, child))
}

// The child that the answer brings: that of a home to a `fork`.
fn child_for(
    client: &ClientProcs,
    alloc: Global,
    tx: TxNo,
    body: &ReplyBody,
) -> Result<Option<Pid>, NoMemory>
    ensures { IfOk result (λ child. child ≡ child_by (first_under is_call tx client.now.unfinished) body.now client.now) }
{
    match client.unfinished.first(&tx) {
        Some(Unfinished::Home(pid)) => child_heard(client, alloc, *pid, body),
        _ => Ok(None),
    }
}

// The child that the answer to the process's call brings.
fn child_heard(
    client: &ClientProcs,
    alloc: Global,
    pid: Pid,
    body: &ReplyBody,
) -> Result<Option<Pid>, NoMemory>
    ensures { IfOk result (λ child. child ≡ child_heard (own_request pid client.now) (reply_of body.now)) }
{
    match client.own_request(alloc, pid)? {
        Some(request) => Ok(forked(&request.call, &reply_of(alloc, body)?)),
        None => Ok(None),
    }
}

// The child of a call of that reply.
fn forked(call: &HomeCall, reply: &Reply) -> Option<Pid>
    ensures { result ≡ forked call.now reply.now }
{
    match call {
        HomeCall::Fork => child_in(reply),
        _ => None,
    }
}

// The stream that the name call makes which waits for that remote call.
fn made_for(files: &ClientFiles, tx: TxNo) -> Option<StreamNo>
    ensures { result ≡ made_of (first_call tx files.now.txs) files.now }
{
    let pid = files.txs.first(&tx)?;
    match files.pending.first(pid) {
        Some(Pending::Name(call)) => made_by(&call.work.kind),
        _ => None,
    }
}

// The stream that a name call makes.
fn made_by(kind: &NameKind) -> Option<StreamNo>
    ensures { result ≡ made_by kind.now }
{
    match kind {
        NameKind::Open { stream, .. } => Some(*stream),
        NameKind::Make { stream, .. } => Some(*stream),
        NameKind::Name { .. } => None,
    }
}

// Whether the stream isn't open, where there is one.
fn is_unopened(files: &ClientFiles, number: Option<StreamNo>) -> bool
    ensures { result ≡ is_unopened number files.now }
{
    match number {
        Some(number) => files.streams.stream(number).is_none(),
        None => true,
    }
}
