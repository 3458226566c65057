ghost use Rattle.std.specs.Prelude.{◌≡◌, IfOk, OnOk};
ghost use Rattle.client_data.specs.SyncAnswers.{answers_sync, sync_answered, go_on_by, after_answer, rest_of};
ghost use Rattle.client_data.specs.Sync.{syncs, syncs_on, syncs_block, syncs_own, syncs_by, ends_sync, keeps_sync, first_todo, dirty_of, is_dirty};

use crate::write_backs::send_write_back;
use client_file_tables::{ClientFiles, Pending, SyncCall, SyncState, about, plain};
use packet_bodies::ReplyBody;
use sprite_ids::{BlockNo, FileId, Items, NoMemory, Pid, TxNo};
use std::alloc::Global;

/// A `sync` looks at its blocks: those that are clean by now are done with. The first of the others goes to the server, or
/// waits for the answer to a write-back that is out; where none is left, the call takes effect and has its reply. The one
/// error is want of memory.
pub fn run_sync(
    files: &mut ClientFiles,
    alloc: Global,
    pid: Pid,
    call: SyncCall,
) -> Result<(), NoMemory>
    ensures { OnOk result (files.new ≡ syncs pid call files.old) }
{
    let todo = dirty_of(files, alloc, &call.file, call.todo.as_slice())?;
    sync_on(files, alloc, pid, SyncCall { todo, ..call })
}

// Those of the blocks that are dirty.
fn dirty_of(
    files: &ClientFiles,
    alloc: Global,
    file: &FileId,
    blocks: &[BlockNo],
) -> Result<Items<BlockNo>, NoMemory>
    ensures { IfOk result (λ dirty. dirty ≡ dirty_of file.now files.now blocks.now) }
{
    let mut dirty = Items::new(alloc);
    for block in blocks {
        if is_dirty(files, file, *block) {
            dirty.push(*block)?;
        }
    }
    Ok(dirty)
}

// Whether the block is dirty.
fn is_dirty(files: &ClientFiles, file: &FileId, block: BlockNo) -> bool
    ensures { result ≡ is_dirty file.now files.now block }
{
    files.cache.dirty(*file, block).is_some()
}

fn sync_on(files: &mut ClientFiles, alloc: Global, pid: Pid, call: SyncCall) -> Result<(), NoMemory>
    ensures { OnOk result (files.new ≡ syncs_on pid call files.old) }
{
    match first_todo(&call) {
        Some(block) => sync_block(files, alloc, pid, call, block),
        None => end_sync(files, alloc, pid, call),
    }
}

// The first of its blocks.
fn first_todo(call: &SyncCall) -> Option<BlockNo>
    ensures { result ≡ first_todo call.now.todo }
{
    match call.todo.as_slice().first() {
        Some(block) => Some(*block),
        None => None,
    }
}

fn sync_block(
    files: &mut ClientFiles,
    alloc: Global,
    pid: Pid,
    call: SyncCall,
    block: BlockNo,
) -> Result<(), NoMemory>
    ensures { OnOk result (files.new ≡ syncs_block pid call block files.old) }
{
    match files.current_write_back(&call.file, block) {
        Some(tx) => keep_sync(files, pid, call, SyncState::WaitOther { tx }),
        None => sync_own(files, alloc, pid, call, block),
    }
}

// The block has no current write-back; it is dirty, as the caller has looked.
fn sync_own(
    files: &mut ClientFiles,
    alloc: Global,
    pid: Pid,
    call: SyncCall,
    block: BlockNo,
) -> Result<(), NoMemory>
    ensures { OnOk result (files.new ≡ syncs_own pid call block files.old) }
{
    match files.cache.dirty(call.file, block) {
        Some(number) => sync_by(files, alloc, pid, call, block, number),
        None => keep_sync(files, pid, call, SyncState::Looking),
    }
}

fn sync_by(
    files: &mut ClientFiles,
    alloc: Global,
    pid: Pid,
    call: SyncCall,
    block: BlockNo,
    number: u64,
) -> Result<(), NoMemory>
    ensures { OnOk result (files.new ≡ syncs_by pid call block number files.old) }
{
    let for_call = Some(about(pid, call.number));
    let tx = send_write_back(files, alloc, &call.file, block, number, for_call)?;
    files.txs.push(tx, pid)?;
    keep_sync(files, pid, call, SyncState::WaitOwn { tx })
}

// All its blocks are at the server, or were dropped.
fn end_sync(
    files: &mut ClientFiles,
    alloc: Global,
    pid: Pid,
    call: SyncCall,
) -> Result<(), NoMemory>
    ensures { OnOk result (files.new ≡ ends_sync pid call files.old) }
{
    let about = about(pid, call.number);
    files.answer_here(alloc, &about, call.into_call(), plain(alloc, 0))
}

fn keep_sync(
    files: &mut ClientFiles,
    pid: Pid,
    call: SyncCall,
    state: SyncState,
) -> Result<(), NoMemory>
    ensures { OnOk result (files.new ≡ keeps_sync pid call state files.old) }
{
    files.keep(pid, Pending::Sync(SyncCall { state, ..call }))
}

// Where the write-back was a `sync`'s own, that one goes on.
pub(crate) fn answer_sync(
    files: &mut ClientFiles,
    tx: TxNo,
    body: &ReplyBody,
) -> Result<(), NoMemory>
    ensures { OnOk result (files.new ≡ answers_sync tx body.now files.old) }
{
    match files.txs.take(&tx) {
        Some(pid) => answer_process(files, pid, body),
        None => Ok(()),
    }
}

fn answer_process(files: &mut ClientFiles, pid: Pid, body: &ReplyBody) -> Result<(), NoMemory>
    ensures { OnOk result (files.new ≡ sync_answered pid body.now files.old) }
{
    match files.pending.take(&pid) {
        Some(operation) => go_on_by(files, pid, operation, body),
        None => Ok(()),
    }
}

fn go_on_by(
    files: &mut ClientFiles,
    pid: Pid,
    operation: Pending,
    body: &ReplyBody,
) -> Result<(), NoMemory>
    ensures { OnOk result (files.new ≡ go_on_by pid operation body.now files.old) }
{
    match operation {
        Pending::Sync(call) => files.start(pid, Pending::Sync(after_answer(call, body))),
        other => files.keep(pid, other),
    }
}

// The server has the first block, unless it gave a grant in its place.
fn after_answer(call: SyncCall, body: &ReplyBody) -> SyncCall
    ensures { result ≡ after_answer call body.now }
{
    match body {
        ReplyBody::Again { .. } => SyncCall {
            state: SyncState::Looking,
            ..call
        },
        _ => SyncCall {
            todo: rest_of(call.todo),
            state: SyncState::Looking,
            ..call
        },
    }
}

// All but the first.
fn rest_of(blocks: Items<BlockNo>) -> Items<BlockNo>
    ensures { result ≡ rest_of blocks }
{
    let mut blocks = blocks;
    if blocks.len() > 0 {
        blocks.remove(0);
    }
    blocks
}
