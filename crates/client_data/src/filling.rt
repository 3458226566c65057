ghost use Rattle.std.specs.Prelude.{◌≡◌, IfOk, OnOk};
ghost use Rattle.client_data.specs.Filling.{fills_first, fills_own, fills_next, needs_block, fetches, sends_fetch, waits_for_room, waits_for_back, makes_room, gets_room, fills_zeros, fills_zero, puts_zero, zeros_at, is_past_end};

use crate::cached::{do_cached, missing_of};
use crate::finish::keep_data;
use crate::write_backs::send_write_back;
use client_file_tables::{ClientFiles, DataCall, DataState, Extent, about, to_one};
use packet_bodies::{FetchRequest, Request};
use sprite_ids::{BlockNo, FileId, NoMemory, Pid, Tries, TxNo};
use std::alloc::Global;
use unix_calls::SendKind;

/// How many blocks the most bytes of one call, 16,384, touch at most (this project).
const CALL_BLOCKS: usize = 5;

// A block is missing: the operation fills, where it is its turn, and else waits for that.
pub(crate) fn fill_first(
    files: &mut ClientFiles,
    alloc: Global,
    pid: Pid,
    call: DataCall,
    extent: &Extent,
) -> Result<(), NoMemory>
    ensures { OnOk result (files.new ≡ fills_first pid call extent.now files.old) }
{
    files.begin_filling(pid)?;
    if !files.is_filling(pid) {
        return keep_data(files, pid, call, DataState::Turn);
    }
    fill_own(files, alloc, pid, call, extent)
}

fn fill_own(
    files: &mut ClientFiles,
    alloc: Global,
    pid: Pid,
    call: DataCall,
    extent: &Extent,
) -> Result<(), NoMemory>
    ensures { OnOk result (files.new ≡ fills_own pid call extent.now files.old) }
{
    fill_zeros(files, &call.file, extent)?;
    fill_next(files, alloc, pid, call, extent)
}

fn fill_next(
    files: &mut ClientFiles,
    alloc: Global,
    pid: Pid,
    call: DataCall,
    extent: &Extent,
) -> Result<(), NoMemory>
    ensures { OnOk result (files.new ≡ fills_next pid call extent.now files.old) }
{
    match missing_of(files, &call, extent) {
        Some(block) => need_block(files, alloc, pid, call, extent, block),
        None => do_cached(files, alloc, pid, call, extent),
    }
}

// Asks for the block, where there is room for it, so that there will be at its answer; else waits for room.
fn need_block(
    files: &mut ClientFiles,
    alloc: Global,
    pid: Pid,
    call: DataCall,
    extent: &Extent,
    block: BlockNo,
) -> Result<(), NoMemory>
    ensures { OnOk result (files.new ≡ needs_block pid call extent.now block files.old) }
{
    if make_room(files, &call.file, extent)? {
        return fetch(files, alloc, pid, call, block);
    }
    wait_for_room(files, alloc, pid, call)
}

fn fetch(
    files: &mut ClientFiles,
    alloc: Global,
    pid: Pid,
    call: DataCall,
    block: BlockNo,
) -> Result<(), NoMemory>
    ensures { OnOk result (files.new ≡ fetches pid call block files.old) }
{
    let tx = send_fetch(files, alloc, pid, &call, block)?;
    keep_data(files, pid, call, DataState::Fetching { tx, block })
}

fn send_fetch(
    files: &mut ClientFiles,
    alloc: Global,
    pid: Pid,
    call: &DataCall,
    block: BlockNo,
) -> Result<TxNo, NoMemory>
    ensures tx { IfOk result (λ tx. tx ≡ files.old.out.next) }
    ensures files { OnOk result (files.new ≡ sends_fetch pid call.now block files.old) }
{
    let body = Request::Fetch(FetchRequest {
        file: call.file,
        stamp: files.known(&call.file).stamp,
        block,
    });
    let for_call = Some(about(pid, call.number));
    let sending = to_one(alloc, call.file.server, Tries::Always, for_call, body)?;
    let kind = SendKind::Fetch {
        file: call.file,
        block,
    };
    files.send_for(alloc, pid, sending, kind)
}

// The cache is full of dirty blocks: the least recently used one is written back first (Nelson, Welch and Ousterhout 1988).
// There is one: a cache has at least eight blocks, and the range at most five, of which one is missing.
fn wait_for_room(
    files: &mut ClientFiles,
    alloc: Global,
    pid: Pid,
    call: DataCall,
) -> Result<(), NoMemory>
    ensures { OnOk result (files.new ≡ waits_for_room pid call files.old) }
{
    match files.cache.write_back_next(None) {
        Some(oldest) => {
            wait_for_write_back(files, alloc, pid, call, &oldest.0, oldest.1, oldest.2)
        }
        None => keep_data(files, pid, call, DataState::Turn),
    }
}

fn wait_for_write_back(
    files: &mut ClientFiles,
    alloc: Global,
    pid: Pid,
    call: DataCall,
    file: &FileId,
    block: BlockNo,
    number: u64,
) -> Result<(), NoMemory>
    ensures { OnOk result (files.new ≡ waits_for_back pid call file.now block number files.old) }
{
    match files.current_write_back(file, block) {
        Some(tx) => keep_data(files, pid, call, DataState::Room { tx }),
        None => {
            let for_call = Some(about(pid, call.number));
            let tx = send_write_back(files, alloc, file, block, number, for_call)?;
            keep_data(files, pid, call, DataState::Room { tx })
        }
    }
}

// Makes room for one more block, and tells whether there is some then: where the cache is full, a clean block outside the
// range is dropped.
fn make_room(files: &mut ClientFiles, file: &FileId, extent: &Extent) -> Result<bool, NoMemory>
    ensures room { IfOk result (λ room. room ≡ gets_room file.now extent.now files.old) }
    ensures files { OnOk result (files.new ≡ makes_room file.now extent.now files.old) }
{
    if !files.cache.full() {
        return Ok(true);
    }
    files.drop_full(file, extent)
}

// Fills the missing blocks of the range that lie behind the file's end with zeros, while there is room for them and no
// block before these is missing.
#[tactic(auto, unfolding(crate::specs::Filling::fills_zeros))]
fn fill_zeros(files: &mut ClientFiles, file: &FileId, extent: &Extent) -> Result<(), NoMemory>
    ensures { OnOk result (files.new ≡ fills_zeros file.now extent.now files.old) }
{
    for _done in 0..CALL_BLOCKS {
        fill_zero(files, file, extent)?;
    }
    Ok(())
}

fn fill_zero(files: &mut ClientFiles, file: &FileId, extent: &Extent) -> Result<(), NoMemory>
    ensures { OnOk result (files.new ≡ fills_zero file.now extent.now files.old) }
{
    match files.missing(file, extent) {
        Some(block) => zero_at(files, file, extent, block),
        None => Ok(()),
    }
}

fn zero_at(
    files: &mut ClientFiles,
    file: &FileId,
    extent: &Extent,
    block: BlockNo,
) -> Result<(), NoMemory>
    ensures { OnOk result (files.new ≡ zeros_at file.now extent.now block files.old) }
{
    if !is_past_end(files, file, block) {
        return Ok(());
    }
    if make_room(files, file, extent)? {
        return put_zero(files, file, block);
    }
    Ok(())
}

// Whether the block begins at the file's end or behind it.
fn is_past_end(files: &ClientFiles, file: &FileId, block: BlockNo) -> bool
    ensures { result ≡ is_past_end file.now block files.now }
{
    u64::from(files.known(file).size) <= 4096 * u64::from(block.0)
}

fn put_zero(files: &mut ClientFiles, file: &FileId, block: BlockNo) -> Result<(), NoMemory>
    ensures { OnOk result (files.new ≡ puts_zero file.now block files.old) }
{
    let stamp = files.known(file).stamp;
    files.fill(file, stamp, block, &[])
}
