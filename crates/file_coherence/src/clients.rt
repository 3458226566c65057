ghost use Rattle.std.specs.Prelude.{◌≡◌, ◌+◌, ◌==◌, ◌≤◌, ◌<◌, IfOk, OnOk, length, min, nat_lt, filter, not, List};
ghost use Rattle.file_views.specs.Clients.{new_client, is_on, mode_of, take_grant, mode_after, take_callback, fill, wrote_back, install, uninstall, low_of, high_of, is_too_big, range_of, first_absent, missing, cached_bytes, size_written, write_cached, done_cached};
ghost use Rattle.file_coherence.specs.Parts.{append_cached};
ghost use Rattle.file_views.specs.Streams.{same_stream};

use crate::blocks::{
    call_blocks, fill_block, is_absent, joined, keep_if, write_blocks, written_back,
};
use crate::contents::{blocks_between, stretch};
use crate::limits::{Limits, passes, small, sum};
use crate::streams::same_stream;
use file_views::{Client, FileGrant, FileStep};
use sprite_ids::{BlockNo, Bytes, CacheMode, CallKind, Items, NoMemory, StreamNo};
use std::alloc::Global;

// A client that knows nothing of the file.
pub(crate) fn new_client(alloc: Global) -> Client
    ensures { result ≡ new_client }
{
    Client {
        stamp: 0,
        version: 0,
        size: 0,
        mode: CacheMode::None,
        blocks: Items::new(alloc),
        streams: Items::new(alloc),
        waiting: Items::new(alloc),
        count: 0,
    }
}

// Whether a client with that mode uses its cache.
pub(crate) fn is_on(mode: CacheMode) -> bool
    ensures { result ≡ is_on mode }
{
    match mode {
        CacheMode::On => true,
        CacheMode::Off | CacheMode::None => false,
    }
}

// The mode of a grant.
pub(crate) fn mode_of(on: bool) -> CacheMode
    ensures { result ≡ mode_of on }
{
    if on { CacheMode::On } else { CacheMode::Off }
}

// Takes a grant. One that isn't newer than the client's stamp changes nothing. The blocks stay where the client may cache and
// its version is the grant's old one (Nelson, Welch and Ousterhout 1988), and its size where besides it was the holder.
pub(crate) fn take_grant(alloc: Global, client: &mut Client, grant: &FileGrant)
    ensures { client.new ≡ take_grant client.old grant.now }
{
    if grant.stamp <= client.stamp {
        return;
    }
    let same = client.version == grant.old;
    keep_if(alloc, &mut client.blocks, grant.on && same);
    client.size = if grant.holder && same {
        client.size
    } else {
        grant.size
    };
    client.stamp = grant.stamp;
    client.version = grant.new;
    client.mode = mode_of(grant.on);
}

// The mode after a callback.
fn mode_after(mode: CacheMode, kind: CallKind) -> CacheMode
    ensures { result ≡ mode_after mode kind }
{
    match kind {
        CallKind::Recall => mode,
        CallKind::Stop => CacheMode::Off,
    }
}

// Takes a callback.
pub(crate) fn take_callback(alloc: Global, client: &mut Client, stamp: u32, kind: CallKind)
    ensures { client.new ≡ take_callback client.old stamp kind }
{
    client.stamp = stamp;
    client.mode = mode_after(client.mode, kind);
    call_blocks(alloc, &mut client.blocks, kind);
}

// A block comes in. An old one, and one that is held, change nothing.
pub(crate) fn fill(
    alloc: Global,
    limits: &Limits,
    client: &mut Client,
    stamp: u32,
    block: BlockNo,
    piece: &[u8],
) -> Result<(), NoMemory>
    ensures { OnOk result (client.new ≡ fill limits.now client.old stamp block piece.now) }
{
    let absent = is_absent(client.blocks.as_slice(), usize::from(block.0));
    let wanted = stamp == client.stamp && absent;
    fill_block(alloc, limits, &mut client.blocks, block, piece, wanted)
}

// A write-back is done.
pub(crate) fn wrote_back(
    alloc: Global,
    client: &mut Client,
    stamp: u32,
    number: usize,
    dirty: Option<u64>,
) -> Result<(), NoMemory>
    ensures { OnOk result (client.new ≡ wrote_back client.old stamp number dirty) }
{
    let current = stamp == client.stamp;
    written_back(alloc, &mut client.blocks, number, dirty, current)
}

// One more grant of the stream came.
pub(crate) fn install(client: &mut Client, stream: &StreamNo) -> Result<(), NoMemory>
    ensures { OnOk result (client.new ≡ install client.old stream.now) }
{
    client.streams.append(&[*stream])
}

// The stream is installed no more.
pub(crate) fn uninstall(alloc: Global, client: &mut Client, stream: &StreamNo)
    ensures { client.new ≡ uninstall client.old stream.now }
{
    let mut list = std::mem::replace(&mut client.streams, Items::new(alloc)).into_vec();
    drop_stream(&mut list, stream);
    client.streams = Items::of_vec(list);
}

fn drop_stream(streams: &mut Vec<StreamNo>, stream: &StreamNo)
    ensures { streams.new.items ≡ filter (λ other. not (same_stream stream.now other)) streams.old.items }
{
    streams.retain(|other| !same_stream(stream, other));
}

// The place where a reading, writing or append begins in a file of that size.
fn low_of(size: usize, step: &FileStep) -> usize
    ensures { result ≡ low_of size step.now }
{
    match step {
        FileStep::Reading { from, .. } => *from as usize,
        FileStep::Writing { from, .. } => *from as usize,
        FileStep::Append { .. } => size,
        _ => 0,
    }
}

// The place behind its last byte.
pub(crate) fn high_of(size: usize, step: &FileStep) -> Result<usize, NoMemory>
    ensures { IfOk result (λ high. high ≡ high_of size step.now) }
{
    match step {
        FileStep::Reading { from, length, .. } => {
            Ok(sum(*from as usize, *length as usize)?.min(size))
        }
        FileStep::Writing { from, bytes, .. } => sum(*from as usize, bytes.len()),
        FileStep::Append { bytes, .. } => sum(size, bytes.len()),
        _ => Ok(0),
    }
}

// Whether it is an append that would pass the most that a file may have.
fn is_too_big(limits: &Limits, size: usize, step: &FileStep) -> bool
    ensures { result ≡ is_too_big limits.now size step.now }
{
    match step {
        FileStep::Append { bytes, .. } => passes(size, bytes.len(), limits.most()),
        _ => false,
    }
}

// The blocks that it touches.
pub(crate) fn range_of(
    alloc: Global,
    limits: &Limits,
    size: usize,
    step: &FileStep,
) -> Result<Items<usize>, NoMemory>
    ensures { IfOk result (λ numbers. numbers ≡ range_of limits.now size step.now) }
{
    blocks_between(alloc, limits, low_of(size, step), high_of(size, step)?)
}

// The first of the blocks that begins before the client's size and isn't held.
fn first_absent(
    limits: &Limits,
    client: &Client,
    numbers: &[usize],
) -> Result<Option<usize>, NoMemory>
    ensures { IfOk result (λ number. number ≡ first_absent limits.now client.now numbers.now) }
{
    for number in numbers {
        let start = limits.start_of(*number)?;
        let absent = is_absent(client.blocks.as_slice(), *number);
        if start < client.size as usize && absent {
            return Ok(Some(*number));
        }
    }
    Ok(None)
}

// The first block that must come in before the reading, writing or append is done in the cache.
pub(crate) fn missing(
    alloc: Global,
    limits: &Limits,
    client: &Client,
    step: &FileStep,
) -> Result<Option<usize>, NoMemory>
    ensures { IfOk result (λ number. number ≡ missing limits.now client.now step.now) }
{
    if is_too_big(limits, client.size as usize, step) {
        return Ok(None);
    }
    let numbers = range_of(alloc, limits, client.size as usize, step)?;
    first_absent(limits, client, numbers.as_slice())
}

// The bytes that the client reads in its cache.
pub(crate) fn cached_bytes(
    alloc: Global,
    limits: &Limits,
    client: &Client,
    low: usize,
    high: usize,
) -> Result<Bytes, NoMemory>
    ensures { IfOk result (λ bytes. bytes ≡ cached_bytes limits.now client.now low high) }
{
    let numbers = blocks_between(alloc, limits, low, high)?;
    let blocks = joined(alloc, limits, client.blocks.as_slice(), numbers.as_slice())?;
    let first = low % limits.block();
    Bytes::of_slice(
        alloc,
        stretch(blocks.as_slice(), first, high.saturating_sub(low)),
    )
}

// The size after a write; one of no bytes leaves it.
fn size_written(size: u32, low: usize, bytes: &[u8]) -> Result<u32, NoMemory>
    ensures { IfOk result (λ written. written ≡ size_written size low bytes.now) }
{
    if bytes.is_empty() {
        return Ok(size);
    }
    let end = small(sum(low, bytes.len())?)?;
    Ok(size.max(end))
}

// Writes the bytes in the cache.
fn write_cached(
    alloc: Global,
    limits: &Limits,
    client: &mut Client,
    low: usize,
    bytes: &[u8],
) -> Result<(), NoMemory>
    ensures { OnOk result (client.new ≡ write_cached limits.now client.old low bytes.now) }
{
    let numbers = blocks_between(alloc, limits, low, sum(low, bytes.len())?)?;
    let count = count_after(client.count, numbers.len())?;
    let size = size_written(client.size, low, bytes)?;
    write_blocks(
        alloc,
        limits,
        &mut client.blocks,
        low,
        bytes,
        client.count,
        numbers.as_slice(),
    )?;
    client.count = count;
    client.size = size;
    Ok(())
}

fn count_after(count: u64, blocks: usize) -> Result<u64, NoMemory>
    ensures { IfOk result (λ after. after ≡ count + blocks) }
{
    count.checked_add(blocks as u64).ok_or(NoMemory)
}

// Does a reading, writing or append in the cache, of which no block is missing.
pub(crate) fn do_cached(
    alloc: Global,
    limits: &Limits,
    client: &mut Client,
    step: &FileStep,
) -> Result<(), NoMemory>
    ensures { OnOk result (client.new ≡ done_cached limits.now client.old step.now) }
{
    match step {
        FileStep::Writing { from, bytes, .. } => {
            write_cached(alloc, limits, client, *from as usize, bytes.as_slice())
        }
        FileStep::Append { bytes, .. } => append_cached(alloc, limits, client, bytes.as_slice()),
        _ => Ok(()),
    }
}

// Appends the bytes in the cache, where they fit.
fn append_cached(
    alloc: Global,
    limits: &Limits,
    client: &mut Client,
    bytes: &[u8],
) -> Result<(), NoMemory>
    ensures { OnOk result (client.new ≡ append_cached limits.now client.old bytes.now) }
{
    let size = client.size as usize;
    if passes(size, bytes.len(), limits.most()) {
        return Ok(());
    }
    write_cached(alloc, limits, client, size, bytes)
}
