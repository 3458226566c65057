ghost use Rattle.std.specs.Prelude.{◌≡◌, ◌==◌, ◌+◌, IfOk, OnOk, option_map, filter, map, not, is_some, is_none, if◌then◌else◌, [], ◌<◌, slice_set, slice_index_or, drop, ◌++◌, ◌∷◌, List, length};
ghost use Rattle.file_views.specs.Setting.{sprite_setting};
ghost use Rattle.file_views.specs.Contents.{zeros};
ghost use Rattle.file_views.specs.Clients.{held, without_block, with_block, cleaned, pieces, blocks_after, blocks_filled, blocks_written_back, same_number, held_bytes, joined, block_written, blocks_written};
ghost use Rattle.file_coherence.specs.Parts.{clean_one};
ghost use Rattle.file_views.specs.declared.Held.{Held};

use crate::contents::{cut, grow, stretch, whole};
use crate::limits::{Limits, block_no, sum};
use file_views::Held;
use sprite_ids::{BlockNo, Bytes, CallKind, Copying, Items, NoMemory};
use std::alloc::Global;

// The block with that number.
pub(crate) fn held(blocks: &[Held], number: usize) -> Option<&Held>
    ensures { option_map (λ one. one.now) result ≡ held blocks.now number }
{
    for one in blocks {
        if usize::from(one.block.0) == number {
            return Some(one);
        }
    }
    None
}

// Whether there is none with that number.
pub(crate) fn is_absent(blocks: &[Held], number: usize) -> bool
    ensures { result ≡ is_none (held blocks.now number) }
{
    held(blocks, number).is_none()
}

// Drops the block with that number.
pub(crate) fn drop_block(alloc: Global, blocks: &mut Items<Held>, number: usize)
    ensures { blocks.new ≡ without_block number blocks.old }
{
    let mut list = std::mem::replace(blocks, Items::new(alloc)).into_vec();
    keep_others(&mut list, number);
    *blocks = Items::of_vec(list);
}

fn keep_others(blocks: &mut Vec<Held>, number: usize)
    ensures { blocks.new.items ≡ without_block number blocks.old.items }
{
    blocks.retain(|one| usize::from(one.block.0) != number);
}

// Puts a block in the place of the one with its number.
pub(crate) fn put_held(alloc: Global, blocks: &mut Items<Held>, new: Held) -> Result<(), NoMemory>
    ensures { OnOk result (blocks.new ≡ with_block new blocks.old) }
{
    drop_block(alloc, blocks, usize::from(new.block.0));
    blocks.push(new)
}

// The dirty blocks, each cut at the client's size.
pub(crate) fn pieces(
    alloc: Global,
    limits: &Limits,
    size: usize,
    blocks: &[Held],
) -> Result<Items<(BlockNo, Bytes)>, NoMemory>
    ensures { IfOk result (λ dirty. dirty ≡ pieces limits.now size blocks.now) }
{
    let mut dirty = Items::new(alloc);
    for one in blocks {
        add_piece(alloc, limits, size, one, &mut dirty)?;
    }
    Ok(dirty)
}

/// The dirty ones of a client's blocks, each cut at the client's size. The one error is want of memory.
pub fn dirty_pieces(
    alloc: Global,
    size: usize,
    blocks: &[Held],
) -> Result<Items<(BlockNo, Bytes)>, NoMemory>
    ensures { IfOk result (λ dirty. dirty ≡ pieces sprite_setting size blocks.now) }
{
    let limits = Limits::sprite();
    pieces(alloc, &limits, size, blocks)
}

fn add_piece(
    alloc: Global,
    limits: &Limits,
    size: usize,
    one: &Held,
    dirty: &mut Items<(BlockNo, Bytes)>,
) -> Result<(), NoMemory>
    ensures { (rest : List Held) → OnOk result (dirty.new ++ pieces limits.now size rest ≡ dirty.old ++ pieces limits.now size (one.now ∷ rest)) }
{
    if one.dirty.is_none() {
        return Ok(());
    }
    let piece = cut(
        alloc,
        limits,
        one.bytes.as_slice(),
        usize::from(one.block.0),
        size,
    )?;
    dirty.push((one.block, piece))
}

// The blocks after a callback: clean after a recall, and none after a stop.
pub(crate) fn call_blocks(alloc: Global, blocks: &mut Items<Held>, kind: CallKind)
    ensures { blocks.new ≡ blocks_after blocks.old kind }
{
    match kind {
        CallKind::Recall => clean_all(blocks),
        CallKind::Stop => *blocks = Items::new(alloc),
    }
}

fn clean_all(blocks: &mut Items<Held>)
    ensures { blocks.new ≡ map cleaned blocks.old }
{
    for at in 0..blocks.len() {
        clean_at(blocks, at);
    }
}

fn clean_at(blocks: &mut Items<Held>, at: usize)
    requires { at < length blocks.old }
    ensures { (d : Held) → blocks.new ≡ slice_set blocks.old at (cleaned (slice_index_or blocks.old at d)) }
{
    blocks.at_mut(at).dirty = None;
}

// Keeps the blocks, or drops them all.
pub(crate) fn keep_if(alloc: Global, blocks: &mut Items<Held>, kept: bool)
    ensures { blocks.new ≡ (if kept then blocks.old else []) }
{
    if !kept {
        *blocks = Items::new(alloc);
    }
}

// A block came in: it is held, clean, where it is wanted.
pub(crate) fn fill_block(
    alloc: Global,
    limits: &Limits,
    blocks: &mut Items<Held>,
    block: BlockNo,
    piece: &[u8],
    wanted: bool,
) -> Result<(), NoMemory>
    ensures { OnOk result (blocks.new ≡ blocks_filled limits.now blocks.old block piece.now wanted) }
{
    if !wanted {
        return Ok(());
    }
    let bytes = whole(alloc, limits, piece)?;
    let new = Held {
        block,
        bytes,
        dirty: None,
    };
    put_held(alloc, blocks, new)
}

// Whether two numbers that may be there are there and equal.
fn same_number(one: Option<u64>, other: Option<u64>) -> bool
    ensures { result ≡ same_number one other }
{
    match (one, other) {
        (Some(one), Some(other)) => one == other,
        _ => false,
    }
}

// A block was written back: it is clean, where its number and the client's stamp are still those.
pub(crate) fn written_back(
    alloc: Global,
    blocks: &mut Items<Held>,
    number: usize,
    dirty: Option<u64>,
    current: bool,
) -> Result<(), NoMemory>
    ensures { OnOk result (blocks.new ≡ blocks_written_back blocks.old dirty current (held blocks.old number)) }
{
    match clean_copy(alloc, blocks.as_slice(), number, dirty, current)? {
        Some(clean) => put_held(alloc, blocks, clean),
        None => Ok(()),
    }
}

fn clean_copy(
    alloc: Global,
    blocks: &[Held],
    number: usize,
    dirty: Option<u64>,
    current: bool,
) -> Result<Option<Held>, NoMemory>
    ensures { IfOk result (λ clean. clean ≡ clean_one dirty current (held blocks.now number)) }
{
    let Some(one) = held(blocks, number) else {
        return Ok(None);
    };
    if !current || !same_number(one.dirty, dirty) {
        return Ok(None);
    }
    Ok(Some(Held {
        block: one.block,
        bytes: one.bytes.copy(alloc)?,
        dirty: None,
    }))
}

// The bytes of the block with that number; of one past the file's end zeros.
pub(crate) fn held_bytes(
    alloc: Global,
    limits: &Limits,
    blocks: &[Held],
    number: usize,
) -> Result<Bytes, NoMemory>
    ensures { IfOk result (λ bytes. bytes ≡ held_bytes limits.now (held blocks.now number)) }
{
    match held(blocks, number) {
        Some(one) => one.bytes.copy(alloc),
        None => zeros(alloc, limits.block()),
    }
}

fn zeros(alloc: Global, count: usize) -> Result<Bytes, NoMemory>
    ensures { IfOk result (λ bytes. bytes ≡ zeros count) }
{
    let mut bytes = Vec::new(alloc);
    grow(&mut bytes, count)?;
    Ok(Bytes::of_vec(bytes))
}

// The bytes of these blocks in a row.
pub(crate) fn joined(
    alloc: Global,
    limits: &Limits,
    blocks: &[Held],
    numbers: &[usize],
) -> Result<Bytes, NoMemory>
    ensures { IfOk result (λ bytes. bytes ≡ joined limits.now blocks.now numbers.now) }
{
    let mut bytes = Bytes::new(alloc);
    for number in numbers {
        bytes.append(held_bytes(alloc, limits, blocks, *number)?.as_slice())?;
    }
    Ok(bytes)
}

// A block after a write of the bytes from the low place on, with its dirty number.
fn block_written(
    alloc: Global,
    limits: &Limits,
    old: &[u8],
    number: usize,
    low: usize,
    bytes: &[u8],
    dirty: u64,
) -> Result<Held, NoMemory>
    ensures { IfOk result (λ block. block ≡ block_written limits.now old.now number low bytes.now dirty) }
{
    let start = limits.start_of(number)?;
    let end = sum(start, limits.block())?;
    let first = low.max(start).saturating_sub(start);
    let behind = sum(low, bytes.len())?.min(end).saturating_sub(start);
    let block = block_no(number)?;
    let new = stretch(
        bytes,
        start.saturating_sub(low),
        behind.saturating_sub(first),
    );
    Ok(Held {
        block,
        bytes: pieced(alloc, stretch(old, 0, first), new, past(old, behind))?,
        dirty: Some(dirty),
    })
}

// The bytes from there on.
fn past(bytes: &[u8], from: usize) -> &[u8]
    ensures { result.now ≡ drop from bytes.now }
{
    bytes.split_at(from.min(bytes.len())).1
}

fn pieced(alloc: Global, first: &[u8], middle: &[u8], last: &[u8]) -> Result<Bytes, NoMemory>
    ensures { IfOk result (λ bytes. bytes ≡ first.now ++ middle.now ++ last.now) }
{
    let mut bytes = Bytes::of_slice(alloc, first)?;
    bytes.append(middle)?;
    bytes.append(last)?;
    Ok(bytes)
}

// Writes the bytes from the low place on over these blocks; each takes the next dirty number after the one given.
pub(crate) fn write_blocks(
    alloc: Global,
    limits: &Limits,
    blocks: &mut Items<Held>,
    low: usize,
    bytes: &[u8],
    count: u64,
    numbers: &[usize],
) -> Result<(), NoMemory>
    ensures { OnOk result (blocks.new ≡ blocks_written limits.now blocks.old low bytes.now count numbers.now) }
{
    let mut dirty = count;
    for number in numbers {
        dirty = dirty.checked_add(1).ok_or(NoMemory)?;
        write_block(alloc, limits, blocks, *number, low, bytes, dirty)?;
    }
    Ok(())
}

fn write_block(
    alloc: Global,
    limits: &Limits,
    blocks: &mut Items<Held>,
    number: usize,
    low: usize,
    bytes: &[u8],
    dirty: u64,
) -> Result<(), NoMemory>
    ensures { OnOk result (blocks.new ≡ with_block (block_written limits.now (held_bytes limits.now (held blocks.old number)) number low bytes.now dirty) blocks.old) }
{
    let old = held_bytes(alloc, limits, blocks.as_slice(), number)?;
    let new = block_written(alloc, limits, old.as_slice(), number, low, bytes, dirty)?;
    put_held(alloc, blocks, new)
}
