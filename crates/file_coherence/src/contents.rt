ghost use Rattle.std.specs.Prelude.{◌≡◌, ◌+◌, OnOk, IfOk, take, drop, ◌++◌, length};
ghost use Rattle.file_views.specs.Contents.{grown, whole, cut, overlay, put_block, numbers_from, blocks_between};

use crate::limits::{Limits, sum};
use sprite_ids::{Bytes, Items, NoMemory};
use std::alloc::Global;

// Puts so many zeros behind the bytes that they have the size; longer ones stay.
pub(crate) fn grow(bytes: &mut Vec<u8>, size: usize) -> Result<(), NoMemory>
    ensures { OnOk result (bytes.new.items ≡ grown bytes.old.items size) }
{
    if bytes.len() < size {
        bytes.resize(size, 0)?;
    }
    Ok(())
}

// So many of the bytes, from there on, or fewer at their end.
pub(crate) fn stretch(bytes: &[u8], from: usize, many: usize) -> &[u8]
    ensures { result.now ≡ take many (drop from bytes.now) }
{
    let rest = bytes.split_at(from.min(bytes.len())).1;
    rest.split_at(many.min(rest.len())).0
}

// A whole block that begins with these bytes.
pub(crate) fn whole(alloc: Global, limits: &Limits, piece: &[u8]) -> Result<Bytes, NoMemory>
    ensures { IfOk result (λ bytes. bytes ≡ whole limits.now piece.now) }
{
    let mut bytes = Vec::from_slice(alloc, piece)?;
    grow(&mut bytes, limits.block())?;
    Ok(Bytes::of_vec(bytes))
}

// What of the block with that number stands before the size.
pub(crate) fn cut(
    alloc: Global,
    limits: &Limits,
    piece: &[u8],
    number: usize,
    size: usize,
) -> Result<Bytes, NoMemory>
    ensures { IfOk result (λ bytes. bytes ≡ cut limits.now piece.now number size) }
{
    let start = limits.start_of(number)?;
    Bytes::of_slice(alloc, stretch(piece, 0, size.saturating_sub(start)))
}

// Puts bytes over those that stand there, and zeros before them where they begin past the end; no bytes change nothing.
pub(crate) fn overlay(
    alloc: Global,
    bytes: &mut Bytes,
    at: usize,
    new: &[u8],
) -> Result<(), NoMemory>
    ensures { OnOk result (bytes.new ≡ overlay bytes.old at new.now) }
{
    if new.is_empty() {
        return Ok(());
    }
    let mut items = std::mem::replace(bytes, Bytes::new(alloc)).into_vec();
    write_over(&mut items, at, new)?;
    *bytes = Bytes::of_vec(items);
    Ok(())
}

// Puts bytes over those that stand there, and lets them grow before where they have to.
fn write_over(items: &mut Vec<u8>, at: usize, new: &[u8]) -> Result<(), NoMemory>
    ensures { OnOk result (items.new.items ≡ take at (grown items.old.items (at + length new.now)) ++ new.now ++ drop (at + length new.now) (grown items.old.items (at + length new.now))) }
{
    let end = sum(at, new.len())?;
    grow(items, end)?;
    items[at..end].copy_from_slice(new);
    Ok(())
}

// Puts a block at its place; the bytes grow to the size where they are shorter.
pub(crate) fn put_block(
    alloc: Global,
    limits: &Limits,
    bytes: &mut Bytes,
    number: usize,
    size: usize,
    piece: &[u8],
) -> Result<(), NoMemory>
    ensures { OnOk result (bytes.new ≡ put_block limits.now bytes.old number size piece.now) }
{
    let start = limits.start_of(number)?;
    let mut items = std::mem::replace(bytes, Bytes::new(alloc)).into_vec();
    grow(&mut items, size)?;
    *bytes = Bytes::of_vec(items);
    overlay(alloc, bytes, start, piece)
}

// So many numbers from there on.
pub(crate) fn numbers_from(
    alloc: Global,
    first: usize,
    count: usize,
) -> Result<Items<usize>, NoMemory>
    ensures { IfOk result (λ numbers. numbers ≡ numbers_from first count) }
{
    let mut numbers = Items::new(alloc);
    let mut number = first;
    for _done in 0..count {
        numbers.append(&[number])?;
        number = sum(number, 1)?;
    }
    Ok(numbers)
}

// The blocks that bytes from the low place to before the high one stand in.
pub(crate) fn blocks_between(
    alloc: Global,
    limits: &Limits,
    low: usize,
    high: usize,
) -> Result<Items<usize>, NoMemory>
    ensures { IfOk result (λ numbers. numbers ≡ blocks_between limits.now low high) }
{
    if high <= low {
        return Ok(Items::new(alloc));
    }
    let first = low / limits.block();
    let last = (high - 1) / limits.block();
    numbers_from(alloc, first, sum(last, 1)?.saturating_sub(first))
}
