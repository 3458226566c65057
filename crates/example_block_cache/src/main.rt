//! A client's cache of file blocks by itself (this project), with no kernel in sight: a server's grant lets a file be cached, a block of
//! it is fetched, written and read, and goes back when the server recalls it. Docs/BUILDERS.md says what `block_cache` promises.
#![tactic(auto)]

ghost use Rattle.std.specs.Prelude.{◌≡◌, ◌≤◌, IfOk, IfSome, length};

use block_cache::{Cache, written_bytes_are_read};
use sprite_ids::{BlockNo, CallKind, FileId, Flushed, Grant, Kernel, NoMemory};
use std::alloc::Global;
use std::io;

fn main(rt: HostRuntime) -> io::Result<()> {
    let Some(server) = Kernel::new(1) else {
        return Ok(());
    };
    match recalled(rt.alloc(), &FileId { server, number: 7 }) {
        Ok(flushed) => print_flushed(&rt, &flushed),
        Err(NoMemory) => println!(rt; "out of memory"),
    }
}

fn print_flushed(rt: &HostRuntime, flushed: &Flushed) -> io::Result<()> {
    println!(rt; "recalled: {} bytes", flushed.size)?;
    for (block, bytes) in flushed.blocks.as_slice() {
        println!(rt; "block {}: {:?}", block.0, bytes.as_slice())?;
    }
    Ok(())
}

/// What a client answers to a recall of the file, of which it wrote two bytes into a block that it had fetched under a grant.
fn recalled(alloc: Global, file: &FileId) -> Result<Flushed, NoMemory> {
    let mut cache = Cache::new(alloc, 8)?;
    let grant = Grant {
        file: *file,
        stamp: 1,
        old: 0,
        new: 1,
        size: 5,
        on: true,
        holder: false,
    };
    cache.take_grant(&grant)?;
    fetch(&mut cache, file, &[1, 2, 3, 4, 5])?;
    write_and_read(&mut cache, file, 3, &[40, 50])?;
    cache.take_callback(*file, 2, CallKind::Recall)
}

/// Puts the file's first block, with these bytes, into the cache under stamp 1, where the file is cached and the block is away.
fn fetch(cache: &mut Cache, file: &FileId, bytes: &[u8]) -> Result<(), NoMemory>
    requires { length bytes.now ≤ 4096 }
{
    if cache.cached(*file) && cache.missing(*file, 0, 1).is_some() {
        cache.fill(*file, 1, BlockNo(0), bytes)?;
    }
    Ok(())
}

/// Writes the bytes into the file and reads them again; None where it isn't cached, a block is away, or counters are spent. What is
/// read is what was written: a law of `block_cache`.
fn write_and_read(
    cache: &mut Cache,
    file: &FileId,
    from: u32,
    bytes: &[u8],
) -> Result<Option<Vec<u8>>, NoMemory>
    requires { (from ≤ 4000000) × (length bytes.now ≤ 4096) }
    ensures { IfOk result (λ found. IfSome found (λ read. read.items ≡ bytes.now)) }
{
    let length = bytes.len() as u32;
    if !cache.cached(*file) || !cache.room() || cache.missing(*file, from, length).is_some() {
        return Ok(None);
    }
    let _size = cache.size();
    written_bytes_are_read();
    cache.write(*file, from, bytes);
    if !cache.cached(*file) || cache.missing(*file, from, length).is_some() {
        return Ok(None);
    }
    Ok(Some(cache.read(*file, from, length)?))
}
