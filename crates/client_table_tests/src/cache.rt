ghost use Rattle.std.specs.Prelude.{◌≡◌};

use block_cache::{Cache, Filled};
use sprite_ids::{BlockNo, CallKind, FileId, Grant, Kernel};
use std::alloc::Global;

// A call on the cache, with what it answers. Files go by their numbers at one server.
#[derive(Clone, Copy)]
enum Act {
    // The file, the stamp, the old and the new version, the size, whether it may be cached, and whether the client had
    // its dirty blocks.
    Grant(u32, u32, (u32, u32), u32, bool, bool, bool),
    // The file, the stamp, the kind, the size, and how many blocks are sent.
    Callback(u32, u32, CallKind, u32, usize),
    // The file, the stamp, the block, and its bytes before zeros.
    Fill(u32, u32, u16, &'static [u8], Filled),
    // The file, from where, and the bytes; all its blocks are held.
    Read(u32, u32, &'static [u8]),
    Write(u32, u32, &'static [u8]),
    // The first block that is absent, of so many bytes from there on.
    Missing(u32, u32, u32, Option<u16>),
    // The least recently used dirty block of all, with its number.
    Next(Option<(u32, u16, u64)>),
    // The file, the stamp, the block and its number.
    WroteBack(u32, u32, u16, u64, bool),
    // The file, and the blocks that stay, from first to last.
    DropClean(u32, u16, u16, Option<(u32, u16)>),
    // How many blocks of the file are held, and how many are dirty.
    Count(u32, usize, usize),
    // The block's dirty number, and how many of its bytes stand before the file's size.
    Block(u32, u16, Option<u64>, usize),
    // The version and the size of the file, and whether the cache is full.
    State(u32, Option<(u32, u32)>, bool),
}

// A cache of four blocks.
static ACTS: [Act; 39] = [
    Act::State(1, None, false),
    Act::Grant(1, 1, (0, 0), 5_000, true, false, true),
    Act::State(1, Some((0, 5_000)), false),
    Act::Missing(1, 0, 5_000, Some(0)),
    Act::Fill(1, 1, 0, b"\x07\x08", Filled::Filled),
    Act::Fill(1, 1, 0, b"\x01", Filled::Kept),
    Act::Fill(1, 2, 1, b"\x05", Filled::Old),
    Act::Missing(1, 4_095, 2, Some(1)),
    Act::Fill(1, 1, 1, b"\x05", Filled::Filled),
    Act::Read(1, 4_094, b"\0\0\x05\0"),
    // A write across two blocks makes both dirty, in their order.
    Act::Write(1, 4_094, b"\x01\x02\x03"),
    Act::Read(1, 4_094, b"\x01\x02\x03\0"),
    Act::Next(Some((1, 0, 1))),
    Act::Block(1, 1, Some(2), 904),
    // All are dirty: none goes.
    Act::DropClean(2, 0, 3, None),
    // Another file fills the cache; one of its blocks is the last that a file may have.
    Act::Grant(2, 3, (4, 5), 0, true, false, true),
    Act::Fill(2, 3, 1_023, b"", Filled::Filled),
    // The one clean block is of the range, a short one or a long one.
    Act::DropClean(2, 1_020, 1_023, None),
    Act::DropClean(2, 1_000, 1_023, None),
    Act::Fill(2, 3, 3, b"", Filled::Filled),
    Act::State(2, Some((5, 0)), true),
    Act::Fill(2, 3, 6, b"", Filled::Full),
    Act::Count(2, 2, 0),
    // Clean blocks go from the one that was used longest ago; dirty ones stay.
    Act::DropClean(1, 0, 1, Some((2, 1_023))),
    Act::WroteBack(1, 1, 0, 2, false),
    Act::WroteBack(1, 1, 0, 1, true),
    Act::Next(Some((1, 1, 2))),
    Act::DropClean(2, 0, 3, Some((1, 0))),
    Act::Count(1, 1, 1),
    // A recall sends and cleans; an older grant does nothing.
    Act::Callback(1, 4, CallKind::Recall, 5_000, 1),
    Act::Count(1, 1, 0),
    Act::Grant(1, 2, (0, 9), 1, false, false, false),
    // The holder of the old version keeps its size and its blocks.
    Act::Grant(1, 5, (0, 1), 4_000, true, true, true),
    Act::Write(1, 4_998, b"\x09\x09\x09"),
    Act::State(1, Some((1, 5_001)), false),
    // A stop sends and drops.
    Act::Callback(1, 6, CallKind::Stop, 5_001, 1),
    Act::Count(1, 0, 0),
    Act::Grant(1, 6, (1, 2), 10, true, false, false),
    Act::Callback(3, 1, CallKind::Stop, 0, 0),
];

#[test]
fn calls_answer_as_worked_out(rt: HostRuntime) {
    assert!(rt; cache_answers(rt.alloc(), &ACTS));
}

#[test]
fn a_cache_without_room_is_full(rt: HostRuntime) {
    assert!(rt; is_full_at_once(rt.alloc()));
}

fn is_full_at_once(alloc: Global) -> bool {
    let Ok(cache) = Cache::new(alloc, 0) else {
        return false;
    };
    let full = cache.size() == 0 && cache.full();
    std::mem::drop(cache);
    full
}

// Whether a cache of four blocks answers to all calls as they tell.
fn cache_answers(alloc: Global, acts: &[Act]) -> bool {
    let Some(server) = Kernel::new(2) else {
        return false;
    };
    let Ok(mut cache) = Cache::new(alloc, 4) else {
        return false;
    };
    let right = answers_all(&mut cache, &server, acts);
    std::mem::drop(cache);
    right
}

fn answers_all(cache: &mut Cache, server: &Kernel, acts: &[Act]) -> bool {
    for act in acts {
        if !answers(cache, server, act) {
            return false;
        }
    }
    true
}

// Makes the call; false where it answers otherwise, or where a condition of it doesn't hold.
fn answers(cache: &mut Cache, server: &Kernel, act: &Act) -> bool {
    match *act {
        Act::Grant(number, stamp, versions, size, on, holder, wanted) => {
            let grant = Grant {
                file: file(server, number),
                stamp,
                old: versions.0,
                new: versions.1,
                size,
                on,
                holder,
            };
            take_grant(cache, &grant, wanted)
        }
        Act::Callback(number, stamp, kind, size, count) => {
            call_back(cache, &file(server, number), stamp, kind, size, count)
        }
        Act::Fill(number, stamp, block, bytes, wanted) => {
            fill(cache, &file(server, number), stamp, block, bytes, wanted)
        }
        Act::Read(number, from, wanted) => read(cache, &file(server, number), from, wanted),
        Act::Write(number, from, bytes) => write(cache, &file(server, number), from, bytes),
        Act::WroteBack(number, stamp, block, dirty, wanted) => {
            let done = cache.wrote_back(file(server, number), stamp, BlockNo(block), dirty);
            done == wanted
        }
        Act::DropClean(number, first, last, wanted) => {
            let gone = cache.drop_clean(file(server, number), BlockNo(first), BlockNo(last));
            is_block(gone, wanted)
        }
        _ => shows(cache, server, act),
    }
}

// Whether a call that changes nothing answers so.
fn shows(cache: &Cache, server: &Kernel, act: &Act) -> bool {
    match *act {
        Act::Missing(number, from, length, wanted) => {
            misses(cache, &file(server, number), from, length, wanted)
        }
        Act::Next(wanted) => is_next(cache, wanted),
        Act::Count(number, held, dirty) => {
            holds(cache, &file(server, number), held)
                && has_dirty(cache, &file(server, number), dirty)
        }
        Act::Block(number, block, dirty, length) => {
            cache.dirty(file(server, number), BlockNo(block)) == dirty
                && has_bytes(cache, &file(server, number), block, length)
        }
        Act::State(number, wanted, full) => {
            is_state(cache, &file(server, number), wanted) && cache.full() == full
        }
        _ => false,
    }
}

fn file(server: &Kernel, number: u32) -> FileId
    ensures { result ≡ record { server = server.now; number = number } }
{
    FileId {
        server: *server,
        number,
    }
}

// Whether it is that block, or none is found and none is wanted.
fn is_block(found: Option<(FileId, BlockNo)>, wanted: Option<(u32, u16)>) -> bool {
    match (found, wanted) {
        (Some((file, block)), Some((number, place))) => file.number == number && block.0 == place,
        (None, None) => true,
        _ => false,
    }
}

fn is_next(cache: &Cache, wanted: Option<(u32, u16, u64)>) -> bool {
    match (cache.write_back_next(None), wanted) {
        (Some((file, block, dirty)), Some((number, place, count))) => {
            file.number == number && block.0 == place && dirty == count
        }
        (None, None) => true,
        _ => false,
    }
}

fn is_state(cache: &Cache, file: &FileId, wanted: Option<(u32, u32)>) -> bool {
    match (cache.state(*file), wanted) {
        (Some(state), Some((version, size))) => state.version == version && state.size == size,
        (None, None) => true,
        _ => false,
    }
}

fn take_grant(cache: &mut Cache, grant: &Grant, wanted: bool) -> bool {
    let Ok(taken) = cache.take_grant(grant) else {
        return false;
    };
    taken == wanted
}

fn call_back(
    cache: &mut Cache,
    file: &FileId,
    stamp: u32,
    kind: CallKind,
    size: u32,
    count: usize,
) -> bool {
    let Ok(sent) = cache.take_callback(*file, stamp, kind) else {
        return false;
    };
    let right = sent.size == size && sent.blocks.len() == count;
    std::mem::drop(sent);
    right
}

fn holds(cache: &Cache, file: &FileId, count: usize) -> bool {
    let Ok(blocks) = cache.held(*file) else {
        return false;
    };
    blocks.len() == count
}

fn has_dirty(cache: &Cache, file: &FileId, count: usize) -> bool {
    let Ok(blocks) = cache.dirty_blocks(*file) else {
        return false;
    };
    blocks.len() == count
}

fn has_bytes(cache: &Cache, file: &FileId, block: u16, length: usize) -> bool {
    let Ok(bytes) = cache.bytes_of(*file, BlockNo(block)) else {
        return false;
    };
    bytes.len() == length
}

fn fill(
    cache: &mut Cache,
    file: &FileId,
    stamp: u32,
    block: u16,
    bytes: &[u8],
    wanted: Filled,
) -> bool {
    if block >= 1_024 || bytes.len() > 4_096 || !cache.cached(*file) {
        return false;
    }
    let Ok(filled) = cache.fill(*file, stamp, BlockNo(block), bytes) else {
        return false;
    };
    filled == wanted
}

fn read(cache: &mut Cache, file: &FileId, from: u32, wanted: &[u8]) -> bool {
    if from > 4_000_000 || wanted.len() > 100 || !cache.cached(*file) {
        return false;
    }
    let length = wanted.len() as u32;
    if cache.missing(*file, from, length).is_some() {
        return false;
    }
    let Ok(bytes) = cache.read(*file, from, length) else {
        return false;
    };
    bytes.as_slice() == wanted
}

fn write(cache: &mut Cache, file: &FileId, from: u32, bytes: &[u8]) -> bool {
    if from > 4_000_000 || bytes.len() > 100 || !cache.cached(*file) || !cache.room() {
        return false;
    }
    let length = bytes.len() as u32;
    if cache.missing(*file, from, length).is_some() {
        return false;
    }
    cache.write(*file, from, bytes);
    true
}

fn misses(cache: &Cache, file: &FileId, from: u32, length: u32, wanted: Option<u16>) -> bool {
    if from > 4_000_000 || length > 10_000 {
        return false;
    }
    match (cache.missing(*file, from, length), wanted) {
        (Some(block), Some(place)) => block.0 == place,
        (None, None) => true,
        _ => false,
    }
}
