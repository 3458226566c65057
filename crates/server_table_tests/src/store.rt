use file_store::Store;
use sprite_ids::{BlockNo, FileId, Kernel};
use std::alloc::Global;

// A call on the store. Files go by their numbers at one server.
#[derive(Clone, Copy)]
enum Act {
    Make(u32),
    Write(u32, u32, &'static [u8]),
    // The block, the size to which the file grows, and the bytes.
    PutBlock(u32, u16, u32, &'static [u8]),
    Truncate(u32),
    Forget(u32),
    // What is read there, of so many bytes at most.
    Read(u32, u32, u32, &'static [u8]),
    // None where the file isn't there.
    Size(u32, Option<u32>),
}

static ACTS: [Act; 24] = [
    Act::Size(7, None),
    Act::Make(7),
    Act::Make(8),
    Act::Write(7, 262_144, b""),
    Act::Size(7, Some(0)),
    // A hole before the bytes is zeros.
    Act::Write(7, 2, b"\x05\x06\x07"),
    Act::Read(7, 0, 9, b"\0\0\x05\x06\x07"),
    Act::Read(7, 1, 2, b"\0\x05"),
    Act::Read(7, 9, 3, b""),
    Act::Write(7, 4, b"\x09\x09"),
    Act::Read(7, 3, 9, b"\x06\x09\x09"),
    // A block is put at its place, and the file grows to its size, but is never cut.
    Act::PutBlock(8, 0, 3, b"\x01\x02\x03"),
    Act::PutBlock(8, 1, 4_097, b"\x04\x05"),
    Act::Size(8, Some(4_098)),
    Act::PutBlock(8, 1, 0, b"\x06"),
    Act::Size(8, Some(4_098)),
    Act::Read(8, 4_095, 4, b"\0\x06\x05"),
    Act::PutBlock(8, 63, 262_144, b"\x07"),
    Act::Size(8, Some(262_144)),
    Act::Truncate(8),
    Act::Size(8, Some(0)),
    Act::Forget(7),
    Act::Size(7, None),
    Act::Size(8, Some(0)),
];

#[test]
fn calls_answer_as_worked_out(rt: HostRuntime) {
    assert!(rt; store_shows(rt.alloc(), &ACTS));
}

// Whether a store shows after all calls what they tell.
fn store_shows(alloc: Global, acts: &[Act]) -> bool {
    let Some(server) = Kernel::new(2) else {
        return false;
    };
    let mut store = Store::new(alloc, 262_144);
    let right = shows_all(&mut store, server, acts);
    std::mem::drop(store);
    right
}

fn shows_all(store: &mut Store, server: Kernel, acts: &[Act]) -> bool {
    for act in acts {
        if !shows(store, server, act) {
            return false;
        }
    }
    true
}

// Makes the call; false where it shows something else, or where a condition of it doesn't hold.
fn shows(store: &mut Store, server: Kernel, act: &Act) -> bool {
    match *act {
        Act::Make(number) => make(store, &FileId { server, number }),
        Act::Write(number, from, bytes) => write(store, &FileId { server, number }, from, bytes),
        Act::PutBlock(number, block, size, bytes) => {
            put_block(
                store,
                &FileId { server, number },
                BlockNo(block),
                size,
                bytes,
            )
        }
        Act::Truncate(number) => truncate(store, &FileId { server, number }),
        Act::Forget(number) => forget(store, &FileId { server, number }),
        Act::Read(number, from, length, wanted) => {
            reads(store, &FileId { server, number }, from, length, wanted)
        }
        Act::Size(number, wanted) => size(store, &FileId { server, number }) == wanted,
    }
}

fn make(store: &mut Store, file: &FileId) -> bool {
    !store.has(*file) && store.make(*file).is_ok()
}

fn write(store: &mut Store, file: &FileId, from: u32, bytes: &[u8]) -> bool {
    let end = u64::from(from) + bytes.len() as u64;
    if !store.has(*file) || end > u64::from(store.limit()) {
        return false;
    }
    store.write_at(*file, from, bytes).is_ok()
}

fn put_block(store: &mut Store, file: &FileId, block: BlockNo, size: u32, bytes: &[u8]) -> bool {
    let end = 4096 * u64::from(block.0) + bytes.len() as u64;
    if !store.has(*file) || end > u64::from(store.limit()) || size > store.limit() {
        return false;
    }
    store.put_block(*file, block, size, bytes).is_ok()
}

fn truncate(store: &mut Store, file: &FileId) -> bool {
    if !store.has(*file) {
        return false;
    }
    store.truncate(*file);
    true
}

fn forget(store: &mut Store, file: &FileId) -> bool {
    if !store.has(*file) {
        return false;
    }
    store.forget(*file);
    true
}

fn reads(store: &Store, file: &FileId, from: u32, length: u32, wanted: &[u8]) -> bool {
    let end = u64::from(from) + u64::from(length);
    if !store.has(*file) || end > u64::from(store.limit()) {
        return false;
    }
    let Ok(bytes) = store.read_at(*file, from, length) else {
        return false;
    };
    bytes.as_slice() == wanted
}

fn size(store: &Store, file: &FileId) -> Option<u32> {
    if !store.has(*file) {
        return None;
    }
    Some(store.size(*file))
}
