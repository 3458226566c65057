ghost use Rattle.std.specs.Prelude.{◌≡◌, ◌^◌, ◌≤◌, ◌<◌, ◌+◌, ◌*◌, ◌/◌, ◌%◌, ◌++◌, ℕ, List, Option, length, replicate, IfOk, IfSome, OnOk, OnErr, option_map, slice_set};
ghost use Rattle.std.specs.List.{All};
ghost use Rattle.byteorder.specs.Endian.{little_number, little_bytes};
ghost use Rattle.process_machine.specs.Machine.{IsPage, ArePages};
ghost use Rattle.process_machine.specs.Memory.{page_of, leaves, byte_access, word_access, byte_at, bytes_at, with_byte, with_bytes, bytes_in};

use byteorder::{ByteOrder, LittleEndian};
use sprite_ids::{Bytes, Items, NoMemory};
use std::alloc::Global;

/// How many bytes a page has.
pub const PAGE_SIZE: u64 = 4096;

/// Whether the bytes that an instruction touches are there.
#[derive(Clone, Copy, Debug, PartialEq, Eq)]
pub enum Access {
    /// Each of them is.
    Present,
    /// One of them is outside the pages.
    Outside,
    /// The first absent page among theirs.
    Away(u8),
}

/// The page of that number; None where it is away or isn't one of these.
pub fn page(pages: &[Option<Bytes>], number: u64) -> Option<&Bytes>
    requires { ArePages pages.now }
    ensures value { option_map (λ bytes. bytes.now) result ≡ page_of pages.now number }
    ensures whole { IfSome result (λ bytes. length bytes.now ≡ 4096) }
{
    if number < pages.len() as u64 {
        pages[number as usize].as_ref()
    } else {
        None
    }
}

/// Whether the bytes from an address on, that many, leave the pages.
pub fn leaves(pages: &[Option<Bytes>], address: u64, count: u64) -> bool
    requires { ArePages pages.now }
    ensures { result ≡ leaves pages.now address count }
{
    let end = PAGE_SIZE * pages.len() as u64;
    end < address || end - address < count
}

/// Whether the byte at an address is there.
pub fn byte_access(pages: &[Option<Bytes>], address: u64) -> Access
    requires { ArePages pages.now }
    ensures { result ≡ byte_access pages.now address }
{
    if leaves(pages, address, 1) {
        return Access::Outside;
    }
    let number = address / PAGE_SIZE;
    match page(pages, number) {
        None => Access::Away(number as u8),
        Some(_) => Access::Present,
    }
}

/// Whether the eight bytes from an address on are there.
pub fn word_access(pages: &[Option<Bytes>], address: u64) -> Access
    requires { ArePages pages.now }
    ensures { result ≡ word_access pages.now address }
{
    if leaves(pages, address, 8) {
        return Access::Outside;
    }
    let first = address / PAGE_SIZE;
    if page(pages, first).is_none() {
        return Access::Away(first as u8);
    }
    let last = (address + 7) / PAGE_SIZE;
    match page(pages, last) {
        None => Access::Away(last as u8),
        Some(_) => Access::Present,
    }
}

/// The byte at an address, 0 where its page isn't there.
pub fn byte_at(pages: &[Option<Bytes>], address: u64) -> u8
    requires { ArePages pages.now }
    ensures { result ≡ byte_at pages.now address }
{
    match page(pages, address / PAGE_SIZE) {
        None => 0,
        Some(bytes) => bytes.as_slice()[(address % PAGE_SIZE) as usize],
    }
}

/// The eight bytes from an address on, as a number, the lowest first. Where they lie in one page they are read at once.
pub fn word_at(pages: &[Option<Bytes>], address: u64) -> u64
    requires pages { ArePages pages.now }
    requires small { address + 8 < 2 ^ 64 }
    ensures { result ≡ little_number 8 (bytes_at pages.now address 8) }
{
    let offset = address % PAGE_SIZE;
    if offset <= PAGE_SIZE - 8 {
        match page(pages, address / PAGE_SIZE) {
            None => 0,
            Some(bytes) => LittleEndian::read_u64(&bytes.as_slice()[offset as usize..]),
        }
    } else {
        word_by_bytes(pages, address)
    }
}

// The same, a byte at a time.
fn word_by_bytes(pages: &[Option<Bytes>], address: u64) -> u64
    requires pages { ArePages pages.now }
    requires small { address + 8 < 2 ^ 64 }
    ensures { result ≡ little_number 8 (bytes_at pages.now address 8) }
{
    let bytes = [
        byte_at(pages, address),
        byte_at(pages, address + 1),
        byte_at(pages, address + 2),
        byte_at(pages, address + 3),
        byte_at(pages, address + 4),
        byte_at(pages, address + 5),
        byte_at(pages, address + 6),
        byte_at(pages, address + 7),
    ];
    LittleEndian::read_u64(&bytes)
}

/// The bytes from an address on, that many: 0 where a byte's page isn't there. A page's part is copied at once. The one
/// error is want of memory.
pub fn bytes_at(
    alloc: Global,
    pages: &[Option<Bytes>],
    address: u64,
    count: u64,
) -> Result<Bytes, NoMemory>
    requires { ArePages pages.now }
    ensures { IfOk result (λ bytes. bytes ≡ bytes_at pages.now address count) }
{
    let mut bytes = Bytes::of_vec(Vec::with_capacity(alloc, count as usize)?);
    let mut done = 0;
    'pieces: while done < count {
        let at = address.saturating_add(done);
        let offset = at % PAGE_SIZE;
        let part = (PAGE_SIZE - offset).min(count - done);
        append_piece(
            &mut bytes,
            pages,
            at / PAGE_SIZE,
            offset as usize,
            part as usize,
        )?;
        done += part;
    }
    Ok(bytes)
}

// Puts the bytes of a part of one page at the end, zeros where the page isn't there.
fn append_piece(
    bytes: &mut Bytes,
    pages: &[Option<Bytes>],
    number: u64,
    offset: usize,
    count: usize,
) -> Result<(), NoMemory>
    requires pages { ArePages pages.now }
    requires inside { offset + count ≤ 4096 }
    ensures { OnOk result (bytes.new ≡ bytes.old ++ bytes_at pages.now (4096 * number + offset) count) }
{
    match page(pages, number) {
        None => bytes.append(&[0; 4096][..count]),
        Some(page) => bytes.append(&page.as_slice()[offset..offset + count]),
    }
}

// Puts a byte into a page that is there.
fn put_in(page: &mut Option<Bytes>, offset: usize, byte: u8)
    requires page { IsPage page.old }
    requires offset { offset < 4096 }
    ensures { page.new ≡ option_map (λ bytes. slice_set bytes offset byte) page.old }
{
    if let Some(bytes) = page {
        bytes.set(offset, byte);
    }
}

/// Puts a byte at an address, where its page is there.
pub fn put_byte(pages: &mut Items<Option<Bytes>>, address: u64, byte: u8)
    requires { ArePages pages.old }
    ensures value { pages.new ≡ with_byte pages.old address byte }
    ensures stay { ArePages pages.new }
{
    let number = address / PAGE_SIZE;
    if number < pages.len() as u64 {
        put_in(
            pages.at_mut(number as usize),
            (address % PAGE_SIZE) as usize,
            byte,
        );
    }
}

// Puts bytes into a page that is there, from an offset on.
fn put_in_at(page: &mut Option<Bytes>, offset: usize, word: &[u8])
    requires page { IsPage page.old }
    requires offset { offset + length word.now ≤ 4096 }
    ensures value { page.new ≡ option_map (λ bytes. bytes_in bytes offset word.now) page.old }
    ensures page { IsPage page.new }
{
    if let Some(bytes) = page {
        bytes.overwrite(offset, word);
    }
}

/// Puts bytes from an address on, each where its page is there: a page's part at once.
pub fn put_bytes(pages: &mut Items<Option<Bytes>>, address: u64, bytes: &[u8])
    requires { ArePages pages.old }
    ensures value { pages.new ≡ with_bytes pages.old address bytes.now }
    ensures stay { ArePages pages.new }
{
    let mut done = 0;
    'pieces: while done < bytes.len() {
        let at = address.saturating_add(done as u64);
        let offset = (at % PAGE_SIZE) as usize;
        let count = (4096 - offset).min(bytes.len() - done);
        put_piece(pages, at / PAGE_SIZE, offset, &bytes[done..done + count]);
        done += count;
    }
}

// Puts bytes that lie in one page into it, where it is there.
fn put_piece(pages: &mut Items<Option<Bytes>>, number: u64, offset: usize, piece: &[u8])
    requires pages { ArePages pages.old }
    requires inside { offset + length piece.now ≤ 4096 }
    ensures value { pages.new ≡ with_bytes pages.old (4096 * number + offset) piece.now }
    ensures stay { ArePages pages.new }
{
    if number < pages.len() as u64 {
        put_in_at(pages.at_mut(number as usize), offset, piece);
    }
}

/// Puts the eight bytes of a number from an address on, the lowest first, each where its page is there. Where they lie
/// in one page they are put at once.
pub fn put_word(pages: &mut Items<Option<Bytes>>, address: u64, word: u64)
    requires { ArePages pages.old }
    ensures value { pages.new ≡ with_bytes pages.old address (little_bytes 8 word) }
    ensures stay { ArePages pages.new }
{
    let mut bytes = [0; 8];
    LittleEndian::write_u64(&mut bytes, word);
    let number = address / PAGE_SIZE;
    let offset = address % PAGE_SIZE;
    if offset <= PAGE_SIZE - 8 && number < pages.len() as u64 {
        put_in_at(pages.at_mut(number as usize), offset as usize, &bytes);
    } else {
        put_bytes(pages, address, &bytes);
    }
}
