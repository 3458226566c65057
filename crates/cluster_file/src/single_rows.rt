ghost use Rattle.std.specs.Prelude.{◌≡◌, ◌≤◌, ◌<◌, ◌+◌, ◌*◌, ◌&&◌, IfOk, IfErr, Ok, length, nat_le};
ghost use Rattle.toml.specs.View.{table_view};
ghost use Rattle.unix_calls.specs.Boot.{limit_of};
ghost use Rattle.cluster_file.specs.Tables.{elements_at, text_at, texts_in};
ghost use Rattle.cluster_file.specs.Refusals.{IsRefusedBy, IsAt, rest_of, is_at_most};
ghost use Rattle.cluster_file.specs.Rows.{served_by, kernel_row, program_row, start_row, bytes_of, bytes_at, has_room, size_of, file_row, fate_of, fate_at, count_at, link_row, evict_row};

use crate::keys::{KeyName, Section};
use crate::names::is_name;
use crate::places::refused_at;
use crate::refusal::FileEnd;
use crate::rows::{EvictRow, FileRow, KernelRow, LinkRow, ProgramRow, ProgramText, StartRow};
use crate::tables::{elements_at, text_at, truth_at, value_at, whole_at, within, within_u32};
use link_plan::Fate;
use sprite_ids::{Bytes, Items, Kernel, NoMemory};
use std::alloc::Global;
use toml::Table;

/// The most bytes that all files have in version 2.
const MOST_BYTES: u64 = 67_108_864;

/// How many domains a cluster has at most.
const MOST_SERVED: usize = 16;

/// The most of a fault's numbers.
const MOST_COUNT: u32 = 2_147_483_648;

/// The most of a start's argument.
const MOST_ARG: u64 = 9_223_372_036_854_775_807;

/// The refusal for a value out of limits at a key of the element behind the earlier ones, or want of memory.
fn out_of_limits(alloc: Global, section: Section, earlier: usize, key: KeyName) -> FileEnd
    requires { earlier < 200 }
    ensures { IsAt 6 section (earlier + 1) key result }
{
    refused_at(alloc, 6, section, earlier + 1, key)
}

/// The strings of the array at a key.
fn texts_at(alloc: Global, table: &Table, key: KeyName) -> Result<Items<Bytes>, NoMemory>
    ensures { IfOk result (λ texts. texts ≡ texts_in (elements_at key (table_view table.now))) }
{
    let mut texts = Items::new(alloc);
    for element in elements_at(table, key) {
        if let Some(text) = element.as_str() {
            texts.push(Bytes::of_slice(alloc, text.as_bytes())?)?;
        }
    }
    Ok(texts)
}

/// The string at a key.
fn bytes_at_key(alloc: Global, table: &Table, key: KeyName) -> Result<Bytes, NoMemory>
    ensures { IfOk result (λ text. text ≡ text_at key (table_view table.now)) }
{
    Bytes::of_slice(alloc, text_at(table, key).as_bytes())
}

/// The kernel that the table writes, behind the earlier ones.
pub fn kernel_row(alloc: Global, earlier: &[KernelRow], table: &Table) -> Result<KernelRow, FileEnd>
    requires few { length earlier.now < 16 }
    ensures row { IfOk result (λ row. kernel_row earlier.now (table_view table.now) ≡ Ok row) }
    ensures refused { IfErr result (IsRefusedBy (kernel_row earlier.now (table_view table.now))) }
{
    if !is_name(text_at(table, KeyName::Name).as_bytes()) {
        return Err(out_of_limits(alloc, Section::Kernel, earlier.len(), KeyName::Name));
    }
    let serves = texts_at(alloc, table, KeyName::Serves)?;
    if value_at(table, KeyName::Serves).is_some() && !are_served(earlier, serves.len()) {
        return Err(out_of_limits(alloc, Section::Kernel, earlier.len(), KeyName::Serves));
    }
    Ok(KernelRow {
        kernel: kernel_behind(earlier.len()),
        name: bytes_at_key(alloc, table, KeyName::Name)?,
        serves,
    })
}

/// The kernel behind so many.
fn kernel_behind(count: usize) -> Kernel
    requires { count < 16 }
    ensures { result ≡ count + 1 }
{
    match Kernel::new(count as u8 + 1) {
        Some(kernel) => kernel,
        None => unreachable!(),
    }
}

/// Whether so many domains of one kernel are some and, with the earlier ones, not too many.
fn are_served(earlier: &[KernelRow], count: usize) -> bool
    ensures { result ≡ (nat_le 1 count && nat_le (served_by earlier.now + count) 16) }
{
    match served_room(earlier, MOST_SERVED) {
        Some(room) => 1 <= count && count <= room,
        None => false,
    }
}

/// What the domains of these kernels leave of so many; None where they are more.
fn served_room(rows: &[KernelRow], most: usize) -> Option<usize>
    ensures { result ≡ rest_of most (served_by rows.now) }
{
    let mut rest = most;
    for row in rows {
        rest = rest.checked_sub(row.serves.len())?;
    }
    Some(rest)
}

/// The program that the table writes, behind the earlier ones.
pub fn program_row(
    alloc: Global,
    earlier: &[ProgramRow],
    table: &Table,
) -> Result<ProgramRow, FileEnd>
    requires few { length earlier.now < 64 }
    ensures row { IfOk result (λ row. program_row earlier.now (table_view table.now) ≡ Ok row) }
    ensures refused { IfErr result (IsRefusedBy (program_row earlier.now (table_view table.now))) }
{
    if !is_name(text_at(table, KeyName::Name).as_bytes()) {
        return Err(out_of_limits(alloc, Section::Program, earlier.len(), KeyName::Name));
    }
    Ok(ProgramRow {
        number: earlier.len() as u8 + 1,
        name: bytes_at_key(alloc, table, KeyName::Name)?,
        text: ProgramText::of_str(alloc, text_at(table, KeyName::Text))?,
    })
}

/// The start that the table writes, behind the earlier ones.
pub fn start_row(alloc: Global, earlier: &[StartRow], table: &Table) -> Result<StartRow, FileEnd>
    requires few { length earlier.now < 64 }
    ensures row { IfOk result (λ row. start_row earlier.now (table_view table.now) ≡ Ok row) }
    ensures refused { IfErr result (IsRefusedBy (start_row earlier.now (table_view table.now))) }
{
    let Some(arg) = within(0, MOST_ARG, whole_at(table, KeyName::Arg, 0)) else {
        return Err(out_of_limits(alloc, Section::Start, earlier.len(), KeyName::Arg));
    };
    Ok(StartRow {
        host: bytes_at_key(alloc, table, KeyName::Host)?,
        program: bytes_at_key(alloc, table, KeyName::Program)?,
        arg,
    })
}

/// The most bytes of a file in the version.
fn limit_of(version: u8) -> u32
    ensures value { result ≡ limit_of version }
    ensures most { result ≤ 4194304 }
{
    if version > 1 { 4_194_304 } else { 262_144 }
}

/// The file that the table writes, behind the earlier ones.
pub fn file_row(
    alloc: Global,
    version: u8,
    earlier: &[FileRow],
    table: &Table,
) -> Result<FileRow, FileEnd>
    requires few { length earlier.now < 200 }
    ensures row { IfOk result (λ row. file_row version earlier.now (table_view table.now) ≡ Ok row) }
    ensures refused { IfErr result (IsRefusedBy (file_row version earlier.now (table_view table.now))) }
{
    let path = text_at(table, KeyName::Path).as_bytes();
    let text = text_at(table, KeyName::Text).as_bytes();
    let Some(repeat) = within_u32(1, limit_of(version), whole_at(table, KeyName::Repeat, 1)) else {
        return Err(out_of_limits(alloc, Section::File, earlier.len(), KeyName::Repeat));
    };
    let Some(size) = size_of(version, earlier, path, text.len(), repeat) else {
        return Err(out_of_limits(alloc, Section::File, earlier.len(), KeyName::Repeat));
    };
    Ok(FileRow {
        path: Bytes::of_slice(alloc, path)?,
        text: Bytes::of_slice(alloc, text)?,
        repeat,
        size,
        append: truth_at(table, KeyName::Append),
    })
}

/// How many bytes so many times so many are, where the file may have them.
fn size_of(version: u8, earlier: &[FileRow], path: &[u8], length: usize, repeat: u32) -> Option<u32>
    ensures { result ≡ size_of version earlier.now path.now (length * repeat) }
{
    let size = (length as u64).checked_mul(u64::from(repeat))?;
    if size <= u64::from(limit_of(version)) && has_room(version, earlier, path, size) {
        Some(size as u32)
    } else {
        None
    }
}

/// Whether so many bytes more may be in all files, and in that one.
fn has_room(version: u8, earlier: &[FileRow], path: &[u8], size: u64) -> bool
    ensures { result ≡ has_room version earlier.now path.now size }
{
    version < 2
        || (is_at_most(size, all_room(earlier, MOST_BYTES))
            && is_at_most(size, path_room(earlier, path, u64::from(limit_of(version)))))
}

/// Whether there is room, and so much of it.
fn is_at_most(size: u64, room: Option<u64>) -> bool
    ensures { result ≡ is_at_most size room }
{
    match room {
        Some(room) => size <= room,
        None => false,
    }
}

/// What the bytes of these files leave of so many; None where they are more.
fn all_room(rows: &[FileRow], most: u64) -> Option<u64>
    ensures { result ≡ rest_of most (bytes_of rows.now) }
{
    let mut rest = most;
    for row in rows {
        rest = rest.checked_sub(u64::from(row.size))?;
    }
    Some(rest)
}

/// What the bytes of the files of that path leave of so many; None where they are more.
fn path_room(rows: &[FileRow], path: &[u8], most: u64) -> Option<u64>
    ensures { result ≡ rest_of most (bytes_at path.now rows.now) }
{
    let mut rest = most;
    for row in rows {
        if row.path.as_slice() == path {
            rest = rest.checked_sub(u64::from(row.size))?;
        }
    }
    Some(rest)
}

/// The fate of that name; None exactly where none has it.
fn fate_of(text: &[u8]) -> Option<Fate>
    ensures { result ≡ fate_of text.now }
{
    if text == b"lost".as_slice() {
        Some(Fate::Lost)
    } else if text == b"twice".as_slice() {
        Some(Fate::Twice)
    } else if text == b"late".as_slice() {
        Some(Fate::Late)
    } else {
        None
    }
}

/// The fate that the table names; `lost` where it names none.
fn fate_at(table: &Table) -> Option<Fate>
    ensures { result ≡ fate_at (table_view table.now) }
{
    if value_at(table, KeyName::Fate).is_some() {
        fate_of(text_at(table, KeyName::Fate).as_bytes())
    } else {
        Some(Fate::Lost)
    }
}

/// The number at a key of a fault of the link.
fn count_at(table: &Table, key: KeyName, default: u32) -> Option<u32>
    ensures { result ≡ count_at key default (table_view table.now) }
{
    within_u32(1, MOST_COUNT, whole_at(table, key, default))
}

/// The fault of the link that the table writes, behind the earlier ones.
pub fn link_row(alloc: Global, earlier: &[LinkRow], table: &Table) -> Result<LinkRow, FileEnd>
    requires few { length earlier.now < 64 }
    ensures row { IfOk result (λ row. link_row earlier.now (table_view table.now) ≡ Ok row) }
    ensures refused { IfErr result (IsRefusedBy (link_row earlier.now (table_view table.now))) }
{
    let Some(first) = count_at(table, KeyName::First, 1) else {
        return Err(out_of_limits(alloc, Section::Link, earlier.len(), KeyName::First));
    };
    let Some(every) = count_at(table, KeyName::Every, 1) else {
        return Err(out_of_limits(alloc, Section::Link, earlier.len(), KeyName::Every));
    };
    let Some(count) = count_at(table, KeyName::Count, MOST_COUNT) else {
        return Err(out_of_limits(alloc, Section::Link, earlier.len(), KeyName::Count));
    };
    let Some(fate) = fate_at(table) else {
        return Err(out_of_limits(alloc, Section::Link, earlier.len(), KeyName::Fate));
    };
    Ok(LinkRow {
        from: bytes_at_key(alloc, table, KeyName::From)?,
        to: bytes_at_key(alloc, table, KeyName::To)?,
        first,
        every,
        count,
        fate,
    })
}

/// The eviction that the table writes, behind the earlier ones.
pub fn evict_row(alloc: Global, earlier: &[EvictRow], table: &Table) -> Result<EvictRow, FileEnd>
    requires few { length earlier.now < 16 }
    ensures row { IfOk result (λ row. evict_row earlier.now (table_view table.now) ≡ Ok row) }
    ensures refused { IfErr result (IsRefusedBy (evict_row earlier.now (table_view table.now))) }
{
    let Some(after) = within_u32(1, 1_000_000, whole_at(table, KeyName::After, 0)) else {
        return Err(out_of_limits(alloc, Section::Evict, earlier.len(), KeyName::After));
    };
    Ok(EvictRow {
        host: bytes_at_key(alloc, table, KeyName::Host)?,
        after,
    })
}
