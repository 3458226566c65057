ghost use Rattle.std.specs.Prelude.{◌≡◌, IfOk, IfErr, IfSome, ◌≤◌, Ok, map};
ghost use Rattle.toml.specs.View.{view, table_view};
ghost use Rattle.cluster_file.specs.Refusals.{IsRefusedBy, IsAtTop};
ghost use Rattle.cluster_file.specs.Rows.{most_of, rows_in, least_of, has_count, miscounted, key_order, all_rows, counted_rows, cache_of, read_rows, kernel_row, program_row, start_row, file_row, link_row, evict_row};
ghost use Rattle.cluster_file.specs.declared.keys.Section.TheVariants as section;

use crate::keys::{KeyName, Section};
use crate::places::refusal_at_top;
use crate::refusal::{FileEnd, Refusal};
use crate::rows::{EvictRow, FileRow, KernelRow, LinkRow, ProgramRow, Rows, StartRow};
use crate::single_rows::{evict_row, file_row, kernel_row, link_row, program_row, start_row};
use crate::tables::{elements_at, whole_at, within, within_u32};
use sprite_ids::{Items, NoMemory};
use std::alloc::Global;
use toml::{Table, Value};

/// The sections in the order of their keys at the top.
const KEY_ORDER: [Section; 6] = [
    Section::Kernel,
    Section::Program,
    Section::Start,
    Section::Link,
    Section::File,
    Section::Evict,
];

/// The rows of a document: its first refusal is for a number or a count out of limits, or for a name or a fate that is
/// none. The types of its values are known to be right.
pub fn read_rows(alloc: Global, document: &Table) -> Result<Rows, FileEnd>
    ensures rows { IfOk result (λ rows. read_rows (table_view document.now) ≡ Ok rows) }
    ensures refused { IfErr result (IsRefusedBy (read_rows (table_view document.now))) }
{
    let Some(version) = within_u32(1, 2, whole_at(document, KeyName::Version, 0)) else {
        return Err(out_of_limits(alloc, KeyName::Version));
    };
    let Some(budget) = within_u32(1, 4_000_000, whole_at(document, KeyName::Budget, 1_000_000))
    else {
        return Err(out_of_limits(alloc, KeyName::Budget));
    };
    let Some(cache) = cache_of(within_u32(0, 4096, whole_at(document, KeyName::Cache, 64))) else {
        return Err(out_of_limits(alloc, KeyName::Cache));
    };
    if let Some(refusal) = miscounted(alloc, document, &KEY_ORDER)? {
        return Err(FileEnd::Refused(refusal));
    }
    all_rows(alloc, document, version as u8, budget, cache)
}

/// The refusal for a value out of limits at the top, or want of memory.
fn out_of_limits(alloc: Global, key: KeyName) -> FileEnd
    ensures { IsAtTop 6 key result }
{
    match refusal_at_top(alloc, 6, key) {
        Ok(refusal) => FileEnd::Refused(refusal),
        Err(NoMemory) => FileEnd::NoMemory,
    }
}

/// 0 cached blocks, or 8 to 4,096.
fn cache_of(number: Option<u32>) -> Option<u16>
    requires { IfSome number (λ n. n ≤ 4096) }
    ensures { result ≡ cache_of number }
{
    let number = number?;
    if number == 0 || 8 <= number {
        Some(number as u16)
    } else {
        None
    }
}

/// How many elements a section has at least.
fn least_of(section: Section) -> usize
    ensures { result ≡ least_of section }
{
    match section {
        Section::Kernel => 1,
        _ => 0,
    }
}

/// How many elements a section has at most.
fn most_of(section: Section) -> usize
    ensures { result ≡ most_of section }
{
    match section {
        Section::Kernel => 16,
        Section::Program => 64,
        Section::Start => 64,
        Section::File => 200,
        Section::Link => 64,
        Section::Evict => 16,
    }
}

/// Whether a section has as many elements as it may have.
fn has_count(document: &Table, section: Section) -> bool
    ensures { result ≡ has_count (table_view document.now) section }
{
    let count = elements_at(document, section.key()).len();
    least_of(section) <= count && count <= most_of(section)
}

/// The refusal of the first section that has not as many elements as it may have.
fn miscounted(
    alloc: Global,
    document: &Table,
    sections: &[Section],
) -> Result<Option<Refusal>, NoMemory>
    ensures { IfOk result (λ r. r ≡ miscounted (table_view document.now) sections.now) }
{
    for section in sections {
        if !has_count(document, *section) {
            return Ok(Some(refusal_at_top(alloc, 6, section.key())?));
        }
    }
    Ok(None)
}

/// All rows, once the numbers at the top are known.
fn all_rows(
    alloc: Global,
    document: &Table,
    version: u8,
    budget: u32,
    cache: u16,
) -> Result<Rows, FileEnd>
    ensures rows { IfOk result (λ rows. all_rows (table_view document.now) version budget cache ≡ Ok rows) }
    ensures refused { IfErr result (IsRefusedBy (all_rows (table_view document.now) version budget cache)) }
{
    Ok(Rows {
        version,
        budget,
        cache,
        kernels: kernel_rows(alloc, elements_at(document, KeyName::Kernel))?,
        programs: program_rows(alloc, elements_at(document, KeyName::Program))?,
        starts: start_rows(alloc, elements_at(document, KeyName::Start))?,
        files: file_rows(alloc, version, elements_at(document, KeyName::File))?,
        links: link_rows(alloc, elements_at(document, KeyName::Link))?,
        evicts: evict_rows(alloc, elements_at(document, KeyName::Evict))?,
    })
}

/// The rows of the kernels.
fn kernel_rows(alloc: Global, elements: &[Value]) -> Result<Items<KernelRow>, FileEnd>
    ensures rows { IfOk result (λ rows. rows_in section.Kernel kernel_row (map view elements.now) ≡ Ok rows) }
    ensures refused { IfErr result (IsRefusedBy (rows_in section.Kernel kernel_row (map view elements.now))) }
{
    let mut rows: Items<KernelRow> = Items::new(alloc);
    for element in elements {
        if let Some(table) = element.as_table() {
            if rows.len() >= 16 {
                return Err(out_of_limits(alloc, KeyName::Kernel));
            }
            let row = kernel_row(alloc, rows.as_slice(), table)?;
            rows.push(row)?;
        }
    }
    Ok(rows)
}

/// The rows of the programs.
fn program_rows(alloc: Global, elements: &[Value]) -> Result<Items<ProgramRow>, FileEnd>
    ensures rows { IfOk result (λ rows. rows_in section.Program program_row (map view elements.now) ≡ Ok rows) }
    ensures refused { IfErr result (IsRefusedBy (rows_in section.Program program_row (map view elements.now))) }
{
    let mut rows: Items<ProgramRow> = Items::new(alloc);
    for element in elements {
        if let Some(table) = element.as_table() {
            if rows.len() >= 64 {
                return Err(out_of_limits(alloc, KeyName::Program));
            }
            let row = program_row(alloc, rows.as_slice(), table)?;
            rows.push(row)?;
        }
    }
    Ok(rows)
}

/// The rows of the starts.
fn start_rows(alloc: Global, elements: &[Value]) -> Result<Items<StartRow>, FileEnd>
    ensures rows { IfOk result (λ rows. rows_in section.Start start_row (map view elements.now) ≡ Ok rows) }
    ensures refused { IfErr result (IsRefusedBy (rows_in section.Start start_row (map view elements.now))) }
{
    let mut rows: Items<StartRow> = Items::new(alloc);
    for element in elements {
        if let Some(table) = element.as_table() {
            if rows.len() >= 64 {
                return Err(out_of_limits(alloc, KeyName::Start));
            }
            let row = start_row(alloc, rows.as_slice(), table)?;
            rows.push(row)?;
        }
    }
    Ok(rows)
}

/// The rows of the files.
fn file_rows(alloc: Global, version: u8, elements: &[Value]) -> Result<Items<FileRow>, FileEnd>
    ensures rows { IfOk result (λ rows. rows_in section.File (file_row version) (map view elements.now) ≡ Ok rows) }
    ensures refused { IfErr result (IsRefusedBy (rows_in section.File (file_row version) (map view elements.now))) }
{
    let mut rows: Items<FileRow> = Items::new(alloc);
    for element in elements {
        if let Some(table) = element.as_table() {
            if rows.len() >= 200 {
                return Err(out_of_limits(alloc, KeyName::File));
            }
            let row = file_row(alloc, version, rows.as_slice(), table)?;
            rows.push(row)?;
        }
    }
    Ok(rows)
}

/// The rows of the faults of the link.
fn link_rows(alloc: Global, elements: &[Value]) -> Result<Items<LinkRow>, FileEnd>
    ensures rows { IfOk result (λ rows. rows_in section.Link link_row (map view elements.now) ≡ Ok rows) }
    ensures refused { IfErr result (IsRefusedBy (rows_in section.Link link_row (map view elements.now))) }
{
    let mut rows: Items<LinkRow> = Items::new(alloc);
    for element in elements {
        if let Some(table) = element.as_table() {
            if rows.len() >= 64 {
                return Err(out_of_limits(alloc, KeyName::Link));
            }
            let row = link_row(alloc, rows.as_slice(), table)?;
            rows.push(row)?;
        }
    }
    Ok(rows)
}

/// The rows of the evicts.
fn evict_rows(alloc: Global, elements: &[Value]) -> Result<Items<EvictRow>, FileEnd>
    ensures rows { IfOk result (λ rows. rows_in section.Evict evict_row (map view elements.now) ≡ Ok rows) }
    ensures refused { IfErr result (IsRefusedBy (rows_in section.Evict evict_row (map view elements.now))) }
{
    let mut rows: Items<EvictRow> = Items::new(alloc);
    for element in elements {
        if let Some(table) = element.as_table() {
            if rows.len() >= 16 {
                return Err(out_of_limits(alloc, KeyName::Evict));
            }
            let row = evict_row(alloc, rows.as_slice(), table)?;
            rows.push(row)?;
        }
    }
    Ok(rows)
}
