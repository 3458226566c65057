ghost use Rattle.std.specs.Prelude.{◌≡◌, IfOk, IfErr, Ok, []};
ghost use Rattle.toml.specs.View.{table_view};
ghost use Rattle.cluster_file.specs.Refusals.{refusal, IsRefusedBy};
ghost use Rattle.cluster_file.specs.declared.refusal.FileEnd.TheVariants.{Refused};
ghost use Rattle.cluster_file.specs.Clusters.{with_programs, with_paths, with_hosts, cluster_of, form_fault, described, Describes, GivesRefusal};

use crate::again::{duplicate, no_root};
use crate::fault::{Fault, document_fault};
use crate::file_paths::{file_lines, kernel_lines};
use crate::hosts::{Started, all_started, evict_lines, plan_entries, start_lines};
use crate::program_lines::program_lines;
use crate::refusal::{FileEnd, Refusal};
use crate::row_lists::read_rows;
use crate::rows::Rows;
use link_plan::{Plan, PlanEntry};
use sprite_ids::{Bytes, Items, NoMemory};
use std::alloc::Global;
use toml::Table;
use unix_calls::{Description, EvictLine, FileLine, KernelLine};

/// How many bytes a cluster file may have.
const MOST_BYTES: usize = 1_048_576;

/// The cluster that the bytes of a cluster file describe.
///
/// `Refused` comes exactly where they describe none, with the first refusal: the one of the lowest number, and within a
/// number the one of the first place. Places go from the top to the tables of kernels, programs, starts, files, faults of
/// the link and evictions, each element in order, and in a table by its keys in their order; unknown keys stand in byte
/// order. `NoMemory` is want of memory (this project).
pub fn read_description(alloc: Global, bytes: &[u8]) -> Result<Description, FileEnd>
    ensures described { IfOk result (Describes bytes.now) }
    ensures refused { IfErr result (GivesRefusal bytes.now) }
{
    if bytes.len() > MOST_BYTES {
        return Err(refused(alloc, 1));
    }
    match toml::table_from_slice(alloc, bytes) {
        Ok(document) => describe(alloc, &document),
        Err(error) => {
            if error.is_memory() {
                Err(FileEnd::NoMemory)
            } else {
                Err(refused(alloc, 2))
            }
        }
    }
}

/// A refusal without a place.
fn refused(alloc: Global, number: u8) -> FileEnd
    ensures { result ≡ Refused (refusal number []) }
{
    FileEnd::Refused(Refusal {
        number,
        at: Bytes::new(alloc),
    })
}

/// The cluster that a document describes.
fn describe(alloc: Global, document: &Table) -> Result<Description, FileEnd>
    ensures described { IfOk result (λ c. described (table_view document.now) ≡ Ok c) }
    ensures refused { IfErr result (IsRefusedBy (described (table_view document.now))) }
{
    if let Some(refusal) = form_fault(alloc, document)? {
        return Err(FileEnd::Refused(refusal));
    }
    let rows = read_rows(alloc, document)?;
    cluster_of(alloc, &rows)
}

/// The first refusal of a document for its keys.
fn form_fault(alloc: Global, document: &Table) -> Result<Option<Refusal>, NoMemory>
    ensures { IfOk result (λ r. r ≡ form_fault (table_view document.now)) }
{
    if let Some(refusal) = document_fault(alloc, Fault::UnknownKey, document)? {
        return Ok(Some(refusal));
    }
    if let Some(refusal) = document_fault(alloc, Fault::MissingKey, document)? {
        return Ok(Some(refusal));
    }
    document_fault(alloc, Fault::WrongType, document)
}

/// The cluster of the rows.
fn cluster_of(alloc: Global, rows: &Rows) -> Result<Description, FileEnd>
    ensures described { IfOk result (λ c. cluster_of rows.now ≡ Ok c) }
    ensures refused { IfErr result (IsRefusedBy (cluster_of rows.now)) }
{
    if let Some(refusal) = duplicate(alloc, rows)? {
        return Err(FileEnd::Refused(refusal));
    }
    if let Some(refusal) = no_root(alloc, rows) {
        return Err(FileEnd::Refused(refusal));
    }
    with_hosts(alloc, rows)
}

fn with_hosts(alloc: Global, rows: &Rows) -> Result<Description, FileEnd>
    ensures described { IfOk result (λ c. with_hosts rows.now ≡ Ok c) }
    ensures refused { IfErr result (IsRefusedBy (with_hosts rows.now)) }
{
    let starts = all_started(alloc, rows)?;
    let entries = plan_entries(alloc, rows)?;
    let evicts = evict_lines(alloc, rows)?;
    with_paths(alloc, rows, &starts, entries, evicts)
}

fn with_paths(
    alloc: Global,
    rows: &Rows,
    starts: &Items<Started>,
    entries: Items<PlanEntry>,
    evicts: Items<EvictLine>,
) -> Result<Description, FileEnd>
    ensures described { IfOk result (λ c. with_paths rows.now starts.now entries evicts ≡ Ok c) }
    ensures refused { IfErr result (IsRefusedBy (with_paths rows.now starts.now entries evicts)) }
{
    let kernels = kernel_lines(alloc, rows.kernels.as_slice())?;
    let files = file_lines(alloc, kernels.as_slice(), rows.files.as_slice())?;
    with_programs(alloc, rows, starts, entries, evicts, kernels, files)
}

fn with_programs(
    alloc: Global,
    rows: &Rows,
    starts: &Items<Started>,
    entries: Items<PlanEntry>,
    evicts: Items<EvictLine>,
    kernels: Items<KernelLine>,
    files: Items<FileLine>,
) -> Result<Description, FileEnd>
    ensures described { IfOk result (λ c. with_programs rows.now starts.now entries evicts kernels files ≡ Ok c) }
    ensures refused { IfErr result (IsRefusedBy (with_programs rows.now starts.now entries evicts kernels files)) }
{
    let programs = program_lines(alloc, rows.version, rows.programs.as_slice())?;
    let lines = start_lines(alloc, rows.programs.as_slice(), starts.as_slice())?;
    Ok(Description {
        version: rows.version,
        budget: rows.budget,
        cache: rows.cache,
        kernels,
        programs,
        starts: lines,
        files,
        plan: Plan { entries },
        evicts,
    })
}
