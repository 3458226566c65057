ghost use Rattle.std.specs.Prelude.{◌≡◌, IfOk, IfErr, Ok};
ghost use Rattle.cluster_file.specs.Refusals.{IsRefusedBy};
ghost use Rattle.cluster_file.specs.Names.{kernel_named, client_named, program_named, hosted_start, end_named, plan_entry, evict_line, start_line, all_started, plan_entries, evict_lines, start_lines};

use crate::keys::{KeyName, Section};
use crate::places::refused_at;
use crate::refusal::FileEnd;
use crate::rows::{EvictRow, KernelRow, LinkRow, ProgramRow, Rows, StartRow};
use link_plan::PlanEntry;
use sprite_ids::{Bytes, Copying, Items, Kernel};
use std::alloc::Global;
use unix_calls::{EvictLine, StartLine};

/// A start whose host is known.
#[derive(Debug, Drop)]
pub struct Started {
    pub host: Kernel,
    /// The name of its program.
    pub program: Bytes,
    pub arg: u64,
}

/// The starts with their hosts; the first refusal is for a host that is no client's name.
pub fn all_started(alloc: Global, rows: &Rows) -> Result<Items<Started>, FileEnd>
    ensures started { IfOk result (λ starts. all_started rows.now ≡ Ok starts) }
    ensures refused { IfErr result (IsRefusedBy (all_started rows.now)) }
{
    let mut starts: Items<Started> = Items::new(alloc);
    for row in rows.starts.as_slice() {
        let start = hosted_start(alloc, rows.kernels.as_slice(), starts.as_slice(), row)?;
        starts.push(start)?;
    }
    Ok(starts)
}

fn hosted_start(
    alloc: Global,
    kernels: &[KernelRow],
    earlier: &[Started],
    row: &StartRow,
) -> Result<Started, FileEnd>
    ensures started { IfOk result (λ start. hosted_start kernels.now earlier.now row.now ≡ Ok start) }
    ensures refused { IfErr result (IsRefusedBy (hosted_start kernels.now earlier.now row.now)) }
{
    let Some(host) = client_named(row.host.as_slice(), kernels) else {
        return Err(refused_at(alloc, 9, Section::Start, earlier.len() + 1, KeyName::Host));
    };
    Ok(Started {
        host,
        program: row.program.copy(alloc)?,
        arg: row.arg,
    })
}

/// The faults of the link; the first refusal is for an end that is no kernel's name and not `*`.
pub fn plan_entries(alloc: Global, rows: &Rows) -> Result<Items<PlanEntry>, FileEnd>
    ensures entries { IfOk result (λ entries. plan_entries rows.now ≡ Ok entries) }
    ensures refused { IfErr result (IsRefusedBy (plan_entries rows.now)) }
{
    let mut entries: Items<PlanEntry> = Items::new(alloc);
    for row in rows.links.as_slice() {
        let entry = plan_entry(alloc, rows.kernels.as_slice(), entries.as_slice(), row)?;
        entries.push(entry)?;
    }
    Ok(entries)
}

fn plan_entry(
    alloc: Global,
    kernels: &[KernelRow],
    earlier: &[PlanEntry],
    row: &LinkRow,
) -> Result<PlanEntry, FileEnd>
    ensures entry { IfOk result (λ entry. plan_entry kernels.now earlier.now row.now ≡ Ok entry) }
    ensures refused { IfErr result (IsRefusedBy (plan_entry kernels.now earlier.now row.now)) }
{
    let Some(from) = end_named(row.from.as_slice(), kernels) else {
        return Err(refused_at(alloc, 9, Section::Link, earlier.len() + 1, KeyName::From));
    };
    let Some(to) = end_named(row.to.as_slice(), kernels) else {
        return Err(refused_at(alloc, 9, Section::Link, earlier.len() + 1, KeyName::To));
    };
    Ok(PlanEntry {
        from,
        to,
        first: row.first,
        every: row.every,
        count: row.count,
        fate: row.fate,
    })
}

/// The evictions; the first refusal is for a host that is no client's name.
pub fn evict_lines(alloc: Global, rows: &Rows) -> Result<Items<EvictLine>, FileEnd>
    ensures lines { IfOk result (λ lines. evict_lines rows.now ≡ Ok lines) }
    ensures refused { IfErr result (IsRefusedBy (evict_lines rows.now)) }
{
    let mut lines: Items<EvictLine> = Items::new(alloc);
    for row in rows.evicts.as_slice() {
        let line = evict_line(alloc, rows.kernels.as_slice(), lines.as_slice(), row)?;
        lines.push(line)?;
    }
    Ok(lines)
}

fn evict_line(
    alloc: Global,
    kernels: &[KernelRow],
    earlier: &[EvictLine],
    row: &EvictRow,
) -> Result<EvictLine, FileEnd>
    ensures line { IfOk result (λ line. evict_line kernels.now earlier.now row.now ≡ Ok line) }
    ensures refused { IfErr result (IsRefusedBy (evict_line kernels.now earlier.now row.now)) }
{
    let Some(host) = client_named(row.host.as_slice(), kernels) else {
        return Err(refused_at(alloc, 9, Section::Evict, earlier.len() + 1, KeyName::Host));
    };
    Ok(EvictLine {
        host,
        after: row.after,
    })
}

/// The starts with their programs; the first refusal is for a program that isn't there.
pub fn start_lines(
    alloc: Global,
    programs: &[ProgramRow],
    starts: &[Started],
) -> Result<Items<StartLine>, FileEnd>
    ensures lines { IfOk result (λ lines. start_lines programs.now starts.now ≡ Ok lines) }
    ensures refused { IfErr result (IsRefusedBy (start_lines programs.now starts.now)) }
{
    let mut lines: Items<StartLine> = Items::new(alloc);
    for start in starts {
        let line = start_line(alloc, programs, lines.as_slice(), start)?;
        lines.push(line)?;
    }
    Ok(lines)
}

fn start_line(
    alloc: Global,
    programs: &[ProgramRow],
    earlier: &[StartLine],
    start: &Started,
) -> Result<StartLine, FileEnd>
    ensures line { IfOk result (λ line. start_line programs.now earlier.now start.now ≡ Ok line) }
    ensures refused { IfErr result (IsRefusedBy (start_line programs.now earlier.now start.now)) }
{
    let Some(program) = program_named(start.program.as_slice(), programs) else {
        return Err(refused_at(
            alloc,
            12,
            Section::Start,
            earlier.len() + 1,
            KeyName::Program,
        ));
    };
    Ok(StartLine {
        host: start.host,
        program,
        arg: start.arg,
    })
}

/// An end of a fault: any kernel for `*`, or the one of that name; None exactly where the name is none of these.
fn end_named(name: &[u8], kernels: &[KernelRow]) -> Option<Option<Kernel>>
    ensures { result ≡ end_named name.now kernels.now }
{
    if name == b"*".as_slice() {
        return Some(None);
    }
    match kernel_named(name, kernels) {
        Some(kernel) => Some(Some(kernel)),
        None => None,
    }
}

/// The kernel of that name; None exactly where there is none.
fn kernel_named(name: &[u8], rows: &[KernelRow]) -> Option<Kernel>
    ensures { result ≡ kernel_named name.now rows.now }
{
    for row in rows {
        if row.name.as_slice() == name {
            return Some(row.kernel);
        }
    }
    None
}

/// The client of that name; None exactly where there is none.
fn client_named(name: &[u8], rows: &[KernelRow]) -> Option<Kernel>
    ensures { result ≡ client_named name.now rows.now }
{
    for row in rows {
        if row.serves.len() == 0 && row.name.as_slice() == name {
            return Some(row.kernel);
        }
    }
    None
}

/// The number of the program of that name; None exactly where there is none.
fn program_named(name: &[u8], rows: &[ProgramRow]) -> Option<u8>
    ensures { result ≡ program_named name.now rows.now }
{
    for row in rows {
        if row.name.as_slice() == name {
            return Some(row.number);
        }
    }
    None
}
