ghost use Rattle.std.specs.Prelude.{◌≡◌, IfOk, []};
ghost use Rattle.std.specs.List.{list_any};
ghost use Rattle.cluster_file.specs.Names.{is_kernel, is_program, is_one_of, is_served, serves_again, kernel_again, program_again, first_again, duplicate, no_root};

use crate::keys::Section;
use crate::places::element_place;
use crate::refusal::Refusal;
use crate::rows::{KernelRow, ProgramRow, Rows};
use sprite_ids::{Bytes, NoMemory};
use std::alloc::Global;

/// The refusal for a name or a domain that stands twice.
pub fn duplicate(alloc: Global, rows: &Rows) -> Result<Option<Refusal>, NoMemory>
    ensures { IfOk result (λ r. r ≡ duplicate rows.now) }
{
    if let Some(number) = kernel_twice(rows.kernels.as_slice()) {
        let at = element_place(alloc, Section::Kernel, number)?;
        return Ok(Some(Refusal { number: 7, at }));
    }
    if let Some(number) = program_twice(rows.programs.as_slice()) {
        let at = element_place(alloc, Section::Program, number)?;
        return Ok(Some(Refusal { number: 7, at }));
    }
    Ok(None)
}

/// The refusal where no kernel serves `/`.
pub fn no_root(alloc: Global, rows: &Rows) -> Option<Refusal>
    ensures { result ≡ no_root rows.now }
{
    if is_served(b"/", rows.kernels.as_slice()) {
        None
    } else {
        Some(Refusal {
            number: 8,
            at: Bytes::new(alloc),
        })
    }
}

/// The number of the first kernel with an earlier one's name, or with a path that stands earlier.
fn kernel_twice(rows: &[KernelRow]) -> Option<usize>
    ensures { result ≡ first_again kernel_again [] rows.now }
{
    for place in 0..rows.len() {
        if kernel_again(&rows[..place], &rows[place]) {
            return Some(place + 1);
        }
    }
    None
}

/// The number of the first program with an earlier one's name.
fn program_twice(rows: &[ProgramRow]) -> Option<usize>
    ensures { result ≡ first_again program_again [] rows.now }
{
    for place in 0..rows.len() {
        if is_program(rows[place].name.as_slice(), &rows[..place]) {
            return Some(place + 1);
        }
    }
    None
}

fn kernel_again(earlier: &[KernelRow], row: &KernelRow) -> bool
    ensures { result ≡ kernel_again earlier.now row.now }
{
    is_kernel(row.name.as_slice(), earlier) || serves_again(earlier, row.serves.as_slice())
}

/// Whether one of the paths stands twice, or is served by one of the kernels.
fn serves_again(earlier: &[KernelRow], paths: &[Bytes]) -> bool
    ensures { result ≡ serves_again earlier.now paths.now }
{
    for place in 0..paths.len() {
        let path = paths[place].as_slice();
        if is_served(path, earlier) || is_one_of(path, &paths[place + 1..]) {
            return true;
        }
    }
    false
}

/// Whether one of the kernels has the name.
fn is_kernel(name: &[u8], rows: &[KernelRow]) -> bool
    ensures { result ≡ is_kernel name.now rows.now }
{
    for row in rows {
        if row.name.as_slice() == name {
            return true;
        }
    }
    false
}

/// Whether one of the programs has the name.
fn is_program(name: &[u8], rows: &[ProgramRow]) -> bool
    ensures { result ≡ is_program name.now rows.now }
{
    for row in rows {
        if row.name.as_slice() == name {
            return true;
        }
    }
    false
}

/// Whether one of the kernels serves the path, as it is spelled.
fn is_served(path: &[u8], rows: &[KernelRow]) -> bool
    ensures { result ≡ is_served path.now rows.now }
{
    for row in rows {
        if is_one_of(path, row.serves.as_slice()) {
            return true;
        }
    }
    false
}

/// Whether one of the texts is this one.
fn is_one_of(text: &[u8], texts: &[Bytes]) -> bool
    ensures { result ≡ is_one_of text.now texts.now }
{
    for other in texts {
        if other.as_slice() == text {
            return true;
        }
    }
    false
}
