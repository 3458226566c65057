ghost use Rattle.std.specs.Prelude.{◌≡◌, ◌≤◌, ◌+◌, ◌<◌, ◌++◌, IfOk, OnOk};
ghost use Rattle.workload_maker.specs.Workloads.{begin_text, client_text, program_text, worker_text, workload_text};

use crate::part::{Part, text_of};
use sprite_ids::NoMemory;
use std::alloc::Global;

/// The cluster file of the workload of 1 to 64 processes: on four clients, by turns, each writes sixteen blocks of a file of its own,
/// moves to the next client, reads them all and prints a line (this project). The one error is want of memory.
pub fn workload_text(alloc: Global, count: u8) -> Result<Vec<u8>, NoMemory>
    requires { count ≤ 64 }
    ensures { IfOk result (λ text. text.items ≡ workload_text count) }
{
    let mut text = Vec::from_slice(alloc, text_of(Part::Kernels))?;
    for before in 0..count {
        push_worker(alloc, &mut text, before)?;
    }
    Ok(text)
}

// Puts the process behind so many others, with its program.
fn push_worker(alloc: Global, text: &mut Vec<u8>, before: u8) -> Result<(), NoMemory>
    requires { before < 64 }
    ensures { OnOk result (text.new.items ≡ text.old.items ++ worker_text (before + 1)) }
{
    let digits = format!(in alloc; "{}", before + 1)?;
    push_begin(alloc, text, before + 1, digits.as_bytes())?;
    push_program(alloc, text, before + 1, digits.as_bytes())
}

// Puts where the process of that number begins.
fn push_begin(alloc: Global, text: &mut Vec<u8>, number: u8, digits: &[u8]) -> Result<(), NoMemory>
    requires { 1 ≤ number }
    ensures { OnOk result (text.new.items ≡ text.old.items ++ begin_text number digits.now) }
{
    text.extend_from_slice(text_of(Part::Host))?;
    push_client(alloc, text, number - 1)?;
    text.extend_from_slice(text_of(Part::Program))?;
    text.extend_from_slice(digits)?;
    text.extend_from_slice(text_of(Part::Name))?;
    text.extend_from_slice(digits)?;
    Ok(())
}

// Puts its program.
fn push_program(
    alloc: Global,
    text: &mut Vec<u8>,
    number: u8,
    digits: &[u8],
) -> Result<(), NoMemory>
    ensures { OnOk result (text.new.items ≡ text.old.items ++ program_text number digits.now) }
{
    let length = format!(in alloc; "{}", digits.len() + 2)?;
    text.extend_from_slice(text_of(Part::Path))?;
    text.extend_from_slice(digits)?;
    text.extend_from_slice(text_of(Part::Target))?;
    push_client(alloc, text, number)?;
    text.extend_from_slice(text_of(Part::Length))?;
    text.extend_from_slice(length.as_bytes())?;
    text.extend_from_slice(text_of(Part::Work))?;
    Ok(())
}

// Puts the number of the client whose turn it is.
fn push_client(alloc: Global, text: &mut Vec<u8>, turn: u8) -> Result<(), NoMemory>
    ensures { OnOk result (text.new.items ≡ text.old.items ++ client_text turn) }
{
    let digit = format!(in alloc; "{}", turn % 4 + 1)?;
    text.extend_from_slice(digit.as_bytes())?;
    Ok(())
}
