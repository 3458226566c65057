ghost use Rattle.std.specs.Prelude.{◌≡◌, ◌++◌, IfOk, count_by};
ghost use Rattle.unix_calls.specs.Output.{last_line};
ghost use Rattle.report_print.specs.Summaries.{console_bytes, is_exit_0, summary_text, tally_of};

use crate::consoles::push_decimal;
use crate::printing::last_line;
use sprite_ids::{Ending, Finish, NoMemory};
use std::alloc::Global;
use unix_calls::Process;

/// What the processes of a run came to (this project).
#[derive(Clone, Copy, Debug, PartialEq, Eq)]
pub struct Tally {
    /// How many there are.
    pub processes: u64,
    /// How many of them have ended with code 0.
    pub exited: u64,
    /// How many bytes they printed.
    pub console: u64,
}

/// What these processes came to (this project). Want of memory is the answer where they printed 2^64 bytes or more, which no memory
/// holds.
pub fn tally_of(processes: &[Process]) -> Result<Tally, NoMemory>
    ensures { IfOk result (λ tally. tally ≡ tally_of processes.now) }
{
    let console = console_bytes(processes)?;
    Ok(Tally {
        processes: processes.len() as u64,
        exited: exited(processes) as u64,
        console,
    })
}

// How many of them have ended with code 0.
fn exited(processes: &[Process]) -> usize
    ensures { result ≡ count_by (λ p. is_exit_0 p.ending) processes.now }
{
    processes
        .iter()
        .filter(|process| is_exit_0(&process.ending))
        .count()
}

// Whether a process has ended with code 0.
fn is_exit_0(ending: &Option<Ending>) -> bool
    ensures { result ≡ is_exit_0 ending.now }
{
    match ending {
        Some(Ending::Exit(code)) => *code == 0,
        Some(Ending::Bad | Ending::Killed) | None => false,
    }
}

// How many bytes they printed. Want of memory is the answer where these are 2^64 or more.
fn console_bytes(processes: &[Process]) -> Result<u64, NoMemory>
    ensures { IfOk result (λ count. count ≡ console_bytes processes.now) }
{
    match processes {
        [] => Ok(0),
        [process, rest @ ..] => {
            let behind = console_bytes(rest)?;
            behind
                .checked_add(process.console.len() as u64)
                .ok_or(NoMemory)
        }
    }
}

/// What is printed of a workload of that many processes that came to that, and why the run stopped where a process lives (this
/// project). The one error is want of memory.
pub fn summary(alloc: Global, count: u8, tally: Tally, finish: Finish) -> Result<Vec<u8>, NoMemory>
    ensures { IfOk result (λ out. out.items ≡ summary_text count tally ++ last_line finish) }
{
    let mut out = Vec::from_slice(alloc, b"load ")?;
    push_decimal(alloc, &mut out, u64::from(count))?;
    out.extend_from_slice(b"\nprocesses ")?;
    push_decimal(alloc, &mut out, tally.processes)?;
    out.extend_from_slice(b"\nexited ")?;
    push_decimal(alloc, &mut out, tally.exited)?;
    out.extend_from_slice(b"\nconsole ")?;
    push_decimal(alloc, &mut out, tally.console)?;
    out.push(b'\n')?;
    out.extend_from_slice(last_line(finish))?;
    Ok(out)
}
