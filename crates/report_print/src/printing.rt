ghost use Rattle.std.specs.Prelude.{◌≡◌, ◌++◌, IfOk, OnOk};
ghost use Rattle.std.specs.List.{flat_map};
ghost use Rattle.unix_calls.specs.Output.{process_text, process_line, ending_text, last_line, program_name};
ghost use Rattle.unix_calls.specs.ProcessCalls.{kernel_name};

use crate::consoles::{push_console, push_decimal};
use sprite_ids::{Ending, Finish, Kernel, NoMemory};
use std::alloc::Global;
use unix_calls::{Description, KernelLine, Process, ProgramLine};

/// What is printed about a run: its processes, by ascending number as they come, each with its console, and why it stopped where one
/// lives (this project). The one error is want of memory.
pub fn output(
    alloc: Global,
    description: &Description,
    processes: &[Process],
    finish: Finish,
) -> Result<Vec<u8>, NoMemory>
    ensures { IfOk result (λ out. out.items ≡ flat_map (process_text description.now) processes.now ++ last_line finish) }
{
    let mut out = Vec::new(alloc);
    for process in processes {
        push_process(alloc, &mut out, description, process)?;
    }
    out.extend_from_slice(last_line(finish))?;
    Ok(out)
}

/// The line that says why a run stopped where a process lives; empty where none does (this project).
pub fn last_line(finish: Finish) -> &'static [u8]
    ensures { result.now ≡ last_line finish }
{
    match finish {
        Finish::Budget => b"budget\n",
        Finish::Stalled => b"stalled\n",
        Finish::AllEnded | Finish::OutOfMemory | Finish::Running => b"",
    }
}

// Puts the line about a process, and its console.
fn push_process(
    alloc: Global,
    out: &mut Vec<u8>,
    description: &Description,
    process: &Process,
) -> Result<(), NoMemory>
    ensures { OnOk result (out.new.items ≡ out.old.items ++ process_text description.now process.now) }
{
    let program = program_name(
        description.programs.as_slice(),
        process.image.program_number(),
    );
    let home = kernel_name(description.kernels.as_slice(), process.pid.home());
    push_process_line(
        alloc,
        out,
        process.pid.number(),
        program,
        home,
        &process.ending,
    )?;
    push_console(out, process.console.as_slice())
}

// The name of the program of that number; none where there is no such program.
fn program_name(programs: &[ProgramLine], number: u8) -> &[u8]
    ensures { result.now ≡ program_name programs.now number }
{
    let place = usize::from(number);
    if place == 0 || place > programs.len() {
        return &[];
    }
    programs[place - 1].name.as_slice()
}

// The name of the kernel; none where there is no such kernel.
fn kernel_name(kernels: &[KernelLine], home: Kernel) -> &[u8]
    ensures { result.now ≡ kernel_name kernels.now home }
{
    let place = usize::from(home.number()) - 1;
    if place < kernels.len() {
        return kernels[place].name.as_slice();
    }
    &[]
}

// Puts the line about a process.
fn push_process_line(
    alloc: Global,
    out: &mut Vec<u8>,
    pid: u32,
    name: &[u8],
    home: &[u8],
    ending: &Option<Ending>,
) -> Result<(), NoMemory>
    ensures { OnOk result (out.new.items ≡ out.old.items ++ process_line pid name.now home.now (ending_text ending.now)) }
{
    out.extend_from_slice(b"pid ")?;
    push_decimal(alloc, out, u64::from(pid))?;
    out.push(b' ')?;
    out.extend_from_slice(name)?;
    out.push(b' ')?;
    out.extend_from_slice(home)?;
    out.push(b' ')?;
    push_ending(alloc, out, ending)?;
    out.push(b'\n')?;
    Ok(())
}

// Puts how a process ended.
fn push_ending(alloc: Global, out: &mut Vec<u8>, ending: &Option<Ending>) -> Result<(), NoMemory>
    ensures { OnOk result (out.new.items ≡ out.old.items ++ ending_text ending.now) }
{
    match ending {
        None => out.extend_from_slice(b"live")?,
        Some(Ending::Bad) => out.extend_from_slice(b"bad")?,
        Some(Ending::Killed) => out.extend_from_slice(b"killed")?,
        Some(Ending::Exit(code)) => {
            out.extend_from_slice(b"exit ")?;
            push_decimal(alloc, out, u64::from(*code))?;
        }
    }
    Ok(())
}
