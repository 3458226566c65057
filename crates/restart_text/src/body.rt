ghost use Rattle.std.specs.Prelude.{◌≡◌, ◌≤◌, IfOk, IfErr, Ok, length};
ghost use Rattle.text_lines.specs.Lines.{lines_of};
ghost use Rattle.text_rows.specs.Rows.{IsBadAt};
ghost use Rattle.restart_text.specs.FileTexts.{file_text, played_text, new_file, steps_read, TellsLine};

use crate::line::{file_of, step_of};
use crate::printing::{outcomes_text, put_end};
use restart_views::RestartStep;
use server_restart::Restartable;
use sprite_ids::{Bytes, NoMemory};
use std::alloc::Global;
use text_lines::first_line;
use text_rows::LineError;

/// What comes of the steps of a text on one file whose server may stop (this project).
///
/// The first line is `file KERNELS "BYTES"`, with 1 to 15 kernels and the first bytes, at most 262,144, in the escapes of a history. Each
/// other one is `open K S MODE`, MODE being read, write or both, with ` trunc` at will for the last two, `close K S`, `read K S FROM LEN`,
/// `write K S FROM "BYTES"`, `append K S "BYTES"`, `back K BLOCK`, `deliver C`, `expire C`, `settle`, `stop` or `claim K`, with K from 1 to
/// KERNELS, S and C from 1 to 2,000,000,000, FROM and a write's end at most 262,144, LEN and a write's or append's bytes at most 16,384,
/// and BLOCK at most 63. Stream S of kernel K is the one of that number that K opens. The answer has a line `claim K granted V` or
/// `claim K refused OWN SERVER` for each claim that is heard and a line `read K "BYTES"` for each reading that took effect, in order, and
/// last `end version V size N "BYTES"` of the server. `Line` tells the first line, counted from 1, that isn't of its form.
pub fn file_text(alloc: Global, text: &[u8]) -> Result<Vec<u8>, LineError>
    ensures ok { IfOk result (λ told. file_text text.now ≡ Ok told.items) }
    ensures err { IfErr result (TellsLine text.now) }
{
    if text.is_empty() {
        return Err(LineError::Line(1));
    }
    let (first, rest) = first_line(text);
    let Some((kernels, bytes)) = file_of(alloc, first)? else {
        return Err(LineError::Line(1));
    };
    let steps = read_steps(alloc, kernels, rest)?;
    let told = played_text(alloc, kernels, bytes, steps.as_slice())?;
    Ok(told)
}

// What comes of the steps on a new file.
fn played_text(
    alloc: Global,
    kernels: u8,
    bytes: Bytes,
    steps: &[RestartStep],
) -> Result<Vec<u8>, NoMemory>
    requires clients { (1 ≤ kernels) × (kernels ≤ 15) }
    requires size { length bytes ≤ 262144 }
    ensures { IfOk result (λ told. told.items ≡ played_text (new_file kernels bytes) steps.now) }
{
    let mut file = Restartable::new(alloc, kernels, bytes)?;
    tell_played(alloc, &mut file, steps)
}

// What comes of the steps, and then what the server has.
fn tell_played(
    alloc: Global,
    file: &mut Restartable,
    steps: &[RestartStep],
) -> Result<Vec<u8>, NoMemory>
    ensures { IfOk result (λ told. told.items ≡ played_text file.old steps.now) }
{
    let outcomes = file.play(alloc, steps)?;
    let mut told = outcomes_text(alloc, outcomes.as_slice())?;
    put_end(alloc, &mut told, file.view())?;
    Ok(told)
}

// The steps of the lines behind the first.
fn read_steps(alloc: Global, kernels: u8, text: &[u8]) -> Result<Vec<RestartStep>, LineError>
    requires { kernels ≤ 15 }
    ensures ok { IfOk result (λ steps. steps_read kernels 2 (lines_of text.now) ≡ Ok steps.items) }
    ensures err { IfErr result (IsBadAt (steps_read kernels 2 (lines_of text.now))) }
{
    let mut steps = Vec::new(alloc);
    let mut rest = text;
    let mut number: u32 = 2;
    while !rest.is_empty() {
        let (line, behind) = first_line(rest);
        let Some(step) = step_of(alloc, kernels, number, line)? else {
            return Err(LineError::Line(number as usize));
        };
        steps.push(step)?;
        let Some(next) = number.checked_add(1) else {
            return Err(LineError::NoMemory);
        };
        number = next;
        rest = behind;
    }
    Ok(steps)
}
