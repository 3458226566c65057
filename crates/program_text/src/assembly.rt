ghost use Rattle.std.specs.Prelude.{◌≡◌, ◌≤◌, IfOk, IfErr, Ok, Some, length, map};
ghost use Rattle.program_text.specs.Facts.{IsWithinLimits, TellsFirst};
ghost use Rattle.program_text.specs.Names.{has};
ghost use Rattle.program_text.specs.Readings.{judged, unread};
ghost use Rattle.text_lines.specs.Lines.{lines_of};
ghost use Rattle.program_text.specs.Programs.{line_number, aimed, jump_to, verdict, program_of, program_by, IsBadAt};

use super::label::defined_in;
use super::line::read_line;
use super::names::{Names, Places};
use super::reading::{Reading, add_line};
use super::step::{Jump, Step};
use process_machine::{Code, Instruction, PageCount, Program};
use sprite_ids::{Items, NoMemory};
use std::alloc::Global;
use text_lines::first_line;
use thiserror::Error;

/// Why a text gave no program.
#[derive(Clone, Copy, Debug, PartialEq, Eq, Error)]
pub enum AsmEnd {
    /// The text is no program, and this is its first bad line, counted from 1. A line past number 4,294,967,295 counts
    /// as that one.
    #[error("line {0} is bad")]
    Line(u32),
    #[error("out of memory")]
    NoMemory,
}

impl From<NoMemory> for AsmEnd {
    ghost use Rattle.std.specs.Prelude.{◌≡◌};
    ghost use Rattle.program_text.specs.declared.assembly.AsmEnd.TheVariants as end;

    ghost from_gives = { λ _ e. e ≡ end.NoMemory };

    fn from(_error: NoMemory) -> AsmEnd {
        AsmEnd::NoMemory
    }
}

/// The program that the text writes (this project). `version` is that of the cluster file, 1 or 2.
///
/// Lines end with byte 10; a last line without it counts. Words are separated by spaces. A line is
/// - blank, or a comment, which begins with `#`;
/// - a label `name:` of 1 to 16 bytes of `a` to `z`, `0` to `9` and `_`, which begins with a letter, is no register's
///   name and is defined once; it may be used before;
/// - `pages N`, 1 to 8, once at most and before all texts; else the program has one page;
/// - `text N "bytes"`, bytes from the address N on, inside the pages; in the quotes stand bytes 32 to 126, and `\n`, `\\`
///   and `\"` for byte 10, a backslash and a quote; at most 64 of them;
/// - or an instruction, at most 512 of them. Numbers are decimal and below 2^64; `sys rexec` is one from version 2 on.
///
/// A line that uses a label which no line defines is bad. The error `Line` comes exactly where the text is no program,
/// with the first bad line; `NoMemory` is want of memory. The program's number is 1.
#[tactic(auto, using(crate::proofs::FirstLaws::tells_first))]
pub fn assemble(alloc: Global, text: &str, version: u8) -> Result<Program, AsmEnd>
    ensures program { IfOk result (λ program. program_of version text.now ≡ Ok program) }
    ensures bad { IfErr result (IsBadAt (program_of version text.now)) }
    ensures limits { IfOk result IsWithinLimits }
    ensures first { IfErr result (TellsFirst version text.now) }
{
    let reading = read_text(alloc, version, text.as_bytes())?;
    Ok(finish(alloc, reading)?)
}

/// All lines of the text, of which each label that is used must be one that a line defines.
fn read_text(alloc: Global, version: u8, text: &[u8]) -> Result<Reading, AsmEnd>
    ensures reading { IfOk result (λ reading. verdict version text.now ≡ Ok reading) }
    ensures bad { IfErr result (IsBadAt (verdict version text.now)) }
    ensures most { IfOk result (λ reading. length reading.steps ≤ 512) }
{
    let defined = defined_in(alloc, text)?;
    read_lines(alloc, version, text, &defined)
}

/// All lines of the text, where `defined` are its labels.
fn read_lines(alloc: Global, version: u8, text: &[u8], defined: &Names) -> Result<Reading, AsmEnd>
    ensures reading { IfOk result (λ reading. judged version (has defined.now) 0 (Some unread) (lines_of text.now) ≡ Ok reading) }
    ensures bad { IfErr result (IsBadAt (judged version (has defined.now) 0 (Some unread) (lines_of text.now))) }
    ensures most { IfOk result (λ reading. length reading.steps ≤ 512) }
{
    let mut reading = Reading {
        pages: None,
        texts: Items::new(alloc),
        steps: Items::new(alloc),
        labels: Places::new(alloc),
    };
    let mut rest = text;
    let mut count = 0usize;
    while !rest.is_empty() {
        let (bytes, behind) = first_line(rest);
        count += 1;
        let Some(line) = read_line(alloc, version, bytes)? else {
            return Err(AsmEnd::Line(line_number(count)));
        };
        let Some(longer) = add_line(reading, line, defined)? else {
            return Err(AsmEnd::Line(line_number(count)));
        };
        reading = longer;
        rest = behind;
    }
    Ok(reading)
}

/// The number of a line as the error gives it.
fn line_number(count: usize) -> u32
    ensures { result ≡ line_number count }
{
    u32::try_from(count).unwrap_or(u32::MAX)
}

/// The program of all lines.
fn finish(alloc: Global, reading: Reading) -> Result<Program, NoMemory>
    requires { length reading.steps ≤ 512 }
    ensures { IfOk result (λ program. program ≡ program_by reading) }
{
    let code = code_of(alloc, reading.steps.as_slice(), &reading.labels)?;
    Ok(Program {
        number: 1,
        pages: reading.pages.unwrap_or(PageCount::new(1).unwrap()),
        texts: reading.texts,
        code,
    })
}

/// The instructions, each jump to its label's place.
fn code_of(alloc: Global, steps: &[Step], labels: &Places) -> Result<Code, NoMemory>
    requires { length steps.now ≤ 512 }
    ensures { IfOk result (λ code. code ≡ map (aimed labels.now) steps.now) }
{
    let mut code = Code::new(alloc);
    for step in steps {
        code.push(aimed(step, labels))?;
    }
    Ok(code)
}

/// The instruction of a step.
fn aimed(step: &Step, labels: &Places) -> Instruction
    ensures { result ≡ aimed labels.now step.now }
{
    match step {
        Step::Plain(instruction) => *instruction,
        Step::ToLabel { jump, label } => jump_to(*jump, labels.place_of(label).unwrap_or(0)),
    }
}

/// The jump to a place.
fn jump_to(jump: Jump, place: u16) -> Instruction
    ensures { result ≡ jump_to jump place }
{
    match jump {
        Jump::Always => Instruction::Jmp(place),
        Jump::Equal(first, second) => Instruction::Jeq(first, second, place),
        Jump::Different(first, second) => Instruction::Jne(first, second, place),
        Jump::Less(first, second) => Instruction::Jlt(first, second, place),
    }
}
