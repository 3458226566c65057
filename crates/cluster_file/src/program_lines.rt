ghost use Rattle.std.specs.Prelude.{◌≡◌, IfOk, IfErr, Ok};
ghost use Rattle.program_text.specs.Programs.{program_of, line_number};
ghost use Rattle.cluster_file.specs.Refusals.{IsRefusedBy};
ghost use Rattle.cluster_file.specs.Clusters.{line_place, assembled, program_lines};

use crate::keys::Section;
use crate::places::element_place;
use crate::refusal::{FileEnd, Refusal};
use crate::rows::ProgramRow;
use program_text::{AsmEnd, assemble};
use sprite_ids::{Bytes, Copying, Items, NoMemory};
use std::alloc::Global;
use unix_calls::ProgramLine;

/// The programs; the first refusal is for a line that is bad.
pub fn program_lines(
    alloc: Global,
    version: u8,
    rows: &[ProgramRow],
) -> Result<Items<ProgramLine>, FileEnd>
    ensures lines { IfOk result (λ lines. program_lines version rows.now ≡ Ok lines) }
    ensures refused { IfErr result (IsRefusedBy (program_lines version rows.now)) }
{
    let mut lines: Items<ProgramLine> = Items::new(alloc);
    for row in rows {
        let line = program_line(alloc, version, row)?;
        lines.push(line)?;
    }
    Ok(lines)
}

fn program_line(alloc: Global, version: u8, row: &ProgramRow) -> Result<ProgramLine, FileEnd>
    ensures line { IfOk result (λ line. assembled row.now (program_of version row.now.text) ≡ Ok line) }
    ensures refused { IfErr result (IsRefusedBy (assembled row.now (program_of version row.now.text))) }
{
    match assemble(alloc, row.text.as_str(), version) {
        Ok(mut program) => {
            program.number = row.number;
            Ok(ProgramLine {
                name: row.name.copy(alloc)?,
                program,
            })
        }
        Err(AsmEnd::Line(line)) => Err(FileEnd::Refused(Refusal {
            number: 11,
            at: line_place(alloc, row.number, line)?,
        })),
        Err(AsmEnd::NoMemory) => Err(FileEnd::NoMemory),
    }
}

/// How the place of a bad line of a program is printed.
fn line_place(alloc: Global, number: u8, line: u32) -> Result<Bytes, NoMemory>
    ensures { IfOk result (λ at. at ≡ line_place number line) }
{
    let digits = format!(in alloc; "{line}")?;
    let mut at = element_place(alloc, Section::Program, number as usize)?;
    at.append(b" line ")?;
    at.append(digits.as_bytes())?;
    Ok(at)
}
