ghost use Rattle.std.specs.Prelude.{◌≡◌, ◌++◌, codes, IfOk, OnOk};
ghost use Rattle.std.specs.Fmt.{decimal};
ghost use Rattle.history_text.specs.Texts.{text};
ghost use Rattle.restart_text.specs.FileTexts.{entered_line, outcome_line, outcomes_text, end_numbers, end_line};

use file_views::{Entered, FileBody, FileStep, View};
use history_text::Field;
use restart_views::Outcome;
use sprite_ids::{Bytes, NoMemory};
use std::alloc::Global;

// Puts a name and a number in decimal.
fn put_number(alloc: Global, out: &mut Vec<u8>, name: &[u8], number: usize) -> Result<(), NoMemory>
    ensures { OnOk result (out.new.items ≡ out.old.items ++ name.now ++ decimal number) }
{
    out.extend_from_slice(name)?;
    let digits = format!(in alloc; "{number}")?;
    out.extend_from_slice(digits.as_bytes())?;
    Ok(())
}

// Puts a space, bytes in quotes, and the end of the line.
fn put_quoted(alloc: Global, out: &mut Vec<u8>, bytes: &Bytes) -> Result<(), NoMemory>
    ensures { OnOk result (out.new.items ≡ out.old.items ++ codes " " ++ text.printed bytes.now ++ codes "\n") }
{
    out.push(b' ')?;
    bytes.put(alloc, out)?;
    out.push(b'\n')?;
    Ok(())
}

// Puts the line of a reading that took effect; of other things nothing.
fn put_entered(alloc: Global, out: &mut Vec<u8>, one: &Entered) -> Result<(), NoMemory>
    ensures { OnOk result (out.new.items ≡ out.old.items ++ entered_line one.now.step one.now.reply) }
{
    let FileStep::Reading { kernel, .. } = &one.step else {
        return Ok(());
    };
    put_number(alloc, out, b"read ", usize::from(kernel.number()))?;
    match &one.reply {
        FileBody::Value { bytes, .. } => put_quoted(alloc, out, bytes),
        _ => put_quoted(alloc, out, &Bytes::new(alloc)),
    }
}

// Puts the line of an outcome.
fn put_outcome(alloc: Global, out: &mut Vec<u8>, outcome: &Outcome) -> Result<(), NoMemory>
    ensures { OnOk result (out.new.items ≡ out.old.items ++ outcome_line outcome.now) }
{
    match outcome {
        Outcome::Event { entered } => return put_entered(alloc, out, entered),
        Outcome::Granted { kernel, version } => {
            put_number(alloc, out, b"claim ", usize::from(kernel.number()))?;
            put_number(alloc, out, b" granted ", *version as usize)?;
        }
        Outcome::Refused {
            kernel,
            own,
            server,
        } => {
            put_number(alloc, out, b"claim ", usize::from(kernel.number()))?;
            put_number(alloc, out, b" refused ", *own as usize)?;
            put_number(alloc, out, b" ", *server as usize)?;
        }
    }
    out.push(b'\n')?;
    Ok(())
}

/// The lines of the outcomes, one behind another. The one error is want of memory.
pub(crate) fn outcomes_text(alloc: Global, outcomes: &[Outcome]) -> Result<Vec<u8>, NoMemory>
    ensures { IfOk result (λ told. told.items ≡ outcomes_text outcomes.now) }
{
    let mut out = Vec::new(alloc);
    for outcome in outcomes {
        put_outcome(alloc, &mut out, outcome)?;
    }
    Ok(out)
}

/// Puts the last line: the server's version, its size and its bytes. The one error is want of memory.
pub(crate) fn put_end(alloc: Global, out: &mut Vec<u8>, view: &View) -> Result<(), NoMemory>
    ensures { OnOk result (out.new.items ≡ out.old.items ++ end_line view.now) }
{
    put_end_numbers(alloc, out, view)?;
    put_quoted(alloc, out, &view.bytes)?;
    Ok(())
}

// Puts the server's version and its size.
fn put_end_numbers(alloc: Global, out: &mut Vec<u8>, view: &View) -> Result<(), NoMemory>
    ensures { OnOk result (out.new.items ≡ out.old.items ++ end_numbers view.now) }
{
    put_number(alloc, out, b"end version ", view.version as usize)?;
    put_number(alloc, out, b" size ", view.bytes.len())?;
    Ok(())
}
