ghost use Rattle.std.specs.Prelude.{◌≡◌, ◌++◌, IfOk, OnOk};
ghost use Rattle.report_print.specs.Refused.{has_place, place_part, refusal_line};

use crate::consoles::push_decimal;
use cluster_file::Refusal;
use sprite_ids::NoMemory;
use std::alloc::Global;

/// The line about a refusal: its number, and its place where refusals of that number have one (this project). The one error is want of memory.
pub fn refusal_line(alloc: Global, refusal: &Refusal) -> Result<Vec<u8>, NoMemory>
    ensures { IfOk result (λ line. line.items ≡ refusal_line refusal.now) }
{
    let mut line = Vec::from_slice(alloc, b"refused: ")?;
    push_decimal(alloc, &mut line, u64::from(refusal.number))?;
    push_place(&mut line, refusal)?;
    line.push(b'\n')?;
    Ok(line)
}

// Puts a space and the place of a refusal, where refusals of that number have one.
fn push_place(out: &mut Vec<u8>, refusal: &Refusal) -> Result<(), NoMemory>
    ensures { OnOk result (out.new.items ≡ out.old.items ++ place_part refusal.now) }
{
    if has_place(refusal.number) {
        out.push(b' ')?;
        out.extend_from_slice(refusal.at.as_slice())?;
    }
    Ok(())
}

// Whether refusals of that number have a place.
fn has_place(number: u8) -> bool
    ensures { result ≡ has_place number }
{
    !(number == 1 || number == 2 || number == 8)
}
